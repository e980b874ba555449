//! A caller whose own contract is what the clauses and a law of a receiver promise together.
ghost use Rattle.std.specs.Prelude.{◌≡◌, ◌≢◌, ◌⊎◌, ℕ, [], IfErr, IfOk};
ghost use Rattle.sl_packet.specs.Delivered.{list_at};
ghost use Rattle.sl_packet.specs.Packets.{without_idle};
ghost use Rattle.sl_tcflow.specs.Receiver.{IsIncompleteAround, ended_by};
ghost use Rattle.sl_tcflow.specs.Recording.{packets_of_channel};
ghost use Rattle.sl_callers.specs.Frames.{HoldsAtOne};

use sl_cop::{Starts, Window};
use sl_packet::{Delivered, FlowFault, SinkFault};
use sl_tcflow::Receiver;
use sl_tcflow::laws::tc_packets_are_handed_over;
use sl_tcframe::{TcFrame, VcSet};
use std::alloc::Global;

/// The packets of frames that are given to a receiver one after another. The list of a virtual
/// channel and a MAP, whose channel is 64 times the virtual channel plus the MAP, is what the
/// frames deliver there, idle packets left out. The fault is `Memory` where the receiver was
/// refused memory, and `Sink(Memory)` where the store was. The receiver is refused memory only
/// where the unit of a frame is accepted and a series is incomplete on its MAP, before the frame or
/// after it; the store only where a packet that isn't idle ends in a frame.
pub fn receive(
    alloc: Global,
    window: Window,
    starts: &Starts,
    plain: VcSet,
    frames: &[TcFrame],
) -> Result<Delivered, FlowFault>
    ensures lists { IfOk result (λ delivered. (channel : ℕ) → list_at delivered channel
        ≡ without_idle (packets_of_channel
        (record { window = window; starts = starts.now; plain = plain }) frames.now channel)) }
    // Memory was refused, to the receiver or to the store.
    ensures fault { IfErr result (λ fault. (fault ≡ FlowFault.Memory)
        ⊎ (fault ≡ FlowFault.Sink SinkFault.Memory)) }
    // The receiver is refused memory only where the unit of a frame is accepted and a series is
    // incomplete on its MAP, before the frame or after it.
    ensures memory { IfErr result (λ fault. fault ≡ FlowFault.Memory
        → HoldsAtOne (IsIncompleteAround
        (record { window = window; starts = starts.now; plain = plain })) frames.now) }
    // The store is refused memory only where a frame hands over a packet.
    ensures store { IfErr result (λ fault. fault ≡ FlowFault.Sink SinkFault.Memory
        → HoldsAtOne (λ before frame. without_idle (ended_by
        (record { window = window; starts = starts.now; plain = plain }) before frame) ≢ [])
        frames.now) }
{
    // For the proof alone: the law.
    tc_packets_are_handed_over();
    let mut receiver = Receiver::new(alloc, window, starts, plain);
    let mut delivered = Delivered::new(alloc);
    for frame in frames {
        // For the proof alone: the virtual channel is at most 63.
        let _ = frame.vc();
        receiver.frame(frame, &mut delivered)?;
    }
    Ok(delivered)
}
