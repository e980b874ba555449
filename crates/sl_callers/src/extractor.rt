//! A caller whose own contract is what the clauses and a law of an extractor promise together.
ghost use Rattle.std.specs.Prelude.{◌≡◌, ◌≢◌, ◌⊎◌, ℕ, [], IfErr, IfOk};
ghost use Rattle.sl_packet.specs.Delivered.{list_at};
ghost use Rattle.sl_packet.specs.Packets.{without_idle};
ghost use Rattle.sl_tmflow.specs.Extractor.{IsIncompleteAround, ended_by};
ghost use Rattle.sl_tmflow.specs.Recording.{packets_of_channel};
ghost use Rattle.sl_callers.specs.Frames.{HoldsAtOne};

use sl_packet::{Delivered, FlowFault, SinkFault};
use sl_tmflow::Extractor;
use sl_tmflow::laws::tm_packets_are_handed_over;
use sl_tmframe::TmFrame;
use std::alloc::Global;

/// The packets of frames that are given to an extractor one after another. Each virtual channel's
/// list is what its frames deliver, idle packets left out. The fault is `Memory` where the
/// extractor was refused memory, and `Sink(Memory)` where the store was. The extractor is refused
/// memory only where a packet is incomplete on the virtual channel of a frame, before the frame or
/// after it; the store only where a packet that isn't idle ends in a frame.
pub fn deliver(alloc: Global, frames: &[TmFrame]) -> Result<Delivered, FlowFault>
    ensures lists { IfOk result (λ delivered. (vc : ℕ)
        → list_at delivered vc ≡ without_idle (packets_of_channel frames.now vc)) }
    // Memory was refused, to the extractor or to the store.
    ensures fault { IfErr result (λ fault. (fault ≡ FlowFault.Memory)
        ⊎ (fault ≡ FlowFault.Sink SinkFault.Memory)) }
    // The extractor is refused memory only where a packet is incomplete, before a frame or after
    // it, on the frame's virtual channel.
    ensures memory { IfErr result (λ fault. fault ≡ FlowFault.Memory
        → HoldsAtOne IsIncompleteAround frames.now) }
    // The store is refused memory only where a frame hands over a packet.
    ensures store { IfErr result (λ fault. fault ≡ FlowFault.Sink SinkFault.Memory
        → HoldsAtOne (λ before frame. without_idle (ended_by before frame) ≢ []) frames.now) }
{
    // For the proof alone: the law.
    tm_packets_are_handed_over();
    let mut extractor = Extractor::new(alloc);
    let mut delivered = Delivered::new(alloc);
    for frame in frames {
        // For the proof alone: the virtual channel is at most 7.
        let _ = frame.vc();
        extractor.frame(frame, &mut delivered)?;
    }
    Ok(delivered)
}
