//! Packets of virtual channels, counted and not kept.
ghost use Rattle.std.specs.Prelude.{◌≡◌, ◌≤◌, ◌++◌, ◌∷◌, [], length};
ghost use Rattle.std.specs.List.{concat};
ghost use Rattle.sl_packet.specs.Packets.{only_idle, without_idle};
ghost use Rattle.sl_tmflow.specs.Anomaly.{dropped_of, foreign_of, gap_of};
ghost use Rattle.sl_tmflow.specs.Counter.{ForCounted, HasCounted};
ghost use Rattle.sl_tmflow.specs.Extractor.{ended_by};
ghost use Rattle.sl_tmflow.specs.Incomplete.{incomplete_of};
ghost use Rattle.sl_tmflow.specs.VirtualChannel.{views_on};

use crate::channel_outline::ChannelOutline;
use crate::report::TmStep;
use sl_tmframe::TmFrame;

/// Counts the packets that the virtual channels of CCSDS 132.0-B deliver, as an
/// [`Extractor`](crate::Extractor) does. Of packets no octets are kept but those of a header, so no
/// memory is taken.
#[derive(Clone, Copy)]
pub struct PacketCounter {
    // The virtual channels 0 to 7, in this order.
    channels: [ChannelOutline; 8],
}

impl PacketCounter {
    /// A counter that was given no frame yet.
    pub fn new() -> PacketCounter
        ensures { HasCounted result [] }
    {
        PacketCounter {
            channels: [ChannelOutline::new(); 8],
        }
    }

    /// Takes the next frame, and answers the report on the frame.
    #[inline(always)]
    pub fn frame(&mut self, frame: &TmFrame) -> TmStep
        // `ForCounted self.old (λ views. ..)` says that a property holds for every list `views` of
        // frames that can have led to the state before the call. After it these frames and then the
        // new one are counted.
        ensures processed { ForCounted self.old (λ views.
            HasCounted self.new (views ++ frame.now ∷ [])) }

        // The packets that end in the frame.
        ensures packets { ForCounted self.old (λ views.
            result.packets ≡ length (without_idle (ended_by views frame.now))) }
        ensures idle { ForCounted self.old (λ views.
            result.idle ≡ length (only_idle (ended_by views frame.now))) }

        // The anomalies: a count that doesn't follow the last one, an incomplete packet that the
        // frame breaks off, and octets of another packet version at a packet start.
        ensures gap { ForCounted self.old (λ views.
            result.gap ≡ gap_of (views_on frame.now.vc views) frame.now) }
        ensures dropped { ForCounted self.old (λ views.
            result.dropped ≡ dropped_of (views_on frame.now.vc views) frame.now) }
        ensures foreign { result.foreign ≡ foreign_of frame.now.field }
    {
        self.channels[usize::from(frame.vc())].take_frame(frame)
    }

    /// The number of octets so far of the packet that is incomplete after the last frame of the
    /// virtual channel `vc`, 0 to 7. The number is at most 65,541, and 0 where no packet is
    /// incomplete.
    pub fn held(&self, vc: u8) -> u32
        requires { vc ≤ 7 }
        ensures value { ForCounted self.now (λ views.
            result ≡ length (concat (incomplete_of (views_on vc views)))) }
        ensures most { result ≤ 65541 }
    {
        self.channels[usize::from(vc)].held()
    }
}
