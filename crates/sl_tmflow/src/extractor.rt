//! Packets from the frames of virtual channels.
ghost use Rattle.std.specs.Prelude.{◌≡◌, ◌≢◌, ◌≤◌, ◌++◌, ◌∷◌, [], length, OnOk, IfOk, IfErr, Err};
ghost use Rattle.sl_packet.specs.Packets.{only_idle, without_idle};
ghost use Rattle.sl_packet.specs.Sink.{TakesAll};
ghost use Rattle.std.specs.List.{concat};
ghost use Rattle.sl_tmflow.specs.Anomaly.{dropped_of, foreign_of, gap_of};
ghost use Rattle.sl_tmflow.specs.VirtualChannel.{views_on};
ghost use Rattle.sl_tmflow.specs.Incomplete.{incomplete_of};
ghost use Rattle.sl_tmflow.specs.Extractor.{ForProcessed, HasProcessed, IsFailed, HasNoMemory};
ghost use Rattle.sl_tmflow.specs.Extractor.{IsIncompleteAround, ended_by};
ghost use Rattle.sl_packet.specs.Stopping.{CountsFault, IsStopped};

use crate::channel::Channel;
use crate::report::TmStep;
use sl_packet::{FlowFault, PacketSink};
use sl_tmframe::TmFrame;
use std::alloc::Global;
use std::marker::Model;

/// Delivers the packets of the virtual channels of CCSDS 132.0-B from their frames, which are given
/// one after another. Frames with the same virtual channel identifier are of one channel, whatever
/// their formats and spacecraft are.
#[derive(Drop)]
pub struct Extractor {
    // The virtual channels 0 to 7, in this order.
    channels: [Channel; 8],
    // Whether a call has answered `Memory` or `Sink`.
    has_failed: bool,
}

impl Model for Extractor {
    ghost use Rattle.sl_tmflow.specs.Extractor.{ExtractorState};

    ghost Value = { ExtractorState };

    ghost use Rattle.sl_tmflow.specs.ExtractorModel.{extractor_state};

    ghost view = { extractor_state };
}

impl Extractor {
    /// An extractor that was given no frame yet. It holds no memory yet. Later it is refused memory
    /// only where a packet is incomplete, as [`frame`](Extractor::frame) says.
    pub fn new(alloc: Global) -> Extractor
        ensures processed { HasProcessed result [] }
        ensures memory { HasNoMemory result }
    {
        Extractor {
            channels: [(); 8].map(|()| Channel::new(alloc)),
            has_failed: false,
        }
    }

    /// Takes the next frame: hands the sink the packets that end in the frame, and answers the
    /// report on the frame. The packets are handed over in the order of their starts, without idle
    /// packets. Their channel is the frame's virtual channel, 0 to 7.
    ///
    /// - `Memory`: this call was refused memory. Memory is refused only where a packet is
    ///   incomplete on the frame's virtual channel, before the frame or after it. The sink has
    ///   accepted the packets up to a point in their order, perhaps none, perhaps all of them, and
    ///   refused none.
    /// - `Sink`: the sink refused a packet. It has accepted the packets before this one, and none
    ///   after it. Its count of refused packets has risen by one, unless it was 2^64 - 1.
    /// - `Failed`: an earlier call answered `Memory` or `Sink`. After that every call answers
    ///   `Failed`, hands over nothing and changes nothing. No other call answers `Failed`.
    pub fn frame<S: PacketSink>(
        &mut self,
        frame: &TmFrame,
        sink: &mut S,
    ) -> Result<TmStep, FlowFault>
        // `ForProcessed self.old (λ views. ..)` says that a property holds for every list `views`
        // of frames that can have led to the state before the call. On Ok these frames and then the
        // new one are processed.
        ensures processed { OnOk result (ForProcessed self.old (λ views.
            HasProcessed self.new (views ++ frame.now ∷ []))) }

        // The packets that end in the frame were accepted and counted, and the sink refused none.
        ensures accepted { OnOk result (ForProcessed self.old (λ views.
            TakesAll S.taking sink.old frame.now.vc (without_idle (ended_by views frame.now))
            sink.new)) }
        ensures packets { IfOk result (λ report. ForProcessed self.old (λ views.
            report.packets ≡ length (without_idle (ended_by views frame.now)))) }
        ensures idle { IfOk result (λ report. ForProcessed self.old (λ views.
            report.idle ≡ length (only_idle (ended_by views frame.now)))) }
        ensures kept { OnOk result (S.failures sink.new ≡ S.failures sink.old) }

        // The anomalies: a count that doesn't follow the last one, an incomplete packet that the
        // frame breaks off, and octets of another packet version at a packet start.
        ensures gap { IfOk result (λ report. ForProcessed self.old (λ views.
            report.gap ≡ gap_of (views_on frame.now.vc views) frame.now)) }
        ensures dropped { IfOk result (λ report. ForProcessed self.old (λ views.
            report.dropped ≡ dropped_of (views_on frame.now.vc views) frame.now)) }
        ensures foreign { IfOk result (λ report. report.foreign ≡ foreign_of frame.now.field) }

        // After a fault each call answers `Failed`, and leaves the extractor and the sink as they
        // were. No call answers `Failed` before a fault.
        ensures failed { IsFailed self.old → result ≡ Err FlowFault.Failed }
        ensures left { result ≡ Err FlowFault.Failed
            → IsFailed self.old × (self.new ≡ self.old) × (sink.new ≡ sink.old) }

        // At a fault of this call the sink has accepted the packets up to a point. By `IsStopped`
        // this is the refused packet for `Sink`, and any point for `Memory`. `counted` says again,
        // for callers that know of no processed frames, that the sink's count of refused packets
        // rises exactly where the fault is `Sink`, unless the count is at its greatest.
        ensures stopped { IfErr result (λ flow. flow ≢ FlowFault.Failed → IsFailed self.new
            × ForProcessed self.old (λ views.
            IsStopped S.taking S.failing S.failures sink.old frame.now.vc
            (without_idle (ended_by views frame.now)) flow sink.new)) }
        ensures counted { IfErr result (λ flow. CountsFault S.failures sink.old flow sink.new) }

        // Memory is refused only where a packet is incomplete on the frame's virtual channel,
        // before the frame or after it.
        ensures memory { IfErr result (λ flow. flow ≡ FlowFault.Memory →
            ForProcessed self.old (λ views. IsIncompleteAround views frame.now)) }
    {
        if self.has_failed {
            return Err(FlowFault::Failed);
        }
        match self.channels[usize::from(frame.vc())].take_frame(frame, sink) {
            Ok(report) => Ok(report),
            Err(flow) => {
                self.has_failed = true;
                Err(flow)
            }
        }
    }

    /// The number of octets so far of the packet that is incomplete after the last frame of the
    /// virtual channel `vc`, 0 to 7. The number is at most 65,541, one less than the longest packet
    /// has. It is 0 where no packet is incomplete, and after a fault.
    pub fn held(&self, vc: u8) -> u32
        requires { vc ≤ 7 }
        ensures value { ForProcessed self.now (λ views.
            result ≡ length (concat (incomplete_of (views_on vc views)))) }
        ensures most { result ≤ 65541 }
        ensures failed { IsFailed self.now → result ≡ 0 }
    {
        if self.has_failed {
            return 0;
        }
        self.channels[usize::from(vc)].held()
    }
}
