//! Packets from the frames that FARM-1 accepts.
ghost use Rattle.std.specs.Prelude.{◌≡◌, ◌≢◌, ◌≤◌, ◌+◌, ◌++◌, ◌∷◌, [], ℕ, List};
ghost use Rattle.std.specs.Prelude.{length, is_some, OnOk, IfOk, IfErr, None, Err};
ghost use Rattle.sl_cop.specs.FarmClcw.{clcw_of};
ghost use Rattle.sl_packet.specs.Packets.{only_idle, without_idle};
ghost use Rattle.sl_packet.specs.Sink.{TakesAll};
ghost use Rattle.sl_packet.specs.Stopping.{CountsFault, HandsOver, IsStopped};
ghost use Rattle.sl_tcframe.specs.TcFrame.{TcView};
ghost use Rattle.sl_tcflow.specs.Anomaly.{IsReportOnFrame, dropped_by, held_of, long_by, stray_by};
ghost use Rattle.sl_tcflow.specs.Anomaly.{tail_by};
ghost use Rattle.sl_tcflow.specs.Farms.{farm_of, verdict_on};
ghost use Rattle.sl_tcflow.specs.Incomplete.{incomplete_of};
ghost use Rattle.sl_tcflow.specs.Receiver.{ForProcessed, HasProcessed, IsFailed, HasFailedAfter};
ghost use Rattle.sl_tcflow.specs.Receiver.{ForIncomplete, IsIncompleteAround, AreIncomplete};
ghost use Rattle.sl_tcflow.specs.Receiver.{ended_by, unit_channel, unit_map};
ghost use Rattle.sl_tcflow.specs.Reception.{segments_of};
ghost use Rattle.sl_tcflow.specs.ReceptionParameters.{ReceptionParameters};
ghost use Rattle.sl_tcflow.specs.Recording.{channel_at};
ghost use Rattle.sl_tcflow.specs.StepReport.{counts_of};

use crate::farms::Farms;
use crate::report::{EMPTY_STEP, TcStep};
use crate::segment::{accepted_segment, carried_segment, map_in};
use crate::series_store::SeriesStore;
use sl_cop::{Starts, Verdict, Window};
use sl_fields::Clcw;
use sl_packet::{FlowFault, PacketSink};
use sl_tcframe::{TcFrame, VcSet};
use std::alloc::Global;
use std::marker::Model;

/// Delivers the packets of the virtual channels and MAPs of CCSDS 232.0-B from the frames that
/// FARM-1 (CCSDS 232.1-B) accepts. The frames are given one after another.
///
/// The accepted units of a MAP make one list of segments, in the order of their acceptance. Units
/// of types AD and BD are in the same list, by this project's choice. A series is incomplete on a
/// MAP where the MAP's list has a first segment after which no segment has come, or continuing ones
/// alone, and these segments have at most 65,542 octets together.
#[derive(Drop)]
pub struct Receiver {
    // FARM-1 of each virtual channel.
    farms: Farms,
    // The virtual channels whose frames have no segment headers.
    plain: VcSet,
    // The series that are incomplete.
    series: SeriesStore,
    // Whether a call answered `Memory` or `Sink`.
    has_failed: bool,
}

impl Model for Receiver {
    ghost use Rattle.sl_tcflow.specs.Receiver.{ReceiverState};

    ghost Value = { ReceiverState };

    ghost use Rattle.sl_tcflow.specs.ReceiverModel.{receiver_state};

    ghost view = { receiver_state };
}

impl Receiver {
    /// A receiver that was given no frame yet. FARM-1 of each virtual channel is open, with this
    /// window and with the initial V(R) that `starts` has for the virtual channel. `plain` has the
    /// virtual channels whose frames have no segment headers. The receiver holds no memory yet.
    /// Later it is refused memory only where a series is incomplete, as [`frame`](Receiver::frame)
    /// says.
    pub fn new(alloc: Global, window: Window, starts: &Starts, plain: VcSet) -> Receiver
        // No frame was processed, and no memory is held.
        ensures processed { HasProcessed
            (record { window = window; starts = starts.now; plain = plain }) result [] }
        ensures memory { result.series.capacity ≡ 0 }
    {
        Receiver {
            farms: Farms::new(window, starts),
            plain,
            series: SeriesStore::new(alloc),
            has_failed: false,
        }
    }

    /// Takes the next frame: steps FARM-1 of the frame's virtual channel, and takes the frame's
    /// unit if FARM-1 accepts it. If the unit completes a service data unit, hands the sink the
    /// packets of that service data unit, in order and without idle packets. Their channel is 64
    /// times the virtual channel plus the MAP, 0 to 4095. Returns the report of what the frame
    /// brought.
    ///
    /// - `Memory`: memory was refused. Memory is refused only where the unit is accepted and a
    ///   series is incomplete on its MAP, before the frame or after it. The sink has accepted the
    ///   packets up to a point in their order, perhaps none, perhaps all of them, and refused none.
    ///   (This code takes all memory before it hands a packet over. No clause says so.)
    /// - `Sink`: the sink refused a packet. The sink has accepted the packets before this one, and
    ///   none after it. Its count of refused packets has risen by one, unless the count was at its
    ///   greatest, 2^64 - 1.
    /// - `Failed`: an earlier call answered `Memory` or `Sink`. From then on every call answers
    ///   `Failed`, hands over nothing and changes nothing. No other call answers `Failed`.
    ///
    /// At `Memory` and `Sink` FARM-1 has taken the frame too.
    pub fn frame<S: PacketSink>(
        &mut self,
        frame: &TcFrame,
        sink: &mut S,
    ) -> Result<TcStep, FlowFault>
        // `r` and `views` in a clause are any parameters and any frames under which the receiver
        // may have come to its state before the call. These frames and the new one are processed
        // now, and FARM-1 gave the verdict.
        ensures processed { OnOk result (ForProcessed self.old (λ r views.
            HasProcessed r self.new (views ++ frame.now ∷ []))) }
        ensures verdict { IfOk result (λ step. ForProcessed self.old (λ r views.
            step.verdict ≡ verdict_on r views frame.now)) }

        // The report has the MAP of the frame's unit.
        ensures map { IfOk result (λ step. ForProcessed self.old (λ r views.
            step.map ≡ unit_map r frame.now)) }

        // The packets of the service data unit that the frame's unit completes were accepted and
        // counted, and the sink refused none.
        ensures accepted { OnOk result (ForProcessed self.old (λ r views.
            TakesAll S.taking sink.old (unit_channel r frame.now)
            (without_idle (ended_by r views frame.now)) sink.new)) }
        ensures packets { IfOk result (λ step. ForProcessed self.old (λ r views.
            step.packets ≡ length (without_idle (ended_by r views frame.now)))) }
        ensures idle { IfOk result (λ step. ForProcessed self.old (λ r views.
            step.idle ≡ length (only_idle (ended_by r views frame.now)))) }
        ensures kept { OnOk result (S.failures sink.new ≡ S.failures sink.old) }

        // The anomalies of the frame's unit are reported, if it is accepted.
        ensures stray { IfOk result (λ step. ForProcessed self.old (λ r views.
            step.stray ≡ stray_by r views frame.now)) }
        ensures dropped { IfOk result (λ step. ForProcessed self.old (λ r views.
            step.dropped ≡ dropped_by r views frame.now)) }
        ensures long { IfOk result (λ step. ForProcessed self.old (λ r views.
            step.long ≡ long_by r views frame.now)) }
        ensures tail { IfOk result (λ step. ForProcessed self.old (λ r views.
            step.tail ≡ tail_by r views frame.now)) }

        // After a fault each call answers `Failed` and changes nothing. No call answers `Failed`
        // before a fault.
        ensures failed { IsFailed self.old → result ≡ Err FlowFault.Failed }
        ensures left { result ≡ Err FlowFault.Failed
            → IsFailed self.old × (self.new ≡ self.old) × (sink.new ≡ sink.old) }

        // At `Memory` and `Sink` the sink has accepted the packets up to a point, as `IsStopped`
        // says for each of the two, and FARM-1 has taken the frame. The sink's count of refused
        // packets has risen exactly at `Sink`, unless the count was at its greatest.
        ensures stopped { IfErr result (λ flow. flow ≢ FlowFault.Failed → IsFailed self.new
            × ForProcessed self.old (λ r views. HasFailedAfter r self.new (views ++ frame.now ∷ [])
            × IsStopped S.taking S.failing S.failures sink.old (unit_channel r frame.now)
            (without_idle (ended_by r views frame.now)) flow sink.new)) }
        ensures counted { IfErr result (λ flow. CountsFault S.failures sink.old flow sink.new) }

        // Memory is refused only where the frame's unit is accepted and a series is incomplete on
        // its MAP, before the frame or after it. Only there does the memory change that is held for
        // the list of the incomplete series; the octets of a series have memory of their own.
        // (`take_segment` promises more of the list: a series is incomplete after the segment. Here
        // both clauses have the one condition, which is enough for callers.)
        ensures memory { IfErr result (λ flow. flow ≡ FlowFault.Memory →
            ForProcessed self.old (λ r views. IsIncompleteAround r views frame.now)) }
        ensures capacity { self.new.series.capacity ≢ self.old.series.capacity →
            ForProcessed self.old (λ r views. IsIncompleteAround r views frame.now) }
    {
        if self.has_failed {
            return Err(FlowFault::Failed);
        }
        let verdict = self.farms.step(frame);
        let plain = self.plain.has(frame.vc());
        // `match` and not `?`, here and below: `?` converts the fault, and each clause on faults
        // would then have to be proved by hand.
        match take_unit(&mut self.series, plain, verdict, frame, sink) {
            Ok(step) => Ok(step),
            Err(flow) => {
                self.has_failed = true;
                Err(flow)
            }
        }
    }

    /// The Communications Link Control Word (CCSDS 232.0-B) of the virtual channel `vc`, 0 to 63.
    /// The word reports the state of FARM-1 after all frames so far. After a fault these are the
    /// frames up to the one at which the fault came, and later calls don't change the word.
    pub fn clcw(&self, vc: u8) -> Clcw
        requires { vc ≤ 63 }
        // The word is that of the frames so far, whether a fault came or not.
        ensures processed { ForProcessed self.now (λ r views.
            result ≡ clcw_of vc (farm_of r vc views).state) }
        ensures failed { (r : ReceptionParameters) (views : List TcView)
            → HasFailedAfter r self.now views
            → result ≡ clcw_of vc (farm_of r vc views).state }
    {
        self.farms.clcw(vc)
    }

    /// The number of octets so far of the series that is incomplete on the virtual channel `vc` and
    /// the MAP `map`, each 0 to 63: at most 65,542, and 0 where no series is incomplete. An
    /// incomplete series may have 0 octets too; [`is_open`](Receiver::is_open) answers whether
    /// there is one. After a fault, the clauses give only the bound.
    pub fn held(&self, vc: u8, map: u8) -> u32
        requires vc { vc ≤ 63 }
        requires map { map ≤ 63 }
        ensures value { ForProcessed self.now (λ r views.
            result ≡ held_of (segments_of r vc map views)) }
        ensures most { result ≤ 65542 }
    {
        self.series.held(vc, map).unwrap_or(0)
    }

    /// Whether a series is open, that is, incomplete, on the virtual channel `vc` and MAP `map`,
    /// each 0 to 63. The series may have no octets so far. After a fault no clause says what the
    /// answer is.
    pub fn is_open(&self, vc: u8, map: u8) -> bool
        requires vc { vc ≤ 63 }
        requires map { map ≤ 63 }
        ensures value { ForProcessed self.now (λ r views.
            result ≡ is_some (incomplete_of (segments_of r vc map views))) }
    {
        self.series.held(vc, map).is_some()
    }

    /// The least number from which on no channel has an incomplete series, 0 to 4096: one more than
    /// the greatest channel with an incomplete series, and 0 where no series is incomplete at all.
    /// A channel is 64 times the virtual channel plus the MAP. After a fault, the clauses give only
    /// the bound.
    pub fn none_open_from(&self) -> u16
        // No series is incomplete on the channels from the answer on.
        ensures most { result ≤ 4096 }
        ensures none { ForProcessed self.now (λ r views. (vc map : ℕ) → vc ≤ 63 → map ≤ 63
            → result ≤ channel_at vc map → incomplete_of (segments_of r vc map views) ≡ None) }

        // A series is incomplete on the channel before the answer, if there is one.
        ensures least { ForProcessed self.now (λ r views. (vc map : ℕ) → vc ≤ 63 → map ≤ 63
            → result ≡ channel_at vc map + 1
            → incomplete_of (segments_of r vc map views) ≢ None) }
    {
        self.series.none_open_from()
    }
}

// Takes the unit of a frame, if the frame carries one and this verdict accepts it. `plain` says
// that the frame's virtual channel has no segment headers. The fault is `Memory` where memory was
// refused, and `Sink` where the sink refused a packet.
fn take_unit<S: PacketSink>(
    series: &mut SeriesStore,
    plain: bool,
    verdict: Verdict,
    frame: &TcFrame,
    sink: &mut S,
) -> Result<TcStep, FlowFault>
    // The clauses speak of virtual channels up to 63.
    requires { frame.now.vc ≤ 63 }
    // `r` and `views` in a clause are any parameters and any frames that may have come before and
    // led to these series and this verdict. The unit continues, ends or begins its series, its
    // packets are handed over, and the step reports them.
    ensures series { OnOk result (ForIncomplete plain series.old.list verdict frame.now
        (λ r views. AreIncomplete r series.new.list (views ++ frame.now ∷ []))) }
    ensures hands_over { ForIncomplete plain series.old.list verdict frame.now
        (λ r views. HandsOver S.taking S.failing S.failures counts_of
        sink.old (unit_channel r frame.now) (ended_by r views frame.now) result sink.new) }
    ensures step { IfOk result
        (λ step. ForIncomplete plain series.old.list verdict frame.now
        (λ r views. IsReportOnFrame r views frame.now step)) }

    // Memory is refused, and the memory for the list of series changes, only where the unit is
    // accepted and a series is incomplete on its MAP, before the frame or after it.
    ensures memory { IfErr result (λ flow. flow ≡ FlowFault.Memory →
        ForIncomplete plain series.old.list verdict frame.now
        (λ r views. IsIncompleteAround r views frame.now)) }
    ensures capacity { series.new.capacity ≢ series.old.capacity →
        ForIncomplete plain series.old.list verdict frame.now
        (λ r views. IsIncompleteAround r views frame.now) }

    // The sink's count of refused packets rises exactly at `Sink`, unless the count was at its
    // greatest. No fault is `Failed`. `hands_over` says so too, but only where there are frames
    // that may have led to these series (`ForIncomplete`); these three need none.
    ensures kept { OnOk result (S.failures sink.new ≡ S.failures sink.old) }
    ensures counted { IfErr result (λ flow. CountsFault S.failures sink.old flow sink.new) }
    ensures not_failed { IfErr result (λ flow. flow ≢ FlowFault.Failed) }
{
    let segment = carried_segment(frame, plain);
    let map = map_in(&segment);
    match accepted_segment(verdict, segment) {
        // The verdict is `Accept` here, as each report on a segment has it.
        Some(segment) => match series.take_segment(&segment, sink) {
            Ok(step) => Ok(TcStep { map, ..step }),
            Err(flow) => Err(flow),
        },
        None => Ok(TcStep {
            verdict,
            map,
            ..EMPTY_STEP
        }),
    }
}
