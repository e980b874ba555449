//! Packets from the frames that FARM-1 accepts, counted and not handed over.
ghost use Rattle.std.specs.Prelude.{◌≡◌, ◌≢◌, ◌≤◌, ◌+◌, ◌++◌, ◌∷◌, [], ℕ, length, is_some, None};
ghost use Rattle.std.specs.Prelude.{IfOk, OnErr, OnOk};
ghost use Rattle.sl_packet.specs.Packets.{only_idle, without_idle};
ghost use Rattle.sl_tcflow.specs.Anomaly.{IsReportOnFrame, dropped_by, held_of, long_by, stray_by};
ghost use Rattle.sl_tcflow.specs.Anomaly.{tail_by};
ghost use Rattle.sl_tcflow.specs.Farms.{verdict_on};
ghost use Rattle.sl_tcflow.specs.Incomplete.{incomplete_of};
ghost use Rattle.sl_tcflow.specs.Receiver.{ended_by, unit_map};
ghost use Rattle.sl_tcflow.specs.Reception.{segments_of};
ghost use Rattle.sl_tcflow.specs.Recording.{channel_at};
ghost use Rattle.sl_tcflow.specs.UnitCount.{ReportsPackets};
ghost use Rattle.sl_tcflow.specs.UnitCounter.{AreCounted, ForCounted, ForCounts, HasCounted};
ghost use Rattle.sl_tcflow.specs.UnitCounter.{HasRefused, IsIncompleteAfter};

use crate::count_store::CountStore;
use crate::farms::Farms;
use crate::report::{EMPTY_STEP, TcStep};
use crate::segment::{accepted_segment, carried_segment, map_in};
use sl_cop::{Starts, Verdict, Window};
use sl_tcframe::{TcFrame, VcSet};
use std::alloc::{AllocError, Global};
use std::marker::Model;

/// Counts the packets that a [`Receiver`](crate::Receiver) delivers from the same frames, and
/// reports the same anomalies. Of a service data unit that comes in parts the counter keeps no
/// octets but those of a packet's header. Its list of counts, of 24 octets each, reaches up to the
/// greatest channel on which a first segment has come, and has memory for twice as many at most. No
/// clause says what is kept: that is seen by reading.
#[derive(Drop)]
pub struct UnitCounter {
    // FARM-1 of each virtual channel.
    farms: Farms,
    // The virtual channels whose frames have no segment headers.
    plain: VcSet,
    // The counts of the series that are incomplete.
    series: CountStore,
}

impl Model for UnitCounter {
    ghost use Rattle.sl_tcflow.specs.UnitCounter.{CounterState};

    ghost Value = { CounterState };

    ghost use Rattle.sl_tcflow.specs.UnitCounterModel.{counter_state};

    ghost view = { counter_state };
}

impl UnitCounter {
    /// A counter that was given no frame yet. FARM-1 of each virtual channel is open, with this
    /// window and with the initial V(R) that `starts` has for the virtual channel. `plain` has the
    /// virtual channels whose frames have no segment headers.
    pub fn new(alloc: Global, window: Window, starts: &Starts, plain: VcSet) -> UnitCounter
        // No frame was processed.
        ensures { HasCounted
            (record { window = window; starts = starts.now; plain = plain }) result [] }
    {
        UnitCounter {
            farms: Farms::new(window, starts),
            plain,
            series: CountStore::new(alloc),
        }
    }

    /// Takes the next frame: steps FARM-1 of the frame's virtual channel, and takes the frame's
    /// unit if FARM-1 accepts it. Returns the report of what the frame brought, with the numbers of
    /// packets of the service data unit that the unit completes.
    ///
    /// Memory is refused only where the unit is accepted and a series is incomplete on its MAP
    /// after the frame. Then FARM-1 has taken the frame, and all series are as before it.
    pub fn frame(&mut self, frame: &TcFrame) -> Result<TcStep, AllocError>
        // `r` and `views` in a clause are any parameters and any frames under which the counter may
        // have come to its state before the call. These frames and the new one are processed now,
        // and FARM-1 gave the verdict.
        ensures processed { OnOk result (ForCounted self.old (λ r views.
            HasCounted r self.new (views ++ frame.now ∷ []))) }
        ensures verdict { IfOk result (λ step. ForCounted self.old (λ r views.
            step.verdict ≡ verdict_on r views frame.now)) }

        // The report has the MAP of the frame's unit.
        ensures map { IfOk result (λ step. ForCounted self.old (λ r views.
            step.map ≡ unit_map r frame.now)) }

        // The packets of the service data unit that the frame's unit completes are counted.
        ensures packets { IfOk result (λ step. ForCounted self.old (λ r views.
            step.packets ≡ length (without_idle (ended_by r views frame.now)))) }
        ensures idle { IfOk result (λ step. ForCounted self.old (λ r views.
            step.idle ≡ length (only_idle (ended_by r views frame.now)))) }

        // The anomalies of the frame's unit are reported, if it is accepted.
        ensures stray { IfOk result (λ step. ForCounted self.old (λ r views.
            step.stray ≡ stray_by r views frame.now)) }
        ensures dropped { IfOk result (λ step. ForCounted self.old (λ r views.
            step.dropped ≡ dropped_by r views frame.now)) }
        ensures long { IfOk result (λ step. ForCounted self.old (λ r views.
            step.long ≡ long_by r views frame.now)) }
        ensures tail { IfOk result (λ step. ForCounted self.old (λ r views.
            step.tail ≡ tail_by r views frame.now)) }

        // Memory is refused only where the frame's unit is accepted and a series is incomplete on
        // its MAP after the frame. FARM-1 has taken the frame then, and the series are those before
        // it.
        ensures memory { OnErr result (ForCounted self.old (λ r views.
            IsIncompleteAfter r views frame.now)) }
        ensures refused { OnErr result (ForCounted self.old (λ r views.
            HasRefused r self.new views frame.now)) }
    {
        let verdict = self.farms.step(frame);
        let plain = self.plain.has(frame.vc());
        // `match` and not `?`, which would want a proof for each clause.
        let step = match count_unit(&mut self.series, plain, verdict, frame) {
            Ok(step) => step,
            Err(error) => return Err(error),
        };
        Ok(step)
    }

    /// The number of octets so far of the series that is incomplete on the virtual channel `vc` and
    /// the MAP `map`, each 0 to 63: at most 65,542, and 0 where no series is incomplete. An
    /// incomplete series may have 0 octets too; [`is_open`](UnitCounter::is_open) answers whether
    /// there is one.
    pub fn held(&self, vc: u8, map: u8) -> u32
        requires vc { vc ≤ 63 }
        requires map { map ≤ 63 }
        ensures value { ForCounted self.now (λ r views.
            result ≡ held_of (segments_of r vc map views)) }
        ensures most { result ≤ 65542 }
    {
        self.series.held(vc, map).unwrap_or(0)
    }

    /// Whether a series is open, that is, incomplete, on the virtual channel `vc` and MAP `map`,
    /// each 0 to 63. The series may have no octets so far.
    pub fn is_open(&self, vc: u8, map: u8) -> bool
        requires vc { vc ≤ 63 }
        requires map { map ≤ 63 }
        ensures value { ForCounted self.now (λ r views.
            result ≡ is_some (incomplete_of (segments_of r vc map views))) }
    {
        self.series.held(vc, map).is_some()
    }

    /// The least number from which on no channel has an incomplete series, 0 to 4096: one more than
    /// the greatest channel with an incomplete series, and 0 where no series is incomplete at all.
    /// A channel is 64 times the virtual channel plus the MAP.
    pub fn none_open_from(&self) -> u16
        // No series is incomplete on the channels from the answer on.
        ensures most { result ≤ 4096 }
        ensures none { ForCounted self.now (λ r views. (vc map : ℕ) → vc ≤ 63 → map ≤ 63
            → result ≤ channel_at vc map → incomplete_of (segments_of r vc map views) ≡ None) }

        // A series is incomplete on the channel before the answer, if there is one.
        ensures least { ForCounted self.now (λ r views. (vc map : ℕ) → vc ≤ 63 → map ≤ 63
            → result ≡ channel_at vc map + 1
            → incomplete_of (segments_of r vc map views) ≢ None) }
    {
        self.series.none_open_from()
    }
}

// Takes the unit of a frame, if the frame carries one and this verdict accepts it. `plain` says
// that the frame's virtual channel has no segment headers.
#[inline(always)]
fn count_unit(
    series: &mut CountStore,
    plain: bool,
    verdict: Verdict,
    frame: &TcFrame,
) -> Result<TcStep, AllocError>
    // The clauses speak of virtual channels up to 63.
    requires { frame.now.vc ≤ 63 }
    // `r` and `views` in a clause are any parameters and any frames that may have come before and
    // led to these counts and this verdict. The unit continues, ends or begins its series, and the
    // step reports its packets and its anomalies.
    ensures counts { OnOk result (ForCounts plain series.old verdict frame.now (λ r views.
        AreCounted r series.new (views ++ frame.now ∷ []))) }
    ensures step { IfOk result (λ step. ForCounts plain series.old verdict frame.now (λ r views.
        IsReportOnFrame r views frame.now step)) }
    ensures packets { IfOk result (λ step. ForCounts plain series.old verdict frame.now
        (λ r views. ReportsPackets (ended_by r views frame.now) step)) }
    ensures memory { OnErr result (ForCounts plain series.old verdict frame.now (λ r views.
        IsIncompleteAfter r views frame.now)) }
    ensures kept { OnErr result (series.new ≡ series.old) }
{
    let segment = carried_segment(frame, plain);
    let map = map_in(&segment);
    match accepted_segment(verdict, segment) {
        // The verdict is `Accept` here, as each report on a segment has it.
        Some(segment) => match series.take_segment(&segment) {
            Ok(step) => Ok(TcStep { map, ..step }),
            Err(error) => Err(error),
        },
        None => Ok(TcStep {
            verdict,
            map,
            ..EMPTY_STEP
        }),
    }
}
