//! The packets of TC frames, delivered by a receiver or counted.
ghost use Rattle.std.specs.Prelude.{◌≡◌, false, Ok};
ghost use Rattle.sl_engine.specs.Kind.Tc.{content_ns, finding_of};
ghost use Rattle.sl_tcframe.specs.TcContent.{content};

use crate::kind::{Counter, Deliverer, Followed};
use crate::link::managed::Managed;
use crate::tally::{FrameReport, SKIPPED};
use sl_cop::Verdict;
use sl_packet::{FlowFault, PacketSink};
use sl_tcflow::{Receiver, TcStep, UnitCounter};
use sl_tcframe::{TcContent, TcFrame, TcFramer, TcSkip};
use std::alloc::Global;
use std::marker::Model;

/// A TC frame that is read, and what a receiver or a counter finds of it.
#[derive(Clone, Copy)]
pub struct TcFound {
    pub vc: u8,
    /// The MAP of the frame's unit. 0 without segment headers, and where the frame carries no unit.
    pub map: u8,
    /// N(S), in a frame of type AD.
    pub ns: Option<u8>,
    pub verdict: Verdict,
    /// Whether a segment is out of sequence.
    pub stray: bool,
    /// Whether a series is given up, because it is too long.
    pub long: bool,
    /// How many octets the series has that is dropped, if one is: a series may have none yet.
    pub dropped: Option<u32>,
    /// How many octets are left after the last packet of a service data unit.
    pub tail: u32,
}

impl Model for TcFound {
    ghost use Rattle.sl_engine.specs.Kind.Tc.{TcFinding};
    ghost use Rattle.sl_engine.specs.Kind.FoundModel.{tc_finding, tc_inside};

    ghost Value = { TcFinding };

    ghost view = { tc_finding };

    ghost inverse = { tc_inside };
}

impl Followed for Receiver {
    ghost use Rattle.std.specs.Prelude.{refl};
    ghost use Rattle.sl_tcflow.specs.Receiver.{HasProcessed};
    ghost use Rattle.sl_engine.specs.Kind.Tc.{HasProcessedTc, tc_found, tc_kind};
    ghost use Rattle.sl_engine.specs.Link.Managed.{reception_of};

    type Framer = TcFramer;

    type Found = Result<TcFound, TcSkip>;

    ghost kind = { tc_kind };

    ghost has_processed = { λ receiver p frames.
        HasProcessedTc p (HasProcessed (reception_of p) receiver) frames };

    ghost found = { tc_found };

    ghost within = { λ receiver p frames processed. processed.within };

    ghost frames = { λ p. refl };
}

impl Followed for UnitCounter {
    ghost use Rattle.std.specs.Prelude.{refl};
    ghost use Rattle.sl_tcflow.specs.UnitCounter.{HasCounted};
    ghost use Rattle.sl_engine.specs.Kind.Tc.{HasProcessedTc, tc_found, tc_kind};
    ghost use Rattle.sl_engine.specs.Link.Managed.{reception_of};

    type Framer = TcFramer;

    type Found = Result<TcFound, TcSkip>;

    ghost kind = { tc_kind };

    ghost has_processed = { λ counter p frames.
        HasProcessedTc p (HasCounted (reception_of p) counter) frames };

    ghost found = { tc_found };

    ghost within = { λ counter p frames processed. processed.within };

    ghost frames = { λ p. refl };
}

impl Deliverer for Receiver {
    ghost use Rattle.sl_engine.specs.Kind.Tc.{IsIncompleteAtLastTc};

    ghost is_incomplete_at_last = { IsIncompleteAtLastTc };

    fn begin(alloc: Global, managed: &Managed) -> Receiver {
        Receiver::new(alloc, managed.window, &managed.starts, managed.plain)
    }

    fn deliver<S: PacketSink>(
        &mut self,
        managed: &Managed,
        frame: &[u8],
        sink: &mut S,
    ) -> Result<(FrameReport, Result<TcFound, TcSkip>), FlowFault> {
        let view = match TcFrame::read(&managed.tc, managed.spacecraft, frame) {
            Ok(view) => view,
            Err(reason) => return Ok((SKIPPED, Err(reason))),
        };
        // A `match`, as for TM frames: with `?` each clause would need a proof of its own.
        let step = match self.frame(&view, sink) {
            Ok(step) => step,
            Err(fault) => return Err(fault),
        };
        Ok(report_of(&view, &step))
    }
}

impl Counter for UnitCounter {
    ghost use Rattle.sl_engine.specs.Kind.Tc.{IsIncompleteAtLastTc};

    ghost may_refuse_memory = { IsIncompleteAtLastTc };

    fn begin(alloc: Global, managed: &Managed) -> UnitCounter {
        UnitCounter::new(alloc, managed.window, &managed.starts, managed.plain)
    }

    fn count(
        &mut self,
        managed: &Managed,
        frame: &[u8],
    ) -> Result<(FrameReport, Result<TcFound, TcSkip>), FlowFault> {
        let view = match TcFrame::read(&managed.tc, managed.spacecraft, frame) {
            Ok(view) => view,
            Err(reason) => return Ok((SKIPPED, Err(reason))),
        };
        let step = match self.frame(&view) {
            Ok(step) => step,
            Err(_) => return Err(FlowFault::Memory),
        };
        Ok(report_of(&view, &step))
    }
}

// The report on a frame that is read, and what is found of it, by the step that the frame brought.
#[inline(always)]
fn report_of(view: &TcFrame, step: &TcStep) -> (FrameReport, Result<TcFound, TcSkip>)
    ensures is_read { result.0.is_skipped ≡ false }
    ensures packets { result.0.packets ≡ step.now.packets }
    ensures idle { result.0.idle ≡ step.now.idle }
    ensures found { result.1 ≡ Ok (finding_of view.now step.now) }
{
    let found = TcFound {
        vc: view.vc(),
        map: step.map(),
        ns: content_ns(view.content()),
        verdict: step.verdict(),
        stray: step.stray(),
        dropped: step.dropped(),
        long: step.long(),
        tail: step.tail(),
    };
    let report = FrameReport {
        is_skipped: false,
        packets: step.packets(),
        idle: step.idle(),
    };
    (report, Ok(found))
}

// N(S), in a frame of type AD.
fn content_ns(carried: TcContent) -> Option<u8>
    ensures { result ≡ content_ns (content carried.entry) }
{
    match carried {
        TcContent::Ad { ns, .. } => Some(ns),
        TcContent::Bd { .. } | TcContent::Unlock | TcContent::SetVr(_) => None,
    }
}
