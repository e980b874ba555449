//! The packets of TM frames, delivered by an extractor or counted.
ghost use Rattle.std.specs.Prelude.{◌≡◌, false, Ok};
ghost use Rattle.sl_engine.specs.Kind.Tm.{finding_of, is_opaque};
ghost use Rattle.sl_tmframe.specs.TmField.{as_content};

use crate::kind::{Counter, Deliverer, Followed};
use crate::link::managed::Managed;
use crate::tally::{FrameReport, SKIPPED};
use sl_packet::{FlowFault, PacketSink};
use sl_tmflow::{Extractor, PacketCounter, TmStep};
use sl_tmframe::{TmField, TmFrame, TmFramer, TmSkip};
use std::alloc::Global;
use std::marker::Model;

/// A TM frame that is read, and what an extractor or a counter finds of it.
#[derive(Clone, Copy)]
pub struct TmFound {
    pub vc: u8,
    pub vc_count: u8,
    /// The count that was expected, where the frame has another one.
    pub gap: Option<u8>,
    /// How many octets the packet has that the frame breaks off, and 0 where there is none: an
    /// incomplete packet has one or more.
    pub dropped: u32,
    pub opaque: bool,
    /// Whether octets of another packet version stand at a packet start.
    pub foreign: bool,
}

impl Model for TmFound {
    ghost use Rattle.sl_engine.specs.Kind.Tm.{TmFinding};
    ghost use Rattle.sl_engine.specs.Kind.FoundModel.{tm_finding, tm_inside};

    ghost Value = { TmFinding };

    ghost view = { tm_finding };

    ghost inverse = { tm_inside };
}

impl Followed for Extractor {
    ghost use Rattle.std.specs.Prelude.{refl};
    ghost use Rattle.sl_tmflow.specs.Extractor.{HasProcessed};
    ghost use Rattle.sl_engine.specs.Kind.Tm.{HasProcessedTm, tm_found, tm_kind};

    type Framer = TmFramer;

    type Found = Result<TmFound, TmSkip>;

    ghost kind = { tm_kind };

    ghost has_processed = { λ extractor p frames.
        HasProcessedTm p (HasProcessed extractor) frames };

    ghost found = { tm_found };

    ghost within = { λ extractor p frames processed. processed.within };

    ghost frames = { λ p. refl };
}

impl Followed for PacketCounter {
    ghost use Rattle.std.specs.Prelude.{refl};
    ghost use Rattle.sl_tmflow.specs.Counter.{HasCounted};
    ghost use Rattle.sl_engine.specs.Kind.Tm.{HasProcessedTm, tm_found, tm_kind};

    type Framer = TmFramer;

    type Found = Result<TmFound, TmSkip>;

    ghost kind = { tm_kind };

    ghost has_processed = { λ counter p frames. HasProcessedTm p (HasCounted counter) frames };

    ghost found = { tm_found };

    ghost within = { λ counter p frames processed. processed.within };

    ghost frames = { λ p. refl };
}

impl Deliverer for Extractor {
    ghost use Rattle.sl_engine.specs.Kind.Tm.{IsIncompleteAtLastTm};

    ghost is_incomplete_at_last = { IsIncompleteAtLastTm };

    fn begin(alloc: Global, _managed: &Managed) -> Extractor {
        Extractor::new(alloc)
    }

    fn deliver<S: PacketSink>(
        &mut self,
        managed: &Managed,
        frame: &[u8],
        sink: &mut S,
    ) -> Result<(FrameReport, Result<TmFound, TmSkip>), FlowFault> {
        let view = match TmFrame::read(&managed.tm, managed.spacecraft, frame) {
            Ok(view) => view,
            Err(reason) => return Ok((SKIPPED, Err(reason))),
        };
        // A `match`: at this exit several clauses are owed for each list of earlier
        // frames. With `?` each of these clauses would need a proof that `?` passes the fault up
        // unchanged, as in the functions that call `deliver` (lemma `passed_up` of
        // proofs/lemmas/Link/Answers.antt). With `match` none does.
        let step = match self.frame(&view, sink) {
            Ok(step) => step,
            Err(fault) => return Err(fault),
        };
        Ok(report_of(&view, &step))
    }
}

impl Counter for PacketCounter {
    ghost may_refuse_memory = { λ p frames. ⊥ };

    fn begin(_alloc: Global, _managed: &Managed) -> PacketCounter {
        PacketCounter::new()
    }

    fn count(
        &mut self,
        managed: &Managed,
        frame: &[u8],
    ) -> Result<(FrameReport, Result<TmFound, TmSkip>), FlowFault> {
        let view = match TmFrame::read(&managed.tm, managed.spacecraft, frame) {
            Ok(view) => view,
            Err(reason) => return Ok((SKIPPED, Err(reason))),
        };
        Ok(report_of(&view, &self.frame(&view)))
    }
}

// The report on a frame that is read, and what is found of it, by the step that the frame brought.
#[inline(always)]
fn report_of(view: &TmFrame, step: &TmStep) -> (FrameReport, Result<TmFound, TmSkip>)
    ensures is_read { result.0.is_skipped ≡ false }
    ensures packets { result.0.packets ≡ step.now.packets }
    ensures idle { result.0.idle ≡ step.now.idle }
    ensures found { result.1 ≡ Ok (finding_of view.now step.now) }
{
    let found = TmFound {
        vc: view.vc(),
        vc_count: view.vc_count(),
        gap: step.gap(),
        dropped: step.dropped(),
        opaque: is_opaque(view.field()),
        foreign: step.foreign(),
    };
    let report = FrameReport {
        is_skipped: false,
        packets: step.packets(),
        idle: step.idle(),
    };
    (report, Ok(found))
}

// Whether a frame is opaque. The clause cites the definition of the same name; `entry` is the
// argument as it comes.
fn is_opaque(field: TmField) -> bool
    ensures { result ≡ is_opaque (as_content field.entry) }
{
    match field {
        TmField::Packets { .. } | TmField::Idle => false,
        TmField::Opaque => true,
    }
}
