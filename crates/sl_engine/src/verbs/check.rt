//! The anomalies of a recording as lines.
ghost use Rattle.std.specs.Prelude.{◌≡◌, ◌≤◌, ◌++◌, [], length, flat_map, IfOk, IfErr, OnErr, OnOk};
ghost use Rattle.std.specs.List.{concat};
ghost use Rattle.sl_engine.specs.Io.Output.{Adds, KeepsWriter};
ghost use Rattle.sl_engine.specs.Io.Streams.{StopsWriting};
ghost use Rattle.sl_engine.specs.Link.Managed.{Parameters};
ghost use Rattle.sl_engine.specs.Verbs.Check.Checking.{HasChecked};
ghost use Rattle.sl_engine.specs.Verbs.Check.Lines.{anomalies_by};
ghost use Rattle.sl_engine.specs.Verbs.Listing.{Frames};

pub mod checked;
mod lines;
mod lines_tc;
mod lines_tm;

use crate::io::output::{Output, Written};
use crate::link::managed::Managed;
use crate::link::totals::Totals;
use crate::verbs::Verb;
use crate::verbs::check::checked::AnomalyLines;
use crate::verbs::check::lines::{push_totals, remainder_lines};
use sl_io::LinkFault;
use std::alloc::Global;
use std::io::Write;

/// Lists the anomalies of the frames, and those after them.
#[derive(Drop)]
pub struct Check<D: AnomalyLines> {
    counter: D,
    so_far: Totals,
}

impl<D: AnomalyLines> Check<D> {
    /// No frame has been checked.
    pub fn begin(alloc: Global, managed: &Managed) -> Check<D>
        ensures { HasChecked (D.kind managed.now) (anomalies_by D.lines_of (D.found managed.now))
            (D.has_processed result.counter managed.now) [] result.so_far }
    {
        Check {
            counter: D::begin(alloc, managed),
            so_far: Totals::none(),
        }
    }
}

impl<D: AnomalyLines> Verb for Check<D> {
    ghost use Rattle.sl_engine.specs.Verbs.Check.Checking.{HasChecked};
    ghost use Rattle.sl_engine.specs.Verbs.Check.Lines.{anomalies_by, check_listing};

    type Framer = D::Framer;

    ghost listing = { λ p. check_listing (D.kind p) (anomalies_by D.lines_of (D.found p))
        (D.open_at p) };

    ghost has_listed = { λ verb p frames. HasChecked (D.kind p)
        (anomalies_by D.lines_of (D.found p)) (D.has_processed verb.counter p) frames
        verb.so_far };

    ghost may_refuse_memory = { D.may_refuse_memory };

    fn frame<W: Write>(&mut self, managed: &Managed, frame: &[u8], out: &mut Output<W>) -> Written {
        out.make_room()?;
        let (report, found) = self.counter.count(managed, frame)?;
        let anomalies = D::anomaly_lines(&mut out.lines, self.so_far.octets(), found);
        self.so_far.add(frame.len() as u64, report);
        self.so_far.add_anomalies(anomalies);
        Ok(())
    }

    fn finish<W: Write>(
        &self,
        _managed: &Managed,
        octets: u64,
        out: &mut Output<W>,
    ) -> Result<Totals, LinkFault> {
        out.make_room()?;
        let offset = self.so_far.octets();
        let remainder = octets - offset;
        let remainders = remainder_lines(&mut out.lines, offset, remainder);
        let incomplete = incomplete_lines(&self.counter, octets, out)?;
        out.make_room()?;
        let totals = self
            .so_far
            .with_remainder(remainder, remainders + incomplete);
        push_totals(&mut out.lines, &totals);
        Ok(totals)
    }
}

// Adds the lines of what is incomplete at the end of a recording, at `offset`, and answers how many
// these are.
fn incomplete_lines<D: AnomalyLines, W: Write>(
    counter: &D,
    offset: u64,
    out: &mut Output<W>,
) -> Result<u64, LinkFault>
    ensures lines { OnOk result ((p : Parameters) (frames : Frames)
        → D.has_processed counter.now p frames → Adds W.contents out.old
        (concat (flat_map (D.open_at p offset frames) (D.kind p).channels)) out.new) }
    ensures number { IfOk result (λ number. (p : Parameters) (frames : Frames)
        → D.has_processed counter.now p frames
        → number ≡ length (flat_map (D.open_at p offset frames) (D.kind p).channels)) }
    // One line at most for each channel below `open_below`, a `u16`: so the caller's sum fits.
    ensures most { IfOk result (λ number. number ≤ 65535) }
    ensures few { IfOk result (λ number. (p : Parameters) (frames : Frames)
        → D.has_processed counter.now p frames → number ≤ length frames) }
    ensures lent { OnErr result (KeepsWriter out.old out.new) }
    ensures fault { IfErr result (λ fault. (p : Parameters) (frames : Frames)
        → D.has_processed counter.now p frames
        → StopsWriting W.contents out.old.writer.now out.new.writer.now (out.old.lines
        ++ concat (flat_map (D.open_at p offset frames) (D.kind p).channels)) ⊥ fault) }
{
    let mut number: u64 = 0;
    for channel in 0..counter.open_below() {
        out.make_room()?;
        number += counter.open_lines(offset, channel, &mut out.lines);
    }
    Ok(number)
}
