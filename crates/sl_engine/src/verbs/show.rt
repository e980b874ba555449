//! The frames of a recording as lines.
ghost use Rattle.std.specs.Prelude.{[]};
ghost use Rattle.sl_engine.specs.Verbs.Show.Shown.{HasShown};

mod clcw_flags;
pub mod lines_tc;
pub mod lines_tm;
mod segment_texts;
pub mod shown;

use crate::io::output::{Output, Written};
use crate::io::words::push_remainder;
use crate::link::managed::Managed;
use crate::link::totals::Totals;
use crate::tally::FrameReport;
use crate::verbs::Verb;
use crate::verbs::show::shown::Shown;
use sl_io::LinkFault;
use std::io::Write;

/// Lists the frames.
#[derive(Drop)]
pub struct Show<S: Shown> {
    so_far: Totals,
    shown: S,
}

impl<S: Shown> Show<S> {
    /// No frame yet.
    pub fn begin(managed: &Managed) -> Show<S>
        ensures { HasShown (S.is_skipped managed.now) (S.has_shown result.shown managed.now) []
            result.so_far }
    {
        Show {
            so_far: Totals::none(),
            shown: S::begin(managed),
        }
    }
}

impl<S: Shown> Verb for Show<S> {
    ghost use Rattle.sl_engine.specs.Verbs.Show.Shown.{HasShown, show_listing};

    type Framer = S::Framer;

    ghost listing = { λ p. show_listing (S.is_skipped p) (S.line p) };

    ghost has_listed = { λ verb p frames. HasShown (S.is_skipped p) (S.has_shown verb.shown p)
        frames verb.so_far };

    ghost may_refuse_memory = { λ p frames. ⊥ };

    fn frame<W: Write>(&mut self, managed: &Managed, frame: &[u8], out: &mut Output<W>) -> Written {
        out.make_room()?;
        out.lines.push_offset(self.so_far.octets());
        let is_skipped = self.shown.show(managed, frame, &mut out.lines);
        let report = FrameReport {
            is_skipped,
            packets: 0,
            idle: 0,
        };
        self.so_far.add(frame.len() as u64, report);
        Ok(())
    }

    fn finish<W: Write>(
        &self,
        _managed: &Managed,
        octets: u64,
        out: &mut Output<W>,
    ) -> Result<Totals, LinkFault> {
        out.make_room()?;
        let offset = self.so_far.octets();
        let remainder = octets - offset;
        if remainder > 0 {
            push_remainder(&mut out.lines, offset, remainder);
        }
        Ok(self.so_far.with_remainder(remainder, 0))
    }
}
