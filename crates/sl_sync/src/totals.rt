//! What is counted of a file.
ghost use Rattle.std.specs.Prelude.{◌≡◌, []};
ghost use Rattle.sl_sync.specs.Totals.{CountsUnit, CountsStray, totals_of};

use crate::units::{Held, Place};

/// What is counted of a file. Each count stops at 2^64 - 1.
#[derive(Drop, Clone, Copy, Debug, PartialEq, Eq)]
pub struct Totals {
    /// Frames, each of which is written.
    pub frames: u64,
    /// Units whose own marker has more wrong bits than it may have.
    pub wrong_markers: u64,
    /// Octets that belong to no unit.
    pub skipped: u64,
    /// Of these, those after which units had to be found again: neither before the first unit, nor
    /// of one that the end of the file cuts, nor between CLTUs.
    pub astray: u64,
    /// Code blocks that are refused, and aren't the tail of their CLTU.
    pub refused_blocks: u64,
    /// Octets of frames that a CLTU hasn't whole.
    pub cut: u64,
}

impl Totals {
    /// No counts yet.
    pub(crate) fn none() -> Totals
        ensures { result ≡ totals_of [] }
    {
        Totals {
            frames: 0,
            wrong_markers: 0,
            skipped: 0,
            astray: 0,
            refused_blocks: 0,
            cut: 0,
        }
    }

    /// The counts with those of a unit.
    pub(crate) fn with_unit(self, held: Held) -> Totals
        ensures { CountsUnit self held result }
    {
        Totals {
            frames: self.frames.saturating_add(held.frames),
            wrong_markers: self.wrong_markers.saturating_add(u64::from(!held.marked)),
            skipped: self.skipped,
            astray: self.astray,
            refused_blocks: self.refused_blocks.saturating_add(u64::from(held.refused)),
            cut: self.cut.saturating_add(held.cut),
        }
    }

    /// The counts with a number of stray octets, each with this place behind it.
    pub(crate) fn with_stray(self, place: Place, count: usize) -> Totals
        ensures { CountsStray self place count result }
    {
        let astray = if matches!(place, Place::Astray) {
            count
        } else {
            0
        };
        Totals {
            frames: self.frames,
            wrong_markers: self.wrong_markers,
            skipped: self.skipped.saturating_add(count as u64),
            astray: self.astray.saturating_add(astray as u64),
            refused_blocks: self.refused_blocks,
            cut: self.cut,
        }
    }
}
