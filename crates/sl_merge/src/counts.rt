//! How many frames have which fate.
ghost use Rattle.std.specs.Prelude.{◌≡◌, ◌+◌, ◌&&◌, IfOk, is_none};
ghost use Rattle.std.specs.List.{count_by};
ghost use Rattle.sl_merge.specs.Counts.{fate_counts, repeats_of};
ghost use Rattle.sl_merge.specs.Fates.{taken_of};
ghost use Rattle.sl_merge.specs.Merge.{is_both, is_first_alone, is_left_out, left_out_of};
ghost use Rattle.sl_merge.specs.Told.{from_side, turn_if};

use crate::channel::{before_after, is_repeat};
use crate::fate::Fate;
use crate::item::{Item, Seen, on_channel, take_frames};
use sl_tmframe::TmShape;
use std::alloc::{AllocError, Global};

/// How many frames of a recording are left out of a merge, by the reason.
#[derive(Clone, Copy, Debug, PartialEq, Eq)]
pub struct LeftOut {
    /// Frames that are skipped: damaged, of another version or of another spacecraft.
    pub skipped: u64,
    /// Frames that are read, and are the one before them on the virtual channel once more.
    pub repeats: u64,
    /// All others: frames of stretches in which the other recording has as many.
    pub stretches: u64,
}

/// How many frames of two recordings have which fate.
#[derive(Clone, Copy, Debug, PartialEq, Eq)]
pub struct FateCounts {
    /// Frames of both recordings, which stand once.
    pub both: u64,
    /// Frames of the first recording alone that stand.
    pub first: u64,
    /// Frames of the second recording alone that stand.
    pub second: u64,
    /// Frames of the first recording that are left out.
    pub first_left_out: LeftOut,
    /// Frames of the second recording that are left out.
    pub second_left_out: LeftOut,
}

/// Counts the frames of two recordings by their fates. It fails only where memory is refused, or
/// where there are 2^64 frames or more.
pub fn count_fates(
    alloc: Global,
    shape: &TmShape,
    spacecraft: u16,
    one: &[u8],
    other: &[u8],
    fates: &[Fate],
) -> Result<FateCounts, AllocError>
    ensures { IfOk result (λ counts. counts ≡ fate_counts shape.now spacecraft
        (taken_of shape.now.len one.now other.now fates.now)) }
{
    let told = take_frames(alloc, shape, spacecraft, one, other, fates)?;
    let mut first_left_out = count_skipped(&told.items, false);
    let mut second_left_out = count_skipped(&told.items, true);
    for vc in 0..8 {
        let channel = on_channel(alloc, &told.items, vc)?;
        first_left_out = first_left_out.plus(&channel, false)?;
        second_left_out = second_left_out.plus(&channel, true)?;
    }
    Ok(FateCounts {
        both: count_both(&told.items),
        first: count_alone(&told.items, false),
        second: count_alone(&told.items, true),
        first_left_out,
        second_left_out,
    })
}

impl LeftOut {
    // The numbers with those of one virtual channel more.
    fn plus(self, channel: &[Item], is_turned: bool) -> Result<LeftOut, AllocError>
        ensures skipped { IfOk result (λ sum. sum.skipped ≡ self.skipped) }
        ensures repeats { IfOk result (λ sum. sum.repeats
            ≡ self.repeats + repeats_of (from_side is_turned channel.now)) }
        ensures stretches { IfOk result (λ sum. sum.stretches
            ≡ self.stretches + left_out_of (from_side is_turned channel.now)) }
    {
        let (repeats, stretches) = count_left_out(channel, is_turned);
        Ok(LeftOut {
            skipped: self.skipped,
            repeats: self.repeats.checked_add(repeats).ok_or(AllocError)?,
            stretches: self.stretches.checked_add(stretches).ok_or(AllocError)?,
        })
    }
}

// How many frames of both recordings stand.
fn count_both(seen: &[Seen]) -> u64
    ensures { result ≡ count_by (λ s. is_both s.item.fate) seen.now }
{
    let mut both = 0;
    for one in seen {
        let fate = one.item.fate();
        if !fate.is_of_first() || !fate.turned().is_of_first() {
            continue;
        }
        both += 1;
    }
    both
}

// How many frames of one recording alone stand.
fn count_alone(seen: &[Seen], is_turned: bool) -> u64
    ensures { result ≡ count_by (λ s. is_first_alone (turn_if is_turned s.item).fate) seen.now }
{
    let mut alone = 0;
    for one in seen {
        if !one.item.from_side(is_turned).fate().is_first_alone() {
            continue;
        }
        alone += 1;
    }
    alone
}

// How many frames of a recording are left out because they are skipped.
fn count_skipped(seen: &[Seen], is_turned: bool) -> LeftOut
    ensures skipped { result.skipped
        ≡ count_by (λ s. is_left_out (turn_if is_turned s.item) && is_none s.vc) seen.now }
    ensures repeats { result.repeats ≡ 0 }
    ensures stretches { result.stretches ≡ 0 }
{
    let mut skipped = 0;
    for one in seen {
        let side = one.item.from_side(is_turned);
        if !side.is_left_out() || one.vc.is_some() {
            continue;
        }
        skipped += 1;
    }
    LeftOut {
        skipped,
        repeats: 0,
        stretches: 0,
    }
}

// How many frames of a recording are left out on a virtual channel: repeats, and others.
fn count_left_out(items: &[Item], is_turned: bool) -> (u64, u64)
    ensures repeats { result.0 ≡ repeats_of (from_side is_turned items.now) }
    ensures stretches { result.1 ≡ left_out_of (from_side is_turned items.now) }
{
    let mut before: &[u8] = &[];
    let mut repeats = 0;
    let mut stretches = 0;
    for item in items {
        let side = item.from_side(is_turned);
        let is_repeat = is_repeat(before, &side);
        before = before_after(before, &side);
        if is_repeat {
            repeats += 1;
            continue;
        }
        if !side.is_left_out() {
            continue;
        }
        stretches += 1;
    }
    (repeats, stretches)
}
