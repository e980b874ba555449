//! Where a recording may have lost 256 frames of a channel in a row, or more.
use crate::order::marks::{Ends, Mark, NO_OUTAGE, Outage, step, width};
use std::alloc::{AllocError, Global};

/// In how many gaps of each recording an outage is looked for, so that the time stays linear.
const TRIED: usize = 8;

/// How many times 256 frames are tried between the beginnings of two recordings.
const TURNS: u8 = 9;

/// How much less likely an outage is than none: as a loss of 127 frames.
const OUTAGE: u64 = 1 << 14;

/// A gap between two frames of a recording: how many frames came before it, and its step.
#[derive(Clone, Copy)]
struct Gap {
    before: usize,
    step: u16,
}

/// One way to number the frames of both recordings: an outage in one of them, or in both. It is the
/// likelier, the greater its weight is.
#[derive(Clone, Copy)]
pub struct Way {
    pub first: Outage,
    pub second: Outage,
    pub weight: u64,
}

/// The ways to number frames of a channel between two places of one order, the likeliest first.
pub fn ways(
    alloc: Global,
    firsts: &[Mark],
    seconds: &[Mark],
    ends: Ends,
) -> Result<Vec<Way>, AllocError> {
    if ends.left.is_none() && ends.right.is_none() {
        return turns(alloc);
    }
    let first_gaps = widest_gaps(alloc, firsts, ends)?;
    let second_gaps = widest_gaps(alloc, seconds, ends)?;
    let gaps = (first_gaps.as_slice(), second_gaps.as_slice());
    let mut ways = Vec::new(alloc);
    match (ends.left, ends.right) {
        (Some(left), Some(right)) => {
            let widths = (width(firsts, left, right), width(seconds, left, right));
            let far = far_from(widths.0.max(widths.1), firsts, seconds);
            push_between(&mut ways, gaps, widths, far)?;
        }
        _ => push_at_end(&mut ways, gaps, far_from(0, firsts, seconds))?,
    }
    ways.sort_by_key(|way| u64::MAX - way.weight)?;
    Ok(ways)
}

// Ways between two frames, which are so far apart by the counts of the first recording and of the
// second one.
fn push_between(
    ways: &mut Vec<Way>,
    (firsts, seconds): (&[Gap], &[Gap]),
    (one, other): (i64, i64),
    far: i64,
) -> Result<(), AllocError> {
    if one < other {
        push_first(ways, firsts, other.wrapping_sub(one))?;
    }
    if other < one {
        push_second(ways, seconds, one.wrapping_sub(other))?;
    }
    let lost = (far.wrapping_sub(one), far.wrapping_sub(other));
    push_both(ways, firsts, seconds, lost)
}

// Ways where there is no frame on one side.
fn push_at_end(
    ways: &mut Vec<Way>,
    (firsts, seconds): (&[Gap], &[Gap]),
    far: i64,
) -> Result<(), AllocError> {
    let farther = far.wrapping_add(far);
    push_first(ways, firsts, far)?;
    push_second(ways, seconds, far)?;
    push_both(ways, firsts, seconds, (far, farther))?;
    push_both(ways, firsts, seconds, (farther, far))
}

// The ways to number frames with nothing around them: the second recording begins so many times 256
// frames away from where it begins by the nearest way round.
fn turns(alloc: Global) -> Result<Vec<Way>, AllocError> {
    let mut ways = Vec::new(alloc);
    for turn in 0..TURNS {
        let lost = i64::from(turn).wrapping_mul(256);
        for lost in [lost, 0i64.wrapping_sub(lost)] {
            ways.push(Way {
                first: NO_OUTAGE,
                second: Outage { before: 0, lost },
                weight: OUTAGE,
            })?;
        }
    }
    Ok(ways)
}

// Ways with an outage in the first recording.
fn push_first(ways: &mut Vec<Way>, gaps: &[Gap], lost: i64) -> Result<(), AllocError> {
    for gap in gaps {
        ways.push(Way {
            first: outage_at(gap, lost),
            second: NO_OUTAGE,
            weight: squared(gap).saturating_mul(OUTAGE),
        })?;
    }
    Ok(())
}

// Ways with an outage in the second recording.
fn push_second(ways: &mut Vec<Way>, gaps: &[Gap], lost: i64) -> Result<(), AllocError> {
    for gap in gaps {
        ways.push(Way {
            first: NO_OUTAGE,
            second: outage_at(gap, lost),
            weight: squared(gap).saturating_mul(OUTAGE),
        })?;
    }
    Ok(())
}

// Ways with an outage in both.
fn push_both(
    ways: &mut Vec<Way>,
    firsts: &[Gap],
    seconds: &[Gap],
    lost: (i64, i64),
) -> Result<(), AllocError> {
    for first in firsts {
        for second in seconds {
            ways.push(Way {
                first: outage_at(first, lost.0),
                second: outage_at(second, lost.1),
                weight: squared(first).saturating_mul(squared(second)),
            })?;
        }
    }
    Ok(())
}

fn outage_at(gap: &Gap, lost: i64) -> Outage {
    Outage {
        before: gap.before,
        lost,
    }
}

fn squared(gap: &Gap) -> u64 {
    u64::from(gap.step).saturating_mul(u64::from(gap.step))
}

// A number of frames beyond all that these frames reach by their counts, as far from a multiple of
// 256 as `width` is.
fn far_from(width: i64, firsts: &[Mark], seconds: &[Mark]) -> i64 {
    let frames = firsts.len().saturating_add(seconds.len()).saturating_add(2);
    let reach = i64::try_from(frames)
        .unwrap_or(i64::MAX)
        .saturating_mul(512);
    let far = reach.max(width);
    (far - far % 256)
        .saturating_add(512)
        .saturating_add(width % 256)
}

// The gaps with the largest steps, the largest first.
fn widest_gaps(alloc: Global, marks: &[Mark], ends: Ends) -> Result<Vec<Gap>, AllocError> {
    let mut gaps = Vec::new(alloc);
    let mut last = Gap {
        before: 0,
        step: u16::MAX,
    };
    for _ in 0..TRIED {
        let Some(gap) = widest_gap_after(marks, ends, &last) else {
            break;
        };
        gaps.push(gap)?;
        last = gap;
    }
    Ok(gaps)
}

// The widest gap that isn't as wide as `last`, or as wide and lies behind it.
fn widest_gap_after(marks: &[Mark], ends: Ends, last: &Gap) -> Option<Gap> {
    let mut widest = None;
    let mut left = ends.left;
    let mut before = 0usize;
    for mark in marks {
        widest = wider(widest, gap_between(left, Some(mark.count), before), last);
        left = Some(mark.count);
        before = before.saturating_add(1);
    }
    wider(widest, gap_between(left, ends.right, before), last)
}

// The gap between two frames, where both are there and frames were lost.
fn gap_between(left: Option<u8>, right: Option<u8>, before: usize) -> Option<Gap> {
    let step = step(left?, right?);
    if step == 1 {
        None
    } else {
        Some(Gap { before, step })
    }
}

// The wider gap; of `gap` only if it comes after `last`.
fn wider(widest: Option<Gap>, gap: Option<Gap>, last: &Gap) -> Option<Gap> {
    let Some(gap) = gap else {
        return widest;
    };
    if !comes_after(&gap, last) {
        return widest;
    }
    match widest {
        Some(widest) if widest.step >= gap.step => Some(widest),
        _ => Some(gap),
    }
}

fn comes_after(gap: &Gap, last: &Gap) -> bool {
    gap.step < last.step || gap.step == last.step && gap.before > last.before
}
