//! Frames amid a run of the other recording, which have a damaged count or virtual channel.
use crate::order::marks::Mark;
use crate::order::taken::Left;
use sl_merge::Fate;
use std::alloc::{AllocError, Global};

/// So many frames at most are taken for damaged ones.
const FEW: usize = 8;

/// Leaves out a few frames of one recording alone that stand between two of the other whose counts
/// follow, and returns in how many places. It is for frames without an error control field.
pub fn leave_misplaced(
    alloc: Global,
    firsts: &[Mark],
    seconds: &[Mark],
    order: &mut [Fate],
) -> Result<u64, AllocError> {
    let counts = counts_of(alloc, firsts, seconds, order)?;
    let seconds_left = leave_out(order, &counts, false);
    let firsts_left = leave_out(order, &counts, true);
    Ok(firsts_left.saturating_add(seconds_left))
}

// The counts of the frames in order.
fn counts_of(
    alloc: Global,
    firsts: &[Mark],
    seconds: &[Mark],
    order: &[Fate],
) -> Result<Vec<u8>, AllocError> {
    let mut left = Left { firsts, seconds };
    let mut counts = Vec::with_capacity(alloc, order.len())?;
    for fate in order {
        let taken = left.take(*fate);
        let mark = taken.first.or(taken.second);
        counts.push(mark.map_or(0, |mark| mark.count))?;
    }
    Ok(counts)
}

// A fate, or with `is_turned` the fate with the recordings exchanged.
fn from_side(fate: Fate, is_turned: bool) -> Fate {
    if is_turned { fate.turned() } else { fate }
}

// Leaves out frames of the second recording alone amid runs of the first one, or with `is_turned`
// the other way round.
fn leave_out(order: &mut [Fate], counts: &[u8], is_turned: bool) -> u64 {
    let mut last = None;
    let mut begin = 0usize;
    let mut between = 0usize;
    let mut left = 0u64;
    for (at, count) in counts.iter().enumerate() {
        let fate = match order.get(at) {
            Some(fate) => from_side(*fate, is_turned),
            None => Fate::SecondLeftOut,
        };
        match fate {
            Fate::Both | Fate::First => {
                if 0 < between && between <= FEW && last == Some(count.wrapping_sub(1)) {
                    leave_seconds(order, begin, at, is_turned);
                    left = left.saturating_add(1);
                }
                last = Some(*count);
                begin = at;
                between = 0;
            }
            Fate::Second => between = between.saturating_add(1),
            Fate::FirstLeftOut | Fate::SecondLeftOut => {}
        }
    }
    left
}

// Leaves out the frames of the second recording alone from one place to another.
fn leave_seconds(order: &mut [Fate], begin: usize, end: usize, is_turned: bool) {
    for fate in order.iter_mut().take(end).skip(begin) {
        if from_side(*fate, is_turned) == Fate::Second {
            *fate = from_side(Fate::SecondLeftOut, is_turned);
        }
    }
}
