//! The order of frames by their numbers.
use crate::order::marks::{Mark, Numbered, step};
use crate::order::recording::{Recording, are_near};
use crate::order::stretch::Stretch;
use crate::order::taken::Left;
use sl_merge::Fate;
use std::alloc::AllocError;

/// Two recordings, of which frames are merged.
#[derive(Clone, Copy)]
pub struct Both<'a> {
    pub one: Recording<'a>,
    pub other: Recording<'a>,
}

impl<'a> Both<'a> {
    /// Whether two frames have the same octets.
    pub fn are_same(&self, first: u32, second: u32) -> bool {
        self.one.frame(first) == self.other.frame(second)
    }

    /// Whether two frames may be copies of one frame, which were damaged: without error control
    /// field, nearly equal octets.
    pub fn are_copies(&self, first: u32, second: u32) -> bool {
        !self.one.fecf() && are_near(self.one.frame(first), self.other.frame(second))
    }
}

/// Puts the frames of two recordings on one channel in the order of their numbers, into `fates`.
/// Answers whether the frames allow it: those of one number are one frame or its copies, and the
/// brackets rise.
pub fn order_by_number(
    both: &Both<'_>,
    mut firsts: Numbered<'_>,
    mut seconds: Numbered<'_>,
    fates: &mut Vec<Fate>,
) -> Result<bool, AllocError> {
    fates.clear();
    let mut bracket = 0u32;
    for _ in 0..u64::MAX {
        let first = firsts.next_frame();
        let second = seconds.next_frame();
        if first.is_none() && second.is_none() {
            return Ok(true);
        }
        let Some((fate, reached)) = next_fate(both, first, second) else {
            return Ok(false);
        };
        if reached < bracket {
            return Ok(false);
        }
        bracket = reached;
        fates.push(fate)?;
        if fate.is_of_first() {
            firsts.pass();
        }
        if fate.turned().is_of_first() {
            seconds.pass();
        }
    }
    Ok(false)
}

// The fate of the frame with the least number, or of both, and its bracket. None where two frames
// of one number are neither the same nor copies.
fn next_fate(
    both: &Both<'_>,
    first: Option<(Mark, i64)>,
    second: Option<(Mark, i64)>,
) -> Option<(Fate, u32)> {
    match (first, second) {
        (None, None) => None,
        (Some((mark, _)), None) => Some((Fate::First, mark.bracket)),
        (None, Some((mark, _))) => Some((Fate::Second, mark.bracket)),
        (Some((one, first)), Some((other, second))) => {
            if first < second {
                Some((Fate::First, one.bracket))
            } else if second < first {
                Some((Fate::Second, other.bracket))
            } else {
                fate_of_same(both, &one, &other)
            }
        }
    }
}

// The fate of two frames of one number: none where they are neither the same nor copies.
fn fate_of_same(both: &Both<'_>, one: &Mark, other: &Mark) -> Option<(Fate, u32)> {
    if one.bracket != other.bracket {
        return None;
    }
    if both.are_same(one.place, other.place) {
        return Some((Fate::Both, one.bracket));
    }
    if both.are_copies(one.place, other.place) {
        return Some((fate_of_copies(both, one.place, other.place), one.bracket));
    }
    None
}

// The fate of two copies of one frame: the one stands whose header looks less damaged, or else the
// first.
fn fate_of_copies(both: &Both<'_>, first: u32, second: u32) -> Fate {
    if damage(&both.other, second) < damage(&both.one, first) {
        Fate::FirstLeftOut
    } else {
        Fate::SecondLeftOut
    }
}

// How much of the header of a frame looks damaged: its master channel frame count, where it isn't
// between those of the frames around it, and its data field status.
fn damage(recording: &Recording<'_>, place: u32) -> u8 {
    let before = place
        .checked_sub(1)
        .and_then(|before| recording.mc_count(before));
    let after = recording.mc_count(place.saturating_add(1));
    let is_between = match (before, recording.mc_count(place), after) {
        (Some(before), Some(count), Some(after)) => step(before, count) <= step(before, after),
        _ => true,
    };
    u8::from(!is_between).saturating_add(u8::from(!recording.has_status(place)))
}

/// Puts the frames of a stretch in the order of their positions, into `fates`.
pub fn order_by_position(
    both: &Both<'_>,
    stretch: &Stretch<'_>,
    fates: &mut Vec<Fate>,
) -> Result<(), AllocError> {
    fates.clear();
    let keeps_first = stretch.has_first_more();
    let mut left = Left::of(stretch);
    for _ in 0..u64::MAX {
        let fate = match (left.firsts.first(), left.seconds.first()) {
            (None, None) => break,
            (Some(_), None) => Fate::First,
            (None, Some(_)) => Fate::Second,
            (Some(one), Some(other)) => fate_by_position(both, one, other, keeps_first),
        };
        fates.push(fate)?;
        left.take(fate);
    }
    Ok(())
}

/// Puts the frames of a stretch in the order of their brackets, into `fates`: of one bracket those
/// of one recording, which `earlier` names, before the other's.
pub fn order_by_bracket(
    stretch: &Stretch<'_>,
    earlier: Fate,
    fates: &mut Vec<Fate>,
) -> Result<(), AllocError> {
    fates.clear();
    let mut left = Left::of(stretch);
    for _ in 0..u64::MAX {
        let fate = match (left.firsts.first(), left.seconds.first()) {
            (None, None) => break,
            (Some(_), None) => Fate::First,
            (None, Some(_)) => Fate::Second,
            (Some(one), Some(other)) if one.bracket < other.bracket => Fate::First,
            (Some(one), Some(other)) if other.bracket < one.bracket => Fate::Second,
            (Some(_), Some(_)) => earlier,
        };
        fates.push(fate)?;
        left.take(fate);
    }
    Ok(())
}

// The fate of the sooner one of two frames, by their positions, or of both. Of two copies whose
// counts differ the first one stands if `keeps_first` is set.
fn fate_by_position(both: &Both<'_>, one: &Mark, other: &Mark, keeps_first: bool) -> Fate {
    let first = (one.bracket, one.position);
    let second = (other.bracket, other.position);
    if second < first {
        Fate::Second
    } else if first < second {
        Fate::First
    } else if both.are_same(one.place, other.place) {
        Fate::Both
    } else if !both.are_copies(one.place, other.place) {
        Fate::First
    } else if one.count == other.count {
        fate_of_copies(both, one.place, other.place)
    } else if keeps_first {
        Fate::SecondLeftOut
    } else {
        Fate::FirstLeftOut
    }
}
