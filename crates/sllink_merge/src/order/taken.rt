//! The frames that fates take.
use crate::order::marks::Mark;
use crate::order::numbers::Both;
use crate::order::stretch::Stretch;
use sl_merge::Fate;
use std::alloc::AllocError;

/// The frames of a stretch that weren't taken yet.
#[derive(Clone, Copy)]
pub struct Left<'a> {
    pub firsts: &'a [Mark],
    pub seconds: &'a [Mark],
}

/// The frames that a fate takes.
#[derive(Clone, Copy)]
pub struct Taken {
    pub first: Option<Mark>,
    pub second: Option<Mark>,
}

impl<'a> Left<'a> {
    /// All frames of a stretch.
    pub fn of(stretch: &Stretch<'a>) -> Left<'a> {
        Left {
            firsts: stretch.firsts,
            seconds: stretch.seconds,
        }
    }

    /// Takes the frames that a fate names.
    pub fn take(&mut self, fate: Fate) -> Taken {
        let mut taken = Taken {
            first: None,
            second: None,
        };
        if fate.is_of_first() {
            if let Some((mark, later)) = self.firsts.split_first() {
                taken.first = Some(*mark);
                self.firsts = later;
            }
        }
        if fate.turned().is_of_first() {
            if let Some((mark, later)) = self.seconds.split_first() {
                taken.second = Some(*mark);
                self.seconds = later;
            }
        }
        taken
    }
}

/// The count of the last frame of an order that stands.
pub fn last_count(stretch: &Stretch<'_>, order: &[Fate]) -> Option<u8> {
    let mut left = Left::of(stretch);
    let mut last = None;
    for fate in order {
        let taken = left.take(*fate);
        match *fate {
            Fate::Both | Fate::First => last = taken.first,
            Fate::Second => last = taken.second,
            Fate::FirstLeftOut | Fate::SecondLeftOut => {}
        }
    }
    last.map(|mark| mark.count)
}

/// Adds one fate several times.
pub fn push_times(fates: &mut Vec<Fate>, fate: Fate, count: usize) -> Result<(), AllocError> {
    for _ in 0..count {
        fates.push(fate)?;
    }
    Ok(())
}

/// Whether two orders of a stretch make the same frames of it, by their octets.
pub fn make_same(both: &Both<'_>, stretch: &Stretch<'_>, one: &[Fate], other: &[Fate]) -> bool {
    if one.len() != other.len() {
        return false;
    }
    let mut lefts = (Left::of(stretch), Left::of(stretch));
    for (fate, counterpart) in one.iter().zip(other) {
        let taken = lefts.0.take(*fate);
        let replaced = lefts.1.take(*counterpart);
        if octets_of(both, taken) != octets_of(both, replaced) {
            return false;
        }
    }
    true
}

/// Whether the positions rise in an order of a stretch, and are equal where a frame is taken from
/// both recordings.
pub fn agrees_with_positions(stretch: &Stretch<'_>, order: &[Fate]) -> bool {
    let mut left = Left::of(stretch);
    let mut last = (0u32, 0u32);
    for fate in order {
        let taken = left.take(*fate);
        for mark in [taken.first, taken.second].iter().flatten() {
            let place = (mark.bracket, mark.position);
            if place < last {
                return false;
            }
            last = place;
        }
    }
    true
}

/// Whether an idle frame of a stretch is taken from both recordings.
pub fn have_common_idle(both: &Both<'_>, stretch: &Stretch<'_>, fates: &[Fate]) -> bool {
    let mut left = Left::of(stretch);
    for fate in fates {
        if let Taken {
            first: Some(first),
            second: Some(_),
        } = left.take(*fate)
        {
            if both.one.is_idle(first.place) {
                return true;
            }
        }
    }
    false
}

// The octets of the frame that is taken; of both the first recording's.
fn octets_of<'a>(both: &Both<'a>, taken: Taken) -> &'a [u8] {
    match (taken.first, taken.second) {
        (Some(first), _) => both.one.frame(first.place),
        (None, Some(second)) => both.other.frame(second.place),
        (None, None) => &[],
    }
}
