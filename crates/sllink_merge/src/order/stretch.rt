//! Frames of both recordings on one channel of which nothing but the counts shows the order.
use crate::order::marks::{Ends, Mark, NO_OUTAGE, Numbered, Outage, step, width};
use crate::order::numbers::{Both, order_by_number};
use crate::order::taken::{agrees_with_positions, have_common_idle, make_same};
use crate::order::ways::{Way, ways};
use sl_merge::Fate;
use std::alloc::{AllocError, Global};
use std::mem;

/// How many times as likely as the next way the likeliest one is, where it isn't a guess.
const CLEARLY: u64 = 32;

/// Frames of both recordings on one channel, each recording's in its order, and the counts around
/// them.
#[derive(Clone, Copy)]
pub struct Stretch<'a> {
    pub firsts: &'a [Mark],
    pub seconds: &'a [Mark],
    pub ends: Ends,
}

impl Stretch<'_> {
    /// Whether there is no frame before these frames, or none behind them.
    pub fn has_open_end(&self) -> bool {
        self.ends.left.is_none() || self.ends.right.is_none()
    }

    /// Whether the first recording has more frames, or as many that lost fewer.
    pub fn has_first_more(&self) -> bool {
        let (firsts, seconds) = (self.firsts.len(), self.seconds.len());
        if firsts != seconds {
            return firsts > seconds;
        }
        match (self.ends.left, self.ends.right) {
            (Some(left), Some(right)) => {
                width(self.firsts, left, right) <= width(self.seconds, left, right)
            }
            _ => true,
        }
    }

    // Whether there is no frame around them.
    fn has_no_end(&self) -> bool {
        self.ends.left.is_none() && self.ends.right.is_none()
    }
}

/// What is known of an order.
#[derive(Clone, Copy)]
pub enum Known {
    /// The counts tell it.
    Sure,
    /// The counts tell it, but for which of some equal idle frames are the same.
    Idle,
    /// One lost 256 frames in a row or more, and the frames leave one way, or one is clearly the
    /// likeliest.
    Outage,
    /// There are several ways, and the likeliest is found; or there is an open end, at which counts
    /// and positions differ, and the order of the counts is.
    Open,
    /// No way fits the frames.
    Undecided,
}

/// Finds an order of the frames, into `fates`.
pub fn order_stretch(
    alloc: Global,
    both: &Both<'_>,
    stretch: &Stretch<'_>,
    fates: &mut Vec<Fate>,
) -> Result<Known, AllocError> {
    if let Some(width) = known_width(stretch) {
        if order_by_outages(both, stretch, (NO_OUTAGE, NO_OUTAGE), fates)? {
            return Ok(known_by_counts(both, stretch, width, fates));
        }
    }
    order_around_outage(alloc, both, stretch, fates)
}

// What is known of an order that the counts tell where the ends are so far apart.
fn known_by_counts(both: &Both<'_>, stretch: &Stretch<'_>, width: i64, fates: &[Fate]) -> Known {
    if stretch.has_open_end() && !agrees_with_positions(stretch, fates) {
        return Known::Open;
    }
    let is_blind = width > 256 || stretch.has_open_end();
    if is_blind && have_common_idle(both, stretch, fates) {
        return Known::Idle;
    }
    Known::Sure
}

// How far the ends are apart, unless the counts don't tell how the recordings stand to each other:
// they say different distances, or there is no frame around the frames, and these are far apart.
fn known_width(stretch: &Stretch<'_>) -> Option<i64> {
    if stretch.has_no_end() && !is_near(stretch) {
        return None;
    }
    common_width(stretch)
}

// How far the ends are apart, where the counts of both recordings say the same; 0 where there is no
// frame on one side.
fn common_width(stretch: &Stretch<'_>) -> Option<i64> {
    let (Some(left), Some(right)) = (stretch.ends.left, stretch.ends.right) else {
        return Some(0);
    };
    let first = width(stretch.firsts, left, right);
    if first == width(stretch.seconds, left, right) {
        Some(first)
    } else {
        None
    }
}

// The frames of the first recording, numbered.
fn number_firsts<'a>(stretch: &Stretch<'a>, outage: Outage) -> Numbered<'a> {
    let number = first_number(stretch.firsts, stretch.ends, outage);
    Numbered::new(stretch.firsts, number, outage)
}

// The frames of the second recording, numbered.
fn number_seconds<'a>(stretch: &Stretch<'a>, outage: Outage) -> Numbered<'a> {
    let number = if stretch.has_no_end() {
        distance(stretch.firsts, stretch.seconds)
    } else {
        first_number(stretch.seconds, stretch.ends, outage)
    };
    Numbered::new(stretch.seconds, number, outage)
}

// The number of the first of these frames: the frame before them has 0, or where there is none the
// frame after them. Beyond an outage frames are numbered from the other end.
fn first_number(marks: &[Mark], ends: Ends, outage: Outage) -> i64 {
    let Some((first, later)) = marks.split_first() else {
        return 0;
    };
    match (ends.left, ends.right) {
        (Some(left), _) => i64::from(step(left, first.count)),
        (None, Some(right)) => {
            let back = width(later, first.count, right);
            0i64.wrapping_sub(back).wrapping_sub(outage.lost)
        }
        (None, None) => 0,
    }
}

// How many frames later the second recording begins than the first one, by the counts and the
// nearest way round.
fn distance(firsts: &[Mark], seconds: &[Mark]) -> i64 {
    let (Some(first), Some(second)) = (firsts.first(), seconds.first()) else {
        return 0;
    };
    let ahead = i64::from(step(first.count, second.count));
    if ahead > 127 { ahead - 256 } else { ahead }
}

// Whether frames with nothing around them are so near each other that the nearest way round is the
// right one.
fn is_near(stretch: &Stretch<'_>) -> bool {
    let distance = distance(stretch.firsts, stretch.seconds);
    let first = span(stretch.firsts);
    let second = span(stretch.seconds).saturating_add(distance);
    let reach = first.max(second).saturating_sub(distance.min(0));
    distance.abs_diff(0) <= 64 && reach < 128
}

// How far the last frame is from the first one, by the counts.
fn span(marks: &[Mark]) -> i64 {
    match marks.split_first() {
        Some((first, [between @ .., last])) => width(between, first.count, last.count),
        _ => 0,
    }
}

// Finds the order that the counts tell where these outages were, into `fates`. Answers whether the
// frames allow it.
fn order_by_outages(
    both: &Both<'_>,
    stretch: &Stretch<'_>,
    (first, second): (Outage, Outage),
    fates: &mut Vec<Fate>,
) -> Result<bool, AllocError> {
    let firsts = number_firsts(stretch, first);
    let seconds = number_seconds(stretch, second);
    order_by_number(both, firsts, seconds, fates)
}

// Finds the likeliest order where one recording lost 256 frames in a row or more, or both did.
fn order_around_outage(
    alloc: Global,
    both: &Both<'_>,
    stretch: &Stretch<'_>,
    fates: &mut Vec<Fate>,
) -> Result<Known, AllocError> {
    let mut trial = Vec::new(alloc);
    let mut best = None;
    for way in &ways(alloc, stretch.firsts, stretch.seconds, stretch.ends)? {
        if is_clear(best, way) {
            return Ok(Known::Outage);
        }
        if order_by_outages(both, stretch, (way.first, way.second), &mut trial)? {
            if best.is_none() {
                best = Some(*way);
                mem::swap(fates, &mut trial);
            } else if !make_same(both, stretch, fates, trial.as_slice()) {
                return Ok(Known::Open);
            }
        }
    }
    Ok(match best {
        Some(_) => Known::Outage,
        None => Known::Undecided,
    })
}

// Whether the best way is clearly likelier than this one.
fn is_clear(best: Option<Way>, way: &Way) -> bool {
    match best {
        Some(best) => best.weight >= way.weight.saturating_mul(CLEARLY),
        None => false,
    }
}
