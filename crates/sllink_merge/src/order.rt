//! How the frames of two recordings of TM transfer frames (CCSDS 132.0-B) stand to each other.
//!
//! [`find_order`] looks for the fates of a merge. What it finds is checked by
//! [`is_merge_tm`](sl_merge::is_merge_tm) and not trusted, so nothing is proved of its functions but
//! that they are safe and return.
mod anchors;
mod channel;
mod choice;
mod copies;
mod lanes;
mod marks;
mod misplaced;
mod numbers;
mod payloads;
mod positions;
mod recording;
mod seen;
mod stretch;
mod taken;
mod ways;
mod weave;

use crate::order::anchors::set_anchors;
use crate::order::choice::Care;
use crate::order::copies::count_copies;
use crate::order::lanes::{Choices, Frames, order_lanes};
use crate::order::numbers::Both;
use crate::order::positions::set_positions;
use crate::order::recording::Recording;
use crate::order::seen::seen_frames;
use crate::order::weave::weave;
use sl_merge::Fate;
use sl_tmframe::TmShape;
use std::alloc::{AllocError, Global};
use std::hash::BuildHasher;
use thiserror::Error;

/// The most octets that both recordings may have: fewer than 2^31 frames of 32 octets.
const MOST_OCTETS: usize = 1 << 36;

/// How orders are looked for, one after another: with what care, and whether the frames of both at
/// either end of the recordings are parted.
const ATTEMPTS: [(Care, bool); 5] = [
    (Care::Likeliest, false),
    (Care::ByPosition, false),
    (Care::ByPosition, true),
    (Care::LeaveOut, false),
    (Care::LeaveOut, true),
];

/// The order that was found, and what of it is a guess.
#[derive(Drop)]
pub struct Order {
    /// The fates of the frames of both recordings.
    pub fates: Vec<Fate>,
    /// The stretches whose order is a guess, and, without error control field, the frames near which
    /// a nearly equal one of the other recording stands. All frames of them stand in the merge.
    pub guessed: u64,
    /// The stretches of which one recording's frames are left out, and, without error control field,
    /// the places amid a run of the other recording where a few are.
    pub undecided: u64,
    /// The stretches in which one recording lost 256 frames of a channel in a row or more, or both
    /// did, and one way fits the frames, or one is clearly the likeliest.
    pub outages: u64,
    /// The choices among equal idle frames.
    pub idle: u64,
}

/// Why no order was found.
#[derive(Clone, Copy, Debug, PartialEq, Eq, Error)]
pub enum Unordered {
    /// Memory was refused.
    #[error("memory")]
    Memory,
    /// The recordings have no frame in common.
    #[error("no frame in common")]
    Apart,
    /// Frames that both recordings have lie in another order.
    #[error("frames of both lie in another order")]
    Across,
    /// The channels contradict each other.
    #[error("channels contradict each other")]
    Disorder,
}

impl From<AllocError> for Unordered {
    fn from(_: AllocError) -> Unordered {
        Unordered::Memory
    }
}

/// Finds how the frames of two recordings of one pass stand to each other: the fates of a merge.
/// No clause says that they are right, so ask [`is_merge_tm`](sl_merge::is_merge_tm).
///
/// Frames with equal octets whose payload comes once in either recording are the same. Between them
/// the virtual channel frame counts number the frames of a channel. Where these don't tell an order,
/// since a recording lost 256 frames in a row or more, the likeliest one is taken and counted. Where
/// several are likely, between two frames of both, the frames of the recording that has more of them
/// stand, and the others are left out.
/// Recordings of 2^36 octets or more are refused as if memory were.
pub fn find_order<S: BuildHasher + Copy>(
    alloc: Global,
    hasher: S,
    shape: &TmShape,
    spacecraft: u16,
    one: &[u8],
    other: &[u8],
) -> Result<Order, Unordered> {
    if one.len().saturating_add(other.len()) >= MOST_OCTETS {
        return Err(Unordered::Memory);
    }
    let both = Both {
        one: Recording::new(shape, one),
        other: Recording::new(shape, other),
    };
    let mut frames = frames_of(alloc, shape, spacecraft, &both)?;
    set_anchors(alloc, hasher, &both, &mut frames)?;
    for attempt in ATTEMPTS {
        if let Some(order) = order_with(alloc, &both, &mut frames, attempt)? {
            return Ok(order);
        }
    }
    Err(Unordered::Disorder)
}

// What is seen of the frames of both recordings.
fn frames_of(
    alloc: Global,
    shape: &TmShape,
    spacecraft: u16,
    both: &Both<'_>,
) -> Result<Frames, AllocError> {
    Ok(Frames {
        firsts: seen_frames(alloc, shape, spacecraft, &both.one)?,
        seconds: seen_frames(alloc, shape, spacecraft, &both.other)?,
    })
}

// One attempt: the order that is found with this care, if one is.
fn order_with(
    alloc: Global,
    both: &Both<'_>,
    frames: &mut Frames,
    (care, parts): (Care, bool),
) -> Result<Option<Order>, AllocError> {
    frames.put_back();
    set_positions(alloc, frames, parts)?;
    let mut choices = Choices::none();
    let lanes = order_lanes(alloc, both, frames, care, &mut choices)?;
    let Some(fates) = weave(alloc, frames, &lanes)? else {
        return Ok(None);
    };
    let copies = count_copies(both, fates.as_slice());
    Ok(Some(Order {
        fates,
        guessed: choices.orders.saturating_add(copies),
        undecided: choices.frames,
        outages: choices.outages,
        idle: choices.idle,
    }))
}
