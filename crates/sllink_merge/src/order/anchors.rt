//! Frames that can be taken for the same in both recordings.
use crate::order::Unordered;
use crate::order::lanes::Frames;
use crate::order::numbers::Both;
use crate::order::payloads::{Kept, Payloads};
use crate::order::recording::Payload;
use crate::order::seen::{Role, Seen};
use std::alloc::{AllocError, Global};
use std::hash::BuildHasher;

/// Where the other recording has the payload of a frame.
#[derive(Clone, Copy)]
enum Twin {
    /// Nowhere.
    Nowhere,
    /// At this place alone.
    At(u32),
    /// It comes more than once in either recording.
    Many,
}

/// Finds the anchors, which have to lie in one order, and gives all frames their brackets.
pub fn set_anchors<S: BuildHasher + Copy>(
    alloc: Global,
    hasher: S,
    both: &Both<'_>,
    frames: &mut Frames,
) -> Result<(), Unordered> {
    let twins = twins(alloc, hasher, both, frames)?;
    let found = mark_anchors(both, frames, &twins)?;
    if !found && has_frames(&frames.firsts) && has_frames(&frames.seconds) {
        return Err(Unordered::Apart);
    }
    set_brackets(&mut frames.firsts);
    set_brackets(&mut frames.seconds);
    Ok(())
}

// For each frame of the first recording where the second one has its payload.
fn twins<S: BuildHasher + Copy>(
    alloc: Global,
    hasher: S,
    both: &Both<'_>,
    frames: &Frames,
) -> Result<Vec<Twin>, AllocError> {
    let mut twins = vec![in alloc; Twin::Nowhere; frames.firsts.len()]?;
    let mut payloads = Payloads::new(alloc, hasher, both.one, frames.firsts.len())?;
    keep_payloads(&mut payloads, &frames.firsts, &mut twins);
    let mut place = 0u32;
    let mut expected = 0u32;
    for seen in &frames.seconds {
        if seen.stands() {
            let payload = both.other.payload(place);
            if let Some(first) = find(&payloads, &frames.firsts, expected, &payload) {
                meet(&mut twins, first, place);
                expected = first.saturating_add(1);
            }
        }
        place = place.saturating_add(1);
    }
    Ok(twins)
}

// The place of a frame of the first recording that has this payload: mostly the expected one.
fn find<S: BuildHasher + Copy>(
    payloads: &Payloads<'_, S>,
    firsts: &[Seen],
    expected: u32,
    payload: &Payload<'_>,
) -> Option<u32> {
    let stands = firsts
        .get(expected as usize)
        .is_some_and(|seen| seen.stands());
    if stands && payloads.has(expected, payload) {
        Some(expected)
    } else {
        payloads.place_of(payload)
    }
}

// Keeps the payloads of a recording.
fn keep_payloads<S: BuildHasher + Copy>(
    payloads: &mut Payloads<'_, S>,
    firsts: &[Seen],
    twins: &mut [Twin],
) {
    let mut place = 0u32;
    for seen in firsts {
        if seen.stands() {
            match payloads.keep(place) {
                Kept::New => {}
                Kept::Known(before) => {
                    set_many(twins, before);
                    set_many(twins, place);
                }
                Kept::Crowded => set_many(twins, place),
            }
        }
        place = place.saturating_add(1);
    }
}

// The payload of this frame comes more than once.
fn set_many(twins: &mut [Twin], place: u32) {
    if let Some(twin) = twins.get_mut(place as usize) {
        *twin = Twin::Many;
    }
}

// The payload of the frame at `first` comes at a place of the other recording.
fn meet(twins: &mut [Twin], first: u32, place: u32) {
    if let Some(twin) = twins.get_mut(first as usize) {
        *twin = match *twin {
            Twin::Nowhere => Twin::At(place),
            Twin::At(_) | Twin::Many => Twin::Many,
        };
    }
}

// Whether a frame stands.
fn has_frames(frames: &[Seen]) -> bool {
    frames.iter().any(|seen| seen.stands())
}

// Marks the anchors, and answers whether there are any.
fn mark_anchors(both: &Both<'_>, frames: &mut Frames, twins: &[Twin]) -> Result<bool, Unordered> {
    let mut place = 0u32;
    let mut least = 0u32;
    for twin in twins {
        if let Twin::At(counterpart) = *twin {
            if both.are_same(place, counterpart) {
                if counterpart < least {
                    return Err(Unordered::Across);
                }
                least = counterpart.saturating_add(1);
                set_anchor(&mut frames.firsts, place);
                set_anchor(&mut frames.seconds, counterpart);
            }
        }
        place = place.saturating_add(1);
    }
    Ok(least > 0)
}

// The frame at a place is an anchor.
fn set_anchor(frames: &mut [Seen], place: u32) {
    if let Some(seen) = frames.get_mut(place as usize) {
        seen.role = Role::Anchor;
    }
}

// Gives frames their brackets.
fn set_brackets(frames: &mut [Seen]) {
    let mut bracket = 0u32;
    for seen in frames.iter_mut() {
        if seen.role == Role::Anchor {
            seen.bracket = bracket.saturating_add(1);
            bracket = bracket.saturating_add(2);
        } else {
            seen.bracket = bracket;
        }
    }
}
