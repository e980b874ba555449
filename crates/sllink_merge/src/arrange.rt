//! The order in which recordings are merged.
ghost use Rattle.std.specs.Prelude.{◌<◌, ◌≤◌, IfOk, OnOk, length};
ghost use Rattle.std.specs.List.Sorted.{IsPermutation};

use crate::merge::Recording;
use sl_tmframe::TmShape;
use std::alloc::{AllocError, Global};
use std::collections::HashSet;
use std::hash::{BuildHasher, Hasher};

/// Puts recordings into the order in which they are merged: the two with the most frames in common
/// first, and then always the one that has the most frames in common with those before it.
pub fn arrange<S: BuildHasher + Copy>(
    alloc: Global,
    hasher: S,
    shape: &TmShape,
    recordings: &mut [Recording<'_>],
) -> Result<(), AllocError>
    ensures { OnOk result (IsPermutation recordings.old recordings.new) }
{
    if recordings.len() < 3 {
        return Ok(());
    }
    put_pair_first(alloc, hasher, shape, recordings)?;
    let mut seen = HashSet::with_hasher(alloc, hasher);
    for place in 0..recordings.len() {
        if place > 1 {
            let nearest = nearest_from(&seen, hasher, shape, recordings, place);
            recordings.swap(place, nearest);
        }
        add_frames(&mut seen, hasher, shape, recordings[place].octets)?;
    }
    Ok(())
}

// Puts the two recordings with the most frames in common first.
fn put_pair_first<S: BuildHasher + Copy>(
    alloc: Global,
    hasher: S,
    shape: &TmShape,
    recordings: &mut [Recording<'_>],
) -> Result<(), AllocError>
    requires { 2 ≤ length recordings.old }
    ensures { OnOk result (IsPermutation recordings.old recordings.new) }
{
    let (first, second) = closest_pair(alloc, hasher, shape, recordings)?;
    recordings.swap(0, first);
    recordings.swap(1, second);
    Ok(())
}

// The places of the two recordings with the most frames in common.
fn closest_pair<S: BuildHasher + Copy>(
    alloc: Global,
    hasher: S,
    shape: &TmShape,
    recordings: &[Recording<'_>],
) -> Result<(usize, usize), AllocError>
    requires { 2 ≤ length recordings.now }
    ensures first { IfOk result (λ places. places.0 < length recordings.now) }
    ensures second { IfOk result (λ places. places.1 < length recordings.now) }
{
    let mut closest = (0, 1);
    let mut most = 0;
    for first in 0..recordings.len() - 1 {
        let mut frames = HashSet::with_hasher(alloc, hasher);
        add_frames(&mut frames, hasher, shape, recordings[first].octets)?;
        let second = nearest_from(&frames, hasher, shape, recordings, first + 1);
        let common = frames_among(&frames, hasher, shape, recordings[second].octets);
        if common > most {
            closest = (first, second);
            most = common;
        }
    }
    Ok(closest)
}

// The place, from this one on, of the recording with the most frames among these.
fn nearest_from<S: BuildHasher + Copy>(
    frames: &HashSet<u64, S>,
    hasher: S,
    shape: &TmShape,
    recordings: &[Recording<'_>],
    place: usize,
) -> usize
    requires { place < length recordings.now }
    ensures { result < length recordings.now }
{
    let mut nearest = place;
    let mut most = 0;
    for other in place..recordings.len() {
        let common = frames_among(frames, hasher, shape, recordings[other].octets);
        if common > most {
            nearest = other;
            most = common;
        }
    }
    nearest
}

// How many frames of a recording are among these.
fn frames_among<S: BuildHasher + Copy>(
    frames: &HashSet<u64, S>,
    hasher: S,
    shape: &TmShape,
    octets: &[u8],
) -> usize {
    octets
        .chunks_exact(usize::from(shape.len()))
        .filter(|frame| frames.contains(&mark_of(hasher, frame)))
        .count()
}

// Adds the frames of a recording to these.
fn add_frames<S: BuildHasher + Copy>(
    frames: &mut HashSet<u64, S>,
    hasher: S,
    shape: &TmShape,
    octets: &[u8],
) -> Result<(), AllocError> {
    for frame in octets.chunks_exact(usize::from(shape.len())) {
        frames.insert(mark_of(hasher, frame))?;
    }
    Ok(())
}

// A number that stands for a frame. Two frames may have the same one, and the order in which
// recordings are merged may then be another.
fn mark_of<S: BuildHasher + Copy>(hasher: S, frame: &[u8]) -> u64 {
    let mut state = hasher.build_hasher();
    state.write(frame);
    state.finish()
}
