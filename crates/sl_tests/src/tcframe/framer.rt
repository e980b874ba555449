//! Frames out of a recording that comes in chunks.
use crate::support::recordings::TC_FRAME;
use crate::support::rows::{Stop, holds, passes};
use crate::support::tc::shape;
use sl_tcframe::TcFramer;
use std::alloc::{AllocError, Global};
use std::process::Abort;

// A frame of 16 octets, one of 7, and four octets that state a length of three.
const RECORDING: [u8; 30] = [
    0x00, 0x01, 0x00, 0x0F, 0x00, 0xC0, //
    0x10, 0x01, 0xC0, 0x00, 0x00, 0x03, 0xAA, 0xBB, 0xCC, 0xDD, //
    0x20, 0x01, 0x00, 0x06, 0x00, 0xC0, 0xEE, //
    0x00, 0x01, 0x00, 0x02, 0xC0, 0xEE, 0xEE,
];

// Sizes of chunks.
const SIZES: [usize; 8] = [1, 3, 4, 5, 7, 16, 23, 30];

// Chunks in order, what is left of each, what is held after it, and whether no frame begins so.
static STUCK: [(&[u8], &[u8], &[u8], bool); 3] = [
    (&[0x00, 0x01], &[], &[0x00, 0x01], false),
    (
        &[0x00, 0x02, 0x00],
        &[0x00],
        &[0x00, 0x01, 0x00, 0x02],
        true,
    ),
    (&TC_FRAME, &TC_FRAME, &[0x00, 0x01, 0x00, 0x02], true),
];

// Error control, the first octets of a frame, and whether the length in them is below the least.
const LEAST: [(bool, [u8; 4], bool); 4] = [
    (false, [0x00, 0x01, 0x00, 3], true),
    (false, [0x00, 0x01, 0x00, 4], false),
    (true, [0x00, 0x01, 0x00, 5], true),
    (true, [0x00, 0x01, 0x00, 6], false),
];

// A frame with error control, and an octet of the next one.
const PROTECTED: [u8; 7] = [0x00, 0x01, 0x00, 0x06, 0x00, 0xEE, 0xEE];

const PROTECTED_AND_MORE: [u8; 8] = [0x00, 0x01, 0x00, 0x06, 0x00, 0xEE, 0xEE, 0xEE];

// A framer of frames of at most 16 octets.
fn framer(fecf: bool) -> Result<TcFramer, Stop> {
    Ok(TcFramer::new(&shape(16, fecf)?))
}

// Whether a framer lends this from a chunk, and leaves this of it.
fn lends(framer: &mut TcFramer, chunk: &[u8], wanted: Option<&[u8]>, left: &[u8]) -> bool {
    let mut piece = chunk;
    framer.next(&mut piece) == wanted && piece == left
}

// Whether a framer holds these octets, and whether no frame begins with them.
fn is_held(framer: &TcFramer, octets: &[u8], stuck: bool) -> bool {
    framer.rest() == octets && framer.stuck() == stuck
}

// Whether a framer holds nothing at first, and later what the rows say.
fn is_stuck(rt: &impl Abort) -> Result<bool, Stop> {
    let mut framer = framer(false)?;
    let is_empty = is_held(&framer, &[], false);
    for (chunk, left, octets, stuck) in &STUCK {
        let is_none = lends(&mut framer, chunk, None, left);
        holds(rt, chunk, is_none && is_held(&framer, octets, *stuck));
    }
    Ok(is_empty)
}

#[test]
fn octets_after_a_length_below_the_least(rt: HostRuntime) {
    passes(&rt, &"no octets", is_stuck(&rt));
}

// Whether a framer lends none of the first octets of a frame, and is stuck with them or isn't.
fn is_begun(fecf: bool, octets: &[u8; 4], stuck: bool) -> Result<bool, Stop> {
    let mut framer = framer(fecf)?;
    Ok(lends(&mut framer, octets, None, &[]) && framer.stuck() == stuck)
}

#[test]
fn the_least_lengths_of_frames(rt: HostRuntime) {
    for (fecf, octets, stuck) in &LEAST {
        passes(&rt, octets, is_begun(*fecf, octets, *stuck));
    }
}

// Adds the next frame that a chunk completes, lent from the framer or from the chunk.
fn add_next(
    framer: &mut TcFramer,
    piece: &mut &[u8],
    from_chunk: bool,
    lent: &mut Vec<u8>,
) -> Result<(), AllocError> {
    if from_chunk {
        if let Some(frame) = framer.next_from(piece) {
            lent.extend_from_slice(frame)?;
        }
    } else if let Some(frame) = framer.next(piece) {
        lent.extend_from_slice(frame)?;
    }
    Ok(())
}

// Adds the frames that a chunk completes, by either call: how many octets of it are left.
fn lend(
    framer: &mut TcFramer,
    chunk: &[u8],
    from_chunk: bool,
    lent: &mut Vec<u8>,
) -> Result<usize, AllocError> {
    let mut piece = chunk;
    for _ in 0..3 {
        add_next(framer, &mut piece, from_chunk, lent)?;
    }
    Ok(piece.len())
}

// Whether the two frames are lent of chunks of this size, and no frame begins with the next octets.
fn are_lent(alloc: Global, size: usize, from_chunk: bool) -> Result<bool, Stop> {
    let mut framer = framer(false)?;
    let mut lent = Vec::new(alloc);
    let mut left = 0usize;
    if size == 0 {
        return Err(Stop::Absent);
    }
    for chunk in RECORDING.chunks(size) {
        left = left.saturating_add(lend(&mut framer, chunk, from_chunk, &mut lent)?);
    }
    let is_lent = lent.as_slice() == &RECORDING[..23];
    Ok(is_lent && is_held(&framer, &RECORDING[23..27], true) && left == 3)
}

#[test]
fn two_frames_in_chunks_of_any_size(rt: HostRuntime) {
    for size in &SIZES {
        passes(&rt, size, are_lent(rt.alloc(), *size, false));
        passes(&rt, size, are_lent(rt.alloc(), *size, true));
    }
}

fn is_lent(fecf: bool, chunk: &[u8], wanted: &[u8], left: &[u8]) -> Result<bool, Stop> {
    let mut framer = framer(fecf)?;
    Ok(lends(&mut framer, chunk, Some(wanted), left))
}

// A frame longer than the managed maximum is lent, to be skipped; and a frame with error control.
#[test]
fn the_longest_frame_and_one_with_error_control(rt: HostRuntime) {
    let mut octets = [0; 1024];
    octets[..6].copy_from_slice(&[0x00, 0x01, 0x03, 0xFF, 0x00, 0xC0]);
    passes(&rt, &1024, is_lent(false, &octets, &octets, &[]));
    let outcome = is_lent(true, &PROTECTED_AND_MORE, &PROTECTED, &[0xEE]);
    passes(&rt, &PROTECTED, outcome);
}
