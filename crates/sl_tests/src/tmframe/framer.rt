//! Frames out of a recording that comes in chunks.
use crate::support::rows::{Stop, passes};
use crate::support::tm::shape;
use sl_tmframe::TmFramer;
use std::alloc::Global;

// Two frames of 32 octets, the second one of numbered octets, and six octets of a third one.
const RECORDING: [u8; 70] = [
    0x00, 0x10, 0x00, 0x00, 0x18, 0x00, //
    0x00, 0x01, 0xC0, 0x00, 0x00, 0x03, 0xAA, 0xBB, 0xCC, 0xDD, //
    0x07, 0xFF, 0xC0, 0x00, 0x00, 0x09, 0, 0, 0, 0, 0, 0, 0, 0, 0, 0, //
    32, 33, 34, 35, 36, 37, 38, 39, 40, 41, 42, 43, 44, 45, 46, 47, //
    48, 49, 50, 51, 52, 53, 54, 55, 56, 57, 58, 59, 60, 61, 62, 63, //
    64, 65, 66, 67, 68, 69,
];

// Sizes of chunks.
const SIZES: [usize; 7] = [1, 7, 31, 32, 33, 64, 70];

// A framer of frames of this length, without error control.
fn framer(len: u16) -> Result<TmFramer, Stop> {
    Ok(TmFramer::new(&shape(len, false)?))
}

// Whether a framer lends this from a chunk, leaves this of it, and then holds these octets.
fn lends(
    framer: &mut TmFramer,
    chunk: &[u8],
    wanted: Option<&[u8]>,
    left: &[u8],
    held: &[u8],
) -> bool {
    let mut piece = chunk;
    framer.next(&mut piece) == wanted && piece == left && framer.rest() == held
}

// Twenty octets, and twenty more, twelve of which complete the frame.
fn is_in_two_chunks() -> Result<bool, Stop> {
    let mut framer = framer(32)?;
    let (one, other) = (&RECORDING[..20], &RECORDING[20..40]);
    let (frame, rest) = (&RECORDING[..32], &RECORDING[32..40]);
    let is_empty = framer.rest().is_empty();
    let is_begun = lends(&mut framer, one, None, &[], one);
    let is_lent = lends(&mut framer, other, Some(frame), rest, &[]);
    Ok(is_empty && is_begun && is_lent && lends(&mut framer, rest, None, &[], rest))
}

// Adds the next frame that a chunk completes, lent from the framer or from the chunk.
fn add_next(
    framer: &mut TmFramer,
    piece: &mut &[u8],
    from_chunk: bool,
    lent: &mut Vec<u8>,
) -> Result<(), Stop> {
    if from_chunk {
        if let Some(frame) = framer.next_from(piece) {
            lent.extend_from_slice(frame)?;
        }
    } else if let Some(frame) = framer.next(piece) {
        if frame.len() != 32 {
            return Err(Stop::Absent);
        }
        lent.extend_from_slice(frame)?;
    }
    Ok(())
}

// Adds the frames that a chunk completes, whichever call lends them, until nothing is left of it.
fn lend(
    framer: &mut TmFramer,
    chunk: &[u8],
    from_chunk: bool,
    lent: &mut Vec<u8>,
) -> Result<(), Stop> {
    let mut piece = chunk;
    for _ in 0..3 {
        add_next(framer, &mut piece, from_chunk, lent)?;
    }
    if piece.is_empty() {
        Ok(())
    } else {
        Err(Stop::Absent)
    }
}

// Whether the two frames are lent of chunks of this size, and the other octets are held.
fn are_lent(alloc: Global, size: usize, from_chunk: bool) -> Result<bool, Stop> {
    let mut framer = framer(32)?;
    let mut lent = Vec::new(alloc);
    if size == 0 {
        return Err(Stop::Absent);
    }
    for chunk in RECORDING.chunks(size) {
        lend(&mut framer, chunk, from_chunk, &mut lent)?;
    }
    Ok(lent.as_slice() == &RECORDING[..64] && framer.rest() == &RECORDING[64..])
}

#[test]
fn frames_in_chunks_of_any_size(rt: HostRuntime) {
    for size in &SIZES {
        passes(&rt, size, are_lent(rt.alloc(), *size, false));
        passes(&rt, size, are_lent(rt.alloc(), *size, true));
    }
    passes(&rt, &"two chunks", is_in_two_chunks());
}

fn is_longest_lent() -> Result<bool, Stop> {
    let mut octets = [0; 2048];
    octets[2047] = 1;
    let mut framer = framer(2048)?;
    let is_begun = lends(&mut framer, &octets[..2047], None, &[], &octets[..2047]);
    Ok(is_begun && lends(&mut framer, &octets[2047..], Some(&octets), &[], &[]))
}

#[test]
fn the_longest_frame(rt: HostRuntime) {
    passes(&rt, &2048, is_longest_lent());
}
