//! Normal forms of packets, and the frames of a longest packet.
ghost use Rattle.std.specs.Prelude.{◌≤◌};

use super::{NORMAL_FORM, OF_23, SPLIT};
use crate::support::packets::{delivered_of, has, longest, none};
use crate::support::recordings::{TELEMETRY, TM_FRAME};
use crate::support::rows::{Stop, holds, passes};
use crate::support::tm::{ended, extractor, form_of, held, is_form, shape};
use sl_packet::Delivered;
use sl_tmflow::{Extractor, TmForm};
use std::alloc::{AllocError, Global};
use std::process::Abort;

// The last two of the 2,522 frames of a packet of 65,542 octets: its last 22, and an idle packet
// that begins after them. Counts 2,520 and 2,521 modulo 256.
const LAST_OF_LONGEST: [u8; 64] = [
    0x00, 0x10, 0xD8, 0xD8, 0x18, 0x16, //
    0x33, 0x33, 0x33, 0x33, 0x33, 0x33, 0x33, 0x33, 0x33, 0x33, 0x33, 0x33, 0x33, 0x33, 0x33, 0x33,
    0x33, 0x33, 0x33, 0x33, 0x33, 0x33, //
    0x07, 0xFF, 0xC0, 0x00, //
    0x00, 0x10, 0xD9, 0xD9, 0x1F, 0xFF, //
    0x00, 0x17, 0, 0, 0, 0, 0, 0, 0, 0, 0, 0, 0, 0, 0, 0, 0, 0, 0, 0, 0, 0, 0, 0, 0, 0,
];

// Two packets on channel 0, the second of them completes a frame, and one on channel 3.
const PACKETS: [(u16, &[u8]); 3] = [(0, &OF_23), (0, &TELEMETRY), (3, &SPLIT)];

// The octets of each piece: of the frame that the first two packets complete, and of those that an
// idle packet completes on each channel.
const PIECES: [usize; 3] = [32, 32, 32];

#[test]
fn the_normal_form_of_one_packet(rt: HostRuntime) -> Result<(), Stop> {
    let delivered = delivered_of(rt.alloc(), &[(0, &TELEMETRY)])?;
    let is_form = is_form(rt.alloc(), &delivered, &TM_FRAME)?;
    holds(&rt, &TELEMETRY, is_form);
    Ok(())
}

// Adds the next piece to the form: whether it has this number of octets.
fn add_next(
    pieces: &mut TmForm,
    piece: &mut Vec<u8>,
    len: usize,
    form: &mut Vec<u8>,
) -> Result<bool, AllocError> {
    piece.clear();
    let is_there = pieces.next(piece)?;
    form.extend_from_slice(piece)?;
    Ok(is_there && piece.len() == len)
}

// Adds all pieces: whether they have these numbers of octets, and there are no more.
fn add_pieces(alloc: Global, pieces: &mut TmForm, form: &mut Vec<u8>) -> Result<bool, AllocError> {
    let mut piece = Vec::new(alloc);
    pieces.reserve(&mut piece)?;
    for len in &PIECES {
        if !add_next(pieces, &mut piece, *len, form)? {
            return Ok(false);
        }
    }
    piece.clear();
    let is_more = pieces.next(&mut piece)?;
    Ok(!is_more && piece.is_empty())
}

fn pieces_of<'d>(alloc: Global, delivered: &'d Delivered) -> Result<TmForm<'d>, Stop> {
    let shape = shape(32, false)?;
    Ok(TmForm::new(alloc, &shape, 1, delivered))
}

// Whether the pieces are the form.
fn are_form(alloc: Global, delivered: &Delivered) -> Result<bool, Stop> {
    let mut pieces = pieces_of(alloc, delivered)?;
    let mut form = Vec::new(alloc);
    let are_all = add_pieces(alloc, &mut pieces, &mut form)?;
    let is_form = is_form(alloc, delivered, form.as_slice())?;
    Ok(are_all && is_form && form.starts_with(&NORMAL_FORM))
}

#[test]
fn the_pieces_of_a_form_follow_one_another(rt: HostRuntime) -> Result<(), Stop> {
    let delivered = delivered_of(rt.alloc(), &PACKETS)?;
    let are_form = are_form(rt.alloc(), &delivered)?;
    holds(&rt, &PIECES, are_form);
    Ok(())
}

// What the frame of this number should have: its pointer, the packets and idle ones that end in it,
// and the octets that are held after it.
fn wanted(number: u32) -> ([u8; 2], (u32, u32), u32)
    requires { number ≤ 2521 }
{
    match number {
        0 => ([0x18, 0x00], (0, 0), 26),
        2519 => ([0x1F, 0xFF], (0, 0), 65520),
        2520 => ([0x18, 0x16], (1, 0), 4),
        2521 => ([0x1F, 0xFF], (0, 1), 0),
        _ => ([0x1F, 0xFF], (0, 0), 26 * (number + 1)),
    }
}

// Whether a frame has what it should.
fn is_as_wanted(
    extractor: &mut Extractor,
    sink: &mut Delivered,
    number: usize,
    frame: &[u8; 32],
) -> Result<bool, Stop> {
    if number > 2521 {
        return Err(Stop::Absent);
    }
    let (pointer, counts, octets) = wanted(number as u32);
    let ended = ended(extractor, frame, sink)?;
    Ok(&frame[4..6] == pointer.as_slice() && ended == counts && held(extractor, 0) == octets)
}

// Whether a packet is extracted from its frames, and each frame has what it should.
fn is_extracted(rt: &impl Abort, alloc: Global, frames: &[[u8; 32]], packet: &[u8]) -> bool {
    let mut extractor = extractor(alloc);
    let mut extracted = none(alloc);
    for (number, frame) in frames.iter().enumerate() {
        let outcome = is_as_wanted(&mut extractor, &mut extracted, number, frame);
        passes(rt, &number, outcome);
    }
    has(&extracted, 0, &[packet])
}

fn is_form_of_longest(form: &[u8]) -> bool {
    form.len() == 80704
        && form.starts_with(&[0x00, 0x10, 0x00, 0x00, 0x18, 0x00])
        && form.ends_with(&LAST_OF_LONGEST)
}

fn longest_is_extracted(rt: &impl Abort, alloc: Global) -> Result<bool, Stop> {
    let longest = longest(alloc)?;
    let delivered = delivered_of(alloc, &[(0, &longest)])?;
    let form = form_of(alloc, &delivered)?;
    let (frames, _) = form.as_chunks::<32>();
    Ok(is_form_of_longest(&form) && is_extracted(rt, alloc, frames, &longest))
}

// A longest packet passes the greatest count nine times; in most of its frames no packet starts.
#[test]
fn a_longest_packet_goes_through_its_frames(rt: HostRuntime) {
    passes(&rt, &"all frames", longest_is_extracted(&rt, rt.alloc()));
}
