//! Frames of known octets, as they are read and written. What is expected follows from the
//! standard's table of bits, and from its division for the error control fields.
mod added;
mod content;
mod framer;
mod vc_set;

use crate::support::recordings::TC_FRAME;
use crate::support::rows::{Stop, holds, passes};
use crate::support::tc::{read, shape};
use sl_fields::ShapeFault;
use sl_tcframe::{TcContent, TcFrame, TcShape, TcSkip};

// Greatest lengths that no format has.
const NO_LENGTHS: [u16; 4] = [0, 15, 1025, 65535];

// Greatest length, error control, least length, and room with segment headers and without.
const FORMATS: [(u16, bool, u16, (u16, u16)); 4] = [
    (16, false, 5, (10, 11)),
    (16, true, 7, (8, 9)),
    (1024, false, 5, (1018, 1019)),
    (1024, true, 7, (1016, 1017)),
];

// A frame of 17 octets; the same with the control command flag, and with that of type BC.
const LONG: [u8; 17] = [
    0x00, 0x01, 0x00, 0x10, 0x00, 0xC0, 0, 0, 0, 0, 0, 0, 0, 0, 0, 0, 0,
];

const LONG_COMMAND: [u8; 17] = [
    0x10, 0x01, 0x00, 0x10, 0x00, 0xC0, 0, 0, 0, 0, 0, 0, 0, 0, 0, 0, 0,
];

const LONG_UNLOCK: [u8; 17] = [
    0x30, 0x01, 0x00, 0x10, 0x00, 0xC0, 0, 0, 0, 0, 0, 0, 0, 0, 0, 0, 0,
];

// Octets, and whether they are one frame, without error control and with it.
static CUTS: [(&[u8], bool, bool); 12] = [
    (&TC_FRAME, true, true),
    (
        &[
            0x00, 0x01, 0x00, 0x0F, 0x00, 0xC0, //
            0x10, 0x01, 0xC0, 0x00, 0x00, 0x03, 0xAA, 0xBB, 0xCC,
        ],
        false,
        false,
    ),
    (&[], false, false),
    // Four octets state the length, but no frame is as short.
    (&[0x00, 0x01, 0x00, 0x03], false, false),
    // The least frame without error control, and the one with it.
    (&[0x00, 0x01, 0x00, 0x04, 0x00], true, false),
    (&[0x00, 0x01, 0x00, 0x05, 0x00, 0xC0], true, false),
    (&[0x00, 0x01, 0x00, 0x06, 0x00, 0xC0, 0x00], true, true),
    // One octet less than stated, and one more.
    (&[0x00, 0x01, 0x00, 0x05, 0x00], false, false),
    (&[0x00, 0x01, 0x00, 0x06, 0x00, 0, 0, 0], false, false),
    // The virtual channel is no part of the length, the two bits after it are.
    (&[0x00, 0x01, 0xFC, 0x06, 0x00, 0xC0, 0x00], true, true),
    (&[0x00, 0x01, 0x01, 0x06, 0x00, 0xC0, 0x00], false, false),
    // A frame longer than it may be.
    (&LONG, true, true),
];

// Frames of formats without error control and with it, and why they are skipped.
static SKIPPED: [(&[u8], TcSkip); 17] = [
    // Each reason alone.
    (&[0x40, 0x01, 0x00, 0x06, 0x00, 0xC0, 0x00], TcSkip::Version),
    (
        &[0x00, 0x02, 0x00, 0x06, 0x00, 0xC0, 0x00],
        TcSkip::Spacecraft,
    ),
    (&LONG, TcSkip::Long),
    (&[0x10, 0x01, 0x00, 0x06, 0x00, 0xC0, 0x00], TcSkip::Kind),
    (&[0x00, 0x01, 0x00, 0x04, 0x00], TcSkip::Empty),
    (&[0x20, 0x01, 0x00, 0x04, 0x00], TcSkip::Empty),
    (&[0x30, 0x01, 0x00, 0x05, 0x00, 0x01], TcSkip::Command),
    // Other octets than a control command's.
    (&[0x30, 0x01, 0x00, 0x06, 0x00, 0x82, 0x00], TcSkip::Command),
    (
        &[0x30, 0x01, 0x00, 0x07, 0x00, 0x82, 0x01, 0x05],
        TcSkip::Command,
    ),
    (
        &[0x30, 0x01, 0x00, 0x07, 0x00, 0x83, 0x00, 0x05],
        TcSkip::Command,
    ),
    (
        &[0x30, 0x01, 0x00, 0x08, 0x00, 0x82, 0x00, 0x05, 0x05],
        TcSkip::Command,
    ),
    // Of two reasons the earlier one.
    (&[0x40, 0x02, 0x00, 0x06, 0x00, 0xC0, 0x00], TcSkip::Version),
    (
        &[0x10, 0x02, 0x00, 0x06, 0x00, 0xC0, 0x00],
        TcSkip::Spacecraft,
    ),
    (&LONG_COMMAND, TcSkip::Long),
    (&LONG_UNLOCK, TcSkip::Long),
    (&[0x10, 0x01, 0x00, 0x04, 0x00], TcSkip::Kind),
    (&[0x30, 0x01, 0x00, 0x04, 0x00], TcSkip::Empty),
];

static WITH_FECF: [(&[u8], Option<TcSkip>); 7] = [
    (&[0x30, 0x01, 0x00, 0x07, 0x00, 0x00, 0x0E, 0x5D], None),
    (
        &[0x30, 0x01, 0x00, 0x07, 0x00, 0x00, 0x0E, 0x5E],
        Some(TcSkip::Fecf),
    ),
    (
        &[0x30, 0x01, 0x00, 0x07, 0x00, 0x00, 0x5D, 0x0E],
        Some(TcSkip::Fecf),
    ),
    // Another version, with the field right and wrong.
    (
        &[0x40, 0x01, 0x00, 0x07, 0x00, 0xC0, 0x92, 0x8D],
        Some(TcSkip::Version),
    ),
    (
        &[0x40, 0x01, 0x00, 0x07, 0x00, 0xC0, 0x92, 0x8C],
        Some(TcSkip::Fecf),
    ),
    // The field follows the header, with no data field between.
    (
        &[0x00, 0x01, 0x00, 0x06, 0x00, 0xCD, 0x1E],
        Some(TcSkip::Empty),
    ),
    (
        &[0x30, 0x01, 0x00, 0x06, 0x00, 0xC1, 0xF0],
        Some(TcSkip::Empty),
    ),
];

// Whether a format has these lengths, and this room with segment headers and without.
fn is_format(
    max: u16,
    fecf: bool,
    least: u16,
    (room, plain_room): (u16, u16),
) -> Result<bool, Stop> {
    let shape = shape(max, fecf)?;
    let are_lengths = shape.max() == max && shape.fecf() == fecf && shape.least() == least;
    Ok(are_lengths && shape.room() == room && shape.plain_room() == plain_room)
}

#[test]
fn formats_and_their_rooms(rt: HostRuntime) {
    for max in &NO_LENGTHS {
        for fecf in &[false, true] {
            let fault = TcShape::new(*max, *fecf).err();
            holds(&rt, &(max, fecf), fault == Some(ShapeFault::TcLength));
        }
    }
    for (max, fecf, least, rooms) in &FORMATS {
        passes(&rt, &(max, fecf), is_format(*max, *fecf, *least, *rooms));
    }
}

// Whether octets are one frame of at most 16 octets, or are not.
fn is_cut(fecf: bool, octets: &[u8], wanted: bool) -> Result<bool, Stop> {
    Ok(shape(16, fecf)?.is_cut(octets) == wanted)
}

#[test]
fn octets_that_are_one_frame(rt: HostRuntime) {
    for (octets, one, one_with_fecf) in &CUTS {
        passes(&rt, octets, is_cut(false, octets, *one));
        passes(&rt, octets, is_cut(true, octets, *one_with_fecf));
    }
    // The length field states 260 octets by both of its octets.
    let mut octets = [0; 260];
    octets[..6].copy_from_slice(&[0x00, 0x01, 0x01, 0x03, 0x00, 0xC0]);
    passes(&rt, &260, is_cut(false, &octets, true));
    passes(&rt, &260, is_cut(true, &octets, true));
    passes(
        &rt,
        &260,
        is_skipped(17, false, &octets, Some(TcSkip::Long)),
    );
}

// Whether a frame of at most this length is skipped for this reason, or is not skipped.
fn is_skipped(max: u16, fecf: bool, octets: &[u8], reason: Option<TcSkip>) -> Result<bool, Stop> {
    Ok(read(&shape(max, fecf)?, octets)?.err() == reason)
}

#[test]
fn the_first_reason_to_skip_a_frame(rt: HostRuntime) {
    for (octets, reason) in &SKIPPED {
        passes(&rt, octets, is_skipped(16, false, octets, Some(*reason)));
    }
    for (octets, reason) in &WITH_FECF {
        passes(&rt, octets, is_skipped(16, true, octets, *reason));
    }
    // Nothing but the managed length makes a frame too long.
    passes(&rt, &17, is_skipped(17, false, &LONG, None));
}

// Whether a frame carries the same as this, with the same octets of the unit.
fn carries(frame: &TcFrame, content: &TcContent) -> bool {
    frame.content() == *content
}
