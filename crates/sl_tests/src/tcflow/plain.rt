//! Virtual channels without segment headers.
use crate::support::packets::{Packets, are_all, delivered_of, none};
use crate::support::recordings::{COMMAND, LEAST};
use crate::support::rows::{Stop, passes};
use crate::support::tc::{
    anomalies, clcw, counts, held, is_form, receiver_with, set_of, shape, step_of,
};
use sl_cop::{Starts, Verdict};
use sl_packet::Delivered;
use sl_tcflow::{Receiver, fits_tc};
use std::alloc::Global;
use std::process::Abort;

// The frame of `COMMAND` on virtual channel 5 without a segment header, of type AD and of type BD.
const WHOLE: [u8; 15] = [
    0x00, 0x01, 0x14, 0x0E, 0x00, //
    0x10, 0x01, 0xC0, 0x00, 0x00, 0x03, 0xAA, 0xBB, 0xCC, 0xDD,
];

const BYPASSING: [u8; 15] = [
    0x20, 0x01, 0x14, 0x0E, 0x00, //
    0x10, 0x01, 0xC0, 0x00, 0x00, 0x03, 0xAA, 0xBB, 0xCC, 0xDD,
];

// Another packet of seven octets.
const SECOND: [u8; 7] = [0x10, 0x02, 0xC0, 0x02, 0x00, 0x00, 0xEF];

// `LEAST` and that one, each in a frame of its own.
const APART: [u8; 24] = [
    0x00, 0x01, 0x14, 0x0B, 0x00, //
    0x10, 0x02, 0xC0, 0x01, 0x00, 0x00, 0xEE, //
    0x00, 0x01, 0x14, 0x0B, 0x01, //
    0x10, 0x02, 0xC0, 0x02, 0x00, 0x00, 0xEF,
];

// A packet of 11 octets, and one of 12.
const OF_11: [u8; 11] = [
    0x10, 0x01, 0xC0, 0x00, 0x00, 0x04, 0x33, 0x33, 0x33, 0x33, 0x33,
];

const OF_12: [u8; 12] = [
    0x10, 0x01, 0xC0, 0x00, 0x00, 0x05, 0x33, 0x33, 0x33, 0x33, 0x33, 0x33,
];

// A frame of both and one octet more.
const WITH_TAIL: [u8; 20] = [
    0x00, 0x01, 0x14, 0x13, 0x00, //
    0x10, 0x02, 0xC0, 0x01, 0x00, 0x00, 0xEE, //
    0x10, 0x02, 0xC0, 0x02, 0x00, 0x00, 0xEF, //
    0x00,
];

// A frame; the verdict on it, the packets and idle ones that end with its unit, and its anomalies.
type Frame<'a> = (
    &'a [u8],
    (Verdict, u32, u32),
    (bool, Option<u32>, bool, u32),
);

// Virtual channels without segment headers, frames in order, all packets, and a CLCW.
type Case<'a> = (
    &'a str,
    &'a [u8],
    &'a [Frame<'a>],
    &'a [Packets<'a>],
    [u8; 4],
);

static CASES: [Case; 4] = [
    (
        "units without a segment header, which are whole",
        &[5],
        &[
            (&WHOLE, (Verdict::Accept, 1, 0), (false, None, false, 0)),
            (&BYPASSING, (Verdict::Accept, 1, 0), (false, None, false, 0)),
        ],
        &[(320, &[&COMMAND, &COMMAND])],
        [0x01, 0x14, 0x02, 0x01],
    ),
    // With segment headers the first octet of the packet is one: a continuing segment on MAP 16.
    (
        "the same with segment headers, which is out of sequence",
        &[],
        &[(&WHOLE, (Verdict::Accept, 0, 0), (true, None, false, 0))],
        &[],
        [0x01, 0x14, 0x00, 0x01],
    ),
    (
        "without segment headers on other virtual channels",
        &[4, 6],
        &[(&WHOLE, (Verdict::Accept, 0, 0), (true, None, false, 0))],
        &[],
        [0x01, 0x14, 0x00, 0x01],
    ),
    (
        "an octet after the last packet of a unit",
        &[5],
        &[(&WITH_TAIL, (Verdict::Accept, 2, 0), (false, None, false, 1))],
        &[(320, &[&LEAST, &SECOND])],
        [0x01, 0x14, 0x00, 0x01],
    ),
];

// Packets of virtual channel 5 without segment headers, and their frames of at most 24 octets.
static FORMS: [(&[(u16, &[u8])], &[u8]); 2] = [
    (&[(320, &LEAST), (320, &SECOND)], &APART),
    (&[(320, &COMMAND)], &WHOLE),
];

// Greatest frame length, error control, channels without segment headers, packets, if these fit.
static FITS: [((u16, bool), &[u8], &[(u16, &[u8])], bool); 13] = [
    ((16, false), &[5], &[(320, &OF_11), (384, &OF_12)], true),
    ((16, false), &[5], &[(320, &OF_12)], false),
    ((16, false), &[], &[(320, &OF_12)], true),
    ((16, false), &[4, 5], &[(320, &OF_12)], false),
    // Without segment headers there is MAP 0 alone.
    ((16, false), &[5], &[(321, &OF_11)], false),
    ((16, false), &[], &[(321, &OF_11)], true),
    ((16, false), &[4, 5], &[(321, &OF_11)], false),
    ((16, false), &[5], &[(383, &LEAST)], false),
    ((16, false), &[], &[(383, &LEAST)], true),
    ((16, false), &[4, 5], &[(383, &LEAST)], false),
    // After one that fits.
    ((16, false), &[5], &[(320, &OF_11), (320, &OF_12)], false),
    // With error control there is room for 9 octets.
    ((16, true), &[5], &[(320, &COMMAND)], false),
    ((17, true), &[5], &[(320, &COMMAND)], true),
];

// Whether the report on a frame is that of its row.
fn is_told(receiver: &mut Receiver, delivered: &mut Delivered, row: &Frame) -> Result<bool, Stop> {
    let (frame, wanted, found) = row;
    let step = step_of(receiver, frame, delivered)?;
    Ok(counts(&step) == *wanted && anomalies(&step) == *found)
}

// Whether nothing is held on virtual channel 5, whose CLCW is this.
fn holds_nothing(receiver: &Receiver, word: &[u8; 4]) -> bool {
    for map in 0..64 {
        if held(receiver, 5, map) != (0, false) {
            return false;
        }
    }
    clcw(receiver, 5) == *word
}

// Whether each report is right, and so are the packets and the CLCW after the last frame.
fn is_so(rt: &impl Abort, alloc: Global, case: &Case) -> Result<bool, Stop> {
    let (_, plain, frames, packets, word) = case;
    let mut receiver = receiver_with(alloc, &Starts::all(0), set_of(plain))?;
    let mut delivered = none(alloc);
    for row in *frames {
        passes(rt, row, is_told(&mut receiver, &mut delivered, row));
    }
    Ok(are_all(&delivered, packets) && holds_nothing(&receiver, word))
}

#[test]
fn units_without_segment_headers(rt: HostRuntime) {
    for case in &CASES {
        passes(&rt, &case.0, is_so(&rt, rt.alloc(), case));
    }
}

// Whether packets fit as they should, with these virtual channels without segment headers.
fn fit(
    alloc: Global,
    (max, fecf): (u16, bool),
    plain: &[u8],
    packets: &[(u16, &[u8])],
    wanted: bool,
) -> Result<bool, Stop> {
    let shape = shape(max, fecf)?;
    let delivered = delivered_of(alloc, packets)?;
    Ok(fits_tc(&shape, &set_of(plain), &delivered) == wanted)
}

fn have(alloc: Global, packets: &[(u16, &[u8])], form: &[u8]) -> Result<bool, Stop> {
    let channels = (&Starts::all(0), &set_of(&[5]));
    is_form(alloc, (24, false), channels, packets, form)
}

#[test]
fn packets_without_segment_headers_have_frames_of_their_own(rt: HostRuntime) {
    for (packets, form) in &FORMS {
        passes(&rt, packets, have(rt.alloc(), packets, form));
    }
    for (format, plain, packets, wanted) in &FITS {
        let outcome = fit(rt.alloc(), *format, plain, packets, *wanted);
        passes(&rt, &(plain, packets), outcome);
    }
}
