//! Listings of TM frames.
use super::support::engines::{ALL, Kind, Link, Verb};
use super::support::recordings::{TM_FRAME, TM_TEN_SHOWN};
use super::support::rows::{Stop, passes};
use super::support::run::writes;
use std::alloc::Global;

const SHOW: &str = "sllink show tm --scid 1 --tm-length 32";

// The header of a frame and the octets at its end, and its line.
const LISTINGS: [([u8; 6], [u8; 4], &str); 8] = [
    ([0x00, 0x10, 0, 0, 0x18, 0], [0; 4], TM_TEN_SHOWN),
    (
        [0x00, 0x11, 0, 0, 0x18, 0],
        [1, 0, 0x28, 5],
        "0 frame vc 0 mc 0 vcc 0 first 0 \
        clcw 01002805 vc 0 lockout 1 wait 0 retransmit 1 farmb 0 vr 5\n",
    ),
    (
        [0x00, 0x11, 0, 0, 0x18, 0],
        [0x80, 0, 0, 0],
        "0 frame vc 0 mc 0 vcc 0 first 0 ocf 80000000\n",
    ),
    (
        [0x00, 0x1E, 77, 200, 0x1F, 0xFF],
        [0; 4],
        "0 frame vc 7 mc 77 vcc 200 none\n",
    ),
    (
        [0x00, 0x10, 9, 10, 0x1F, 0xFE],
        [0; 4],
        "0 frame vc 0 mc 9 vcc 10 idle\n",
    ),
    (
        [0x00, 0x10, 0, 0, 0x9F, 0xFE],
        [0; 4],
        "0 frame vc 0 mc 0 vcc 0 opaque\n",
    ),
    ([0x00, 0x20, 0, 0, 0x18, 0], [0; 4], "0 skip spacecraft\n"),
    ([0x40, 0x10, 0, 0, 0x18, 0], [0; 4], "0 skip version\n"),
];

// Frames with a wrong error control field, and with an operational control field and a right one.
const WITH_FECF: [u8; 68] = [
    0x00, 0x10, 0x00, 0x00, 0x18, 0x00, 0x00, 0x01, 0xC0, 0x00, 0x00, 0x03, 0xAA, 0xBB, 0xCC, 0xDD,
    0x07, 0xFF, 0xC0, 0x00, 0x00, 0x09, 0x00, 0x00, 0x00, 0x00, 0x00, 0x00, 0x00, 0x00, 0x00, 0x00,
    0x5E, 0x0D, //
    0x00, 0x11, 0x00, 0x00, 0x18, 0x00, 0x00, 0x01, 0xC0, 0x00, 0x00, 0x03, 0xAA, 0xBB, 0xCC, 0xDD,
    0x07, 0xFF, 0xC0, 0x00, 0x00, 0x09, 0x00, 0x00, 0x00, 0x00, 0x00, 0x00, 0x01, 0x00, 0x28, 0x05,
    0x79, 0x7B,
];

const WITH_FECF_SHOWN: &[u8] = b"0 skip fecf\n34 frame vc 0 mc 0 vcc 0 first 0 \
    clcw 01002805 vc 0 lockout 1 wait 0 retransmit 1 farmb 0 vr 5\n";

// A frame, one of another version, and a remainder.
const COUNTED: [u8; 72] = [
    0x00, 0x10, 0x00, 0x00, 0x18, 0x00, 0x00, 0x01, 0xC0, 0x00, 0x00, 0x03, 0xAA, 0xBB, 0xCC, 0xDD,
    0x07, 0xFF, 0xC0, 0x00, 0x00, 0x09, 0x00, 0x00, 0x00, 0x00, 0x00, 0x00, 0x00, 0x00, 0x00, 0x00,
    0x40, 0x10, 0x00, 0x00, 0x18, 0x00, 0x00, 0x01, 0xC0, 0x00, 0x00, 0x03, 0xAA, 0xBB, 0xCC, 0xDD,
    0x07, 0xFF, 0xC0, 0x00, 0x00, 0x09, 0x00, 0x00, 0x00, 0x00, 0x00, 0x00, 0x00, 0x00, 0x00, 0x00,
    0x00, 0x10, 0x00, 0x00, 0x18, 0x00, 0x00, 0x01,
];

const COUNTED_SHOWN: &[u8] = b"0 frame vc 0 mc 0 vcc 0 first 0\n32 skip version\n64 rest 8\n";

// A frame and a remainder.
const WITH_REST: [u8; 40] = [
    0x00, 0x10, 0x00, 0x00, 0x18, 0x00, 0x00, 0x01, 0xC0, 0x00, 0x00, 0x03, 0xAA, 0xBB, 0xCC, 0xDD,
    0x07, 0xFF, 0xC0, 0x00, 0x00, 0x09, 0x00, 0x00, 0x00, 0x00, 0x00, 0x00, 0x00, 0x00, 0x00, 0x00,
    0x00, 0x10, 0x00, 0x00, 0x18, 0x00, 0x00, 0x01,
];

const WITH_REST_SHOWN: &[u8] = b"0 frame vc 0 mc 0 vcc 0 first 0\n32 rest 8\n";

// Length, error control and limit, a recording, its totals and its listing.
const TOTALS: [((u16, bool, u64), &[u8], [u64; 7], &[u8]); 2] = [
    (
        (34, true, 1000),
        &WITH_FECF,
        [68, 2, 1, 0, 0, 0, 0],
        WITH_FECF_SHOWN,
    ),
    (
        (32, false, 72),
        &COUNTED,
        [72, 2, 1, 8, 0, 0, 0],
        COUNTED_SHOWN,
    ),
];

// `TM_FRAME` with this header and these octets at its end.
fn frame_with(header: &[u8; 6], end: &[u8; 4]) -> [u8; 32] {
    let mut frame = TM_FRAME;
    frame[..6].copy_from_slice(header);
    frame[28..].copy_from_slice(end);
    frame
}

// Whether this is the line of such a frame.
fn is_line(alloc: Global, header: &[u8; 6], end: &[u8; 4], listing: &str) -> Result<bool, Stop> {
    let frame = frame_with(header, end);
    is_listed(alloc, &frame, listing.as_bytes())
}

fn is_listed(alloc: Global, recording: &[u8], listing: &[u8]) -> Result<bool, Stop> {
    Ok(writes(alloc, SHOW, recording, ALL, (0, listing))?)
}

#[test]
fn frames_are_listed(rt: HostRuntime) {
    for (header, end, listing) in &LISTINGS {
        passes(&rt, listing, is_line(rt.alloc(), header, end, listing));
    }
    passes(
        &rt,
        &"a remainder",
        is_listed(rt.alloc(), &WITH_REST, WITH_REST_SHOWN),
    );
    passes(&rt, &"no octets", is_listed(rt.alloc(), &[], &[]));
}

// Whether a recording has this listing and these totals, where all goes octet by octet.
fn is_counted(
    alloc: Global,
    (length, fecf, limit): (u16, bool, u64),
    recording: &[u8],
    counts: [u64; 7],
    listing: &[u8],
) -> Result<bool, Stop> {
    let link = Link::new(Kind::Tm, length, fecf, 0, limit)?;
    let answer = link.answer(alloc, Verb::Show, recording, 1)?;
    Ok(answer.is(counts, listing))
}

#[test]
fn totals_are_counted(rt: HostRuntime) {
    for (format, recording, counts, listing) in &TOTALS {
        let outcome = is_counted(rt.alloc(), *format, recording, *counts, listing);
        passes(&rt, format, outcome);
    }
}
