//! What FARM-1 answers to frames, and the packets that end with their units.
use super::{
    AGAIN_ON_2, FIRST_OF_3, FIRST_ON_1, FIRST_ON_2, LAST_OF_3, LAST_ON_1, LAST_ON_2, MIDDLE_OF_3,
    STRAY_ON_1,
};
use crate::support::packets::{Packets, are_all, none};
use crate::support::recordings::{COMMAND, LEAST, LONGER, TC_FRAME};
use crate::support::rows::{Stop, holds, passes};
use crate::support::sinks::Counts;
use crate::support::tc::{
    clcw, farms, frame, received, receiver, receiver_with, set_of, shape, step_of,
};
use sl_cop::{Starts, Verdict};
use sl_packet::Delivered;
use sl_tcflow::{Farms, Receiver};
use std::alloc::Global;
use std::process::Abort;

// The frame of type BD with the same unit as `TC_FRAME`.
const BYPASSING: [u8; 16] = [
    0x20, 0x01, 0x00, 0x0F, 0x00, 0xC0, //
    0x10, 0x01, 0xC0, 0x00, 0x00, 0x03, 0xAA, 0xBB, 0xCC, 0xDD,
];

const SET_VR_5: [u8; 8] = [0x30, 0x01, 0x00, 0x07, 0x00, 0x82, 0x00, 0x05];

const UNLOCK: [u8; 6] = [0x30, 0x01, 0x00, 0x05, 0x00, 0x00];

// An unsegmented unit with a packet and an idle one.
const WITH_IDLE: [u8; 20] = [
    0x00, 0x01, 0x00, 0x13, 0x00, 0xC0, //
    0x10, 0x02, 0xC0, 0x01, 0x00, 0x00, 0xEE, //
    0x07, 0xFF, 0xC0, 0x00, 0x00, 0x00, 0x00,
];

// Frames of type AD with N(S) 250 and 255, that carry one octet.
const OCTET_250: [u8; 7] = [0x00, 0x01, 0x00, 0x06, 250, 0xC0, 0x00];

const OCTET_255: [u8; 7] = [0x00, 0x01, 0x00, 0x06, 255, 0xC0, 0x00];

// Frames of type AD with N(S) 4, 251 and 5, that carry a packet.
const PACKET_4: [u8; 16] = [
    0x00, 0x01, 0x00, 0x0F, 4, 0xC0, //
    0x10, 0x01, 0xC0, 0x00, 0x00, 0x03, 0xAA, 0xBB, 0xCC, 0xDD,
];

const PACKET_251: [u8; 16] = [
    0x00, 0x01, 0x00, 0x0F, 251, 0xC0, //
    0x10, 0x01, 0xC0, 0x00, 0x00, 0x03, 0xAA, 0xBB, 0xCC, 0xDD,
];

const PACKET_5: [u8; 16] = [
    0x00, 0x01, 0x00, 0x0F, 5, 0xC0, //
    0x10, 0x01, 0xC0, 0x00, 0x00, 0x03, 0xAA, 0xBB, 0xCC, 0xDD,
];

// A frame, the verdict on it, and the packets and the idle ones that end with its unit.
type Frame<'a> = (&'a [u8], (Verdict, u32, u32));

// The CLCW of a virtual channel.
type Word = (u8, [u8; 4]);

// The V(R) with which each virtual channel begins, frames in order, and what there is after them.
type Case<'a> = (&'a str, u8, &'a [Frame<'a>], &'a [Packets<'a>], &'a [Word]);

static CASES: [Case; 8] = [
    ("no frame", 0, &[], &[], &[(0, [0x01, 0x00, 0x00, 0x00])]),
    (
        "a whole unit",
        0,
        &[(&TC_FRAME, (Verdict::Accept, 1, 0))],
        &[(0, &[&COMMAND])],
        &[
            (0, [0x01, 0x00, 0x00, 0x01]),
            (63, [0x01, 0xFC, 0x00, 0x00]),
        ],
    ),
    (
        "an idle packet, which is counted apart",
        0,
        &[(&WITH_IDLE, (Verdict::Accept, 1, 1))],
        &[(0, &[&LEAST])],
        &[],
    ),
    (
        "frames that are not accepted",
        0,
        &[
            (&PACKET_4, (Verdict::Early, 0, 0)),
            (&PACKET_251, (Verdict::Late, 0, 0)),
            (&PACKET_5, (Verdict::Outside, 0, 0)),
            (&TC_FRAME, (Verdict::Refused, 0, 0)),
        ],
        &[],
        &[(0, [0x01, 0x00, 0x28, 0x00])],
    ),
    (
        "a frame that bypasses the lockout",
        0,
        &[
            (&OCTET_250, (Verdict::Outside, 0, 0)),
            (&SET_VR_5, (Verdict::Command, 0, 0)),
            (&BYPASSING, (Verdict::Accept, 1, 0)),
            (&UNLOCK, (Verdict::Command, 0, 0)),
        ],
        &[(0, &[&COMMAND])],
        &[(0, [0x01, 0x00, 0x06, 0x00])],
    ),
    (
        "a series on each MAP",
        0,
        &[
            (STRAY_ON_1, (Verdict::Accept, 0, 0)),
            (FIRST_ON_1, (Verdict::Accept, 0, 0)),
            (FIRST_ON_2, (Verdict::Accept, 0, 0)),
            (LAST_ON_1, (Verdict::Accept, 1, 0)),
            (AGAIN_ON_2, (Verdict::Accept, 0, 0)),
            (LAST_ON_2, (Verdict::Accept, 1, 0)),
        ],
        &[(1, &[&COMMAND]), (2, &[&LEAST])],
        &[],
    ),
    (
        "a FARM-1 of each virtual channel",
        0,
        &[
            (FIRST_OF_3, (Verdict::Accept, 0, 0)),
            (&TC_FRAME, (Verdict::Accept, 1, 0)),
            (MIDDLE_OF_3, (Verdict::Accept, 0, 0)),
            (LAST_OF_3, (Verdict::Accept, 1, 0)),
        ],
        &[(0, &[&COMMAND]), (320, &[&LONGER])],
        &[(0, [0x01, 0x00, 0x00, 0x01]), (5, [0x01, 0x14, 0x00, 0x03])],
    ),
    (
        "another V(R) to begin with",
        255,
        &[
            (FIRST_OF_3, (Verdict::Early, 0, 0)),
            (MIDDLE_OF_3, (Verdict::Early, 0, 0)),
            (LAST_OF_3, (Verdict::Early, 0, 0)),
            (&OCTET_255, (Verdict::Accept, 0, 0)),
            (&TC_FRAME, (Verdict::Accept, 1, 0)),
        ],
        &[(0, &[&COMMAND])],
        &[],
    ),
];

// Whether a frame brings this.
fn brings(receiver: &mut Receiver, delivered: &mut Delivered, row: &Frame) -> Result<bool, Stop> {
    let (frame, wanted) = row;
    Ok(received(receiver, frame, delivered)? == *wanted)
}

fn report(receiver: &Receiver, words: &[Word]) -> bool {
    for (vc, word) in words {
        if *vc > 63 || clcw(receiver, *vc) != *word {
            return false;
        }
    }
    true
}

// Whether each frame of a case brings what it should, and packets and CLCWs after them are right.
fn is_so(rt: &impl Abort, alloc: Global, case: &Case) -> Result<bool, Stop> {
    let (_, vr, frames, packets, words) = case;
    let mut receiver = receiver(alloc, *vr)?;
    let mut delivered = none(alloc);
    for row in *frames {
        passes(rt, row, brings(&mut receiver, &mut delivered, row));
    }
    Ok(are_all(&delivered, packets) && report(&receiver, words))
}

// Whether FARM-1 of its virtual channel gives a frame its verdict.
fn is_stepped(farms: &mut Farms, row: &Frame) -> Result<bool, Stop> {
    let (octets, (verdict, _, _)) = row;
    let shape = shape(1024, false)?;
    let frame = frame(&shape, octets)?;
    Ok(farms.step(&frame) == *verdict)
}

fn farms_report(farms: &Farms, words: &[Word]) -> bool {
    for (vc, word) in words {
        if *vc > 63 || farms.clcw(*vc).write() != *word {
            return false;
        }
    }
    true
}

// Whether the same holds of the FARM-1s alone.
fn is_so_of_farms(rt: &impl Abort, case: &Case) -> Result<bool, Stop> {
    let (_, vr, frames, _, words) = case;
    let mut farms = farms(*vr)?;
    for row in *frames {
        passes(rt, row, is_stepped(&mut farms, row));
    }
    Ok(farms_report(&farms, words))
}

// A frame on virtual channel 0, whether this is without segment headers, and the MAP of the unit.
type Mapped<'a> = (&'a [u8], bool, u8);

static MAPS: [Mapped; 5] = [
    (FIRST_ON_1, false, 1),
    (LAST_ON_2, false, 2),
    (FIRST_ON_1, true, 0),
    (&UNLOCK, false, 0),
    (&SET_VR_5, true, 0),
];

fn has_map(alloc: Global, row: &Mapped) -> Result<bool, Stop> {
    let (frame, is_plain, map) = row;
    let plain: &[u8] = if *is_plain { &[0] } else { &[] };
    let mut receiver = receiver_with(alloc, &Starts::all(0), set_of(plain))?;
    let step = step_of(&mut receiver, frame, &mut Counts { packets: 0 })?;
    Ok(step.map() == *map)
}

#[test]
fn steps_name_maps(rt: HostRuntime) {
    for row in &MAPS {
        passes(&rt, row, has_map(rt.alloc(), row));
    }
}

#[test]
fn frames_are_received_and_step_farms(rt: HostRuntime) {
    for case in &CASES {
        passes(&rt, &case.0, is_so(&rt, rt.alloc(), case));
        passes(&rt, &case.0, is_so_of_farms(&rt, case));
    }
}

// A packet that lies in its unit is handed over from there.
#[test]
fn packets_of_one_unit_take_no_memory(rt: HostRuntime) -> Result<(), Stop> {
    let mut receiver = receiver(rt.alloc(), 0)?;
    let mut sink = Counts { packets: 0 };
    let found = received(&mut receiver, &TC_FRAME, &mut sink)?;
    holds(
        &rt,
        &TC_FRAME,
        found == (Verdict::Accept, 1, 0) && sink.packets == 1,
    );
    Ok(())
}
