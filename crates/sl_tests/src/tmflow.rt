//! Frames of known octets, and the packets that end in them, which follow from the standard's bits.
mod fault;
mod form;

use crate::support::packets::{has, none};
use crate::support::recordings::{TELEMETRY, TM_FRAME};
use crate::support::rows::{Stop, holds, passes};
use crate::support::sinks::Counts;
use crate::support::tm::{ended, extractor, frame, held, is_form, shape, step_of};
use sl_packet::{Delivered, PacketSink};
use sl_tmflow::{Extractor, PacketCounter, TmStep};
use std::alloc::Global;

// A packet of 23 octets.
const OF_23: [u8; 23] = [
    0x00, 0x02, 0xC0, 0x05, 0x00, 0x10, //
    0x11, 0x11, 0x11, 0x11, 0x11, 0x11, 0x11, 0x11, 0x11, 0x11, 0x11, 0x11, 0x11, 0x11, 0x11, 0x11,
    0x11,
];

// Spacecraft 1, virtual channel 0, counts 0: that packet, and the first three of a packet of ten.
const BEGUN: [u8; 32] = [
    0x00, 0x10, 0x00, 0x00, 0x18, 0x00, //
    0x00, 0x02, 0xC0, 0x05, 0x00, 0x10, //
    0x11, 0x11, 0x11, 0x11, 0x11, 0x11, 0x11, 0x11, 0x11, 0x11, 0x11, 0x11, 0x11, 0x11, 0x11, 0x11,
    0x11, //
    0x00, 0x03, 0xC0,
];

// Counts 1, first header pointer 2046.
const IDLE: [u8; 32] = [
    0x00, 0x10, 0x01, 0x01, 0x1F, 0xFE, //
    0x55, 0x55, 0x55, 0x55, 0x55, 0x55, 0x55, 0x55, 0x55, 0x55, 0x55, 0x55, 0x55, 0x55, 0x55, 0x55,
    0x55, 0x55, 0x55, 0x55, 0x55, 0x55, 0x55, 0x55, 0x55, 0x55,
];

// Counts 2, first header pointer 7: the rest of that packet, `TELEMETRY` and an idle packet.
const ENDED: [u8; 32] = [
    0x00, 0x10, 0x02, 0x02, 0x18, 0x07, //
    0x00, 0x00, 0x03, 0x01, 0x02, 0x03, 0x04, //
    0x00, 0x01, 0xC0, 0x00, 0x00, 0x03, 0xAA, 0xBB, 0xCC, 0xDD, //
    0x07, 0xFF, 0xC0, 0x00, 0x00, 0x02, 0x00, 0x00, 0x00,
];

// Counts 255, first header pointer 10: ten octets of a packet that no frame began, a packet of ten
// octets, and octets of version 1.
const FOREIGN: [u8; 32] = [
    0x00, 0x10, 0xFF, 0xFF, 0x18, 0x0A, //
    0x44, 0x44, 0x44, 0x44, 0x44, 0x44, 0x44, 0x44, 0x44, 0x44, //
    0x00, 0x01, 0xC0, 0x00, 0x00, 0x03, 0xAA, 0xBB, 0xCC, 0xDD, //
    0x20, 0x01, 0xC0, 0x00, 0x00, 0x03,
];

// The packet of two frames.
const SPLIT: [u8; 10] = [0x00, 0x03, 0xC0, 0x00, 0x00, 0x03, 0x01, 0x02, 0x03, 0x04];

// The normal form of all three, and that of the two others.
const THROUGH: [u8; 64] = [
    0x00, 0x10, 0x00, 0x00, 0x18, 0x00, //
    0x00, 0x02, 0xC0, 0x05, 0x00, 0x10, //
    0x11, 0x11, 0x11, 0x11, 0x11, 0x11, 0x11, 0x11, 0x11, 0x11, 0x11, 0x11, 0x11, 0x11, 0x11, 0x11,
    0x11, //
    0x00, 0x03, 0xC0, //
    0x00, 0x10, 0x01, 0x01, 0x18, 0x07, //
    0x00, 0x00, 0x03, 0x01, 0x02, 0x03, 0x04, //
    0x00, 0x01, 0xC0, 0x00, 0x00, 0x03, 0xAA, 0xBB, 0xCC, 0xDD, //
    0x07, 0xFF, 0xC0, 0x00, 0x00, 0x02, 0x00, 0x00, 0x00,
];

const NORMAL_FORM: [u8; 64] = [
    0x00, 0x10, 0x00, 0x00, 0x18, 0x00, //
    0x00, 0x02, 0xC0, 0x05, 0x00, 0x10, //
    0x11, 0x11, 0x11, 0x11, 0x11, 0x11, 0x11, 0x11, 0x11, 0x11, 0x11, 0x11, 0x11, 0x11, 0x11, 0x11,
    0x11, //
    0x00, 0x01, 0xC0, //
    0x00, 0x10, 0x01, 0x01, 0x18, 0x07, //
    0x00, 0x00, 0x03, 0xAA, 0xBB, 0xCC, 0xDD, //
    0x07, 0xFF, 0xC0, 0x00, 0x00, 0x0C, 0, 0, 0, 0, 0, 0, 0, 0, 0, 0, 0, 0, 0,
];

// A frame, and how many packets and idle ones end in it.
type Frame<'a> = (&'a [u8; 32], (u32, u32));

// Frames, the packets of virtual channel 0 that they bring, and the normal form of these.
static BROUGHT: [(&str, &[Frame], &[&[u8]], &[u8]); 3] = [
    (
        "a packet that goes on past an idle frame",
        &[(&BEGUN, (1, 0)), (&IDLE, (0, 0)), (&ENDED, (2, 1))],
        &[&OF_23, &SPLIT, &TELEMETRY],
        &THROUGH,
    ),
    (
        "a missing frame that breaks a packet",
        &[(&BEGUN, (1, 0)), (&ENDED, (1, 1))],
        &[&OF_23, &TELEMETRY],
        &NORMAL_FORM,
    ),
    (
        "a packet of one frame",
        &[(&TM_FRAME, (1, 1))],
        &[&TELEMETRY],
        &TM_FRAME,
    ),
];

// A frame; the count expected where there is a gap, the octets that are dropped, and whether a
// start is of another version; the packets and the idle ones that end in the frame; and the octets
// that are held after it.
type Row<'a> = (&'a [u8; 32], (Option<u8>, u32, bool), (u32, u32), u32);

// One frame after another.
static ANOMALIES: [Row; 6] = [
    (&FOREIGN, (None, 0, true), (1, 0), 0),
    (&BEGUN, (None, 0, false), (1, 0), 3),
    (&ENDED, (Some(1), 3, false), (1, 1), 0),
    (&FOREIGN, (Some(3), 0, true), (1, 0), 0),
    // After count 255 count 0 is expected. An idle packet isn't foreign.
    (&FOREIGN, (Some(0), 0, true), (1, 0), 0),
    (&TM_FRAME, (None, 0, false), (1, 1), 0),
];

// Whether each of these frames ends its number of packets, and of idle ones.
fn end<S: PacketSink>(
    extractor: &mut Extractor,
    sink: &mut S,
    frames: &[Frame],
) -> Result<bool, Stop> {
    for (frame, wanted) in frames {
        if ended(extractor, frame, sink)? != *wanted {
            return Ok(false);
        }
    }
    Ok(true)
}

// Whether frames bring these packets of virtual channel 0 alone, with this normal form.
fn bring(alloc: Global, frames: &[Frame], packets: &[&[u8]], form: &[u8]) -> Result<bool, Stop> {
    let mut extractor = extractor(alloc);
    let mut delivered = none(alloc);
    let is_ended = end(&mut extractor, &mut delivered, frames)?;
    let are_packets = has(&delivered, 0, packets) && has(&delivered, 1, &[]);
    Ok(is_ended && are_packets && is_form(alloc, &delivered, form)?)
}

#[test]
fn packets_of_frames_and_their_normal_form(rt: HostRuntime) {
    for (name, frames, packets, form) in &BROUGHT {
        passes(&rt, name, bring(rt.alloc(), frames, packets, form));
    }
}

// Whether this is the report of a row.
fn is_of_row(step: TmStep, row: &Row) -> bool {
    let (_, anomalies, counts, _) = row;
    let is_reported = (step.gap(), step.dropped(), step.foreign()) == *anomalies;
    is_reported && (step.packets(), step.idle()) == *counts
}

// Whether the report on a frame is that of its row.
fn is_told(extractor: &mut Extractor, sink: &mut Delivered, row: &Row) -> Result<bool, Stop> {
    let (frame, _, _, octets) = row;
    let step = step_of(extractor, frame, sink)?;
    Ok(is_of_row(step, row) && held(extractor, 0) == *octets && held(extractor, 1) == 0)
}

#[test]
fn anomalies_of_a_frame_are_reported(rt: HostRuntime) {
    let mut extractor = extractor(rt.alloc());
    let mut delivered = none(rt.alloc());
    for row in &ANOMALIES {
        passes(&rt, row, is_told(&mut extractor, &mut delivered, row));
    }
}

// Whether a counter's report on a frame is that of its row.
fn is_counted(counter: &mut PacketCounter, row: &Row) -> Result<bool, Stop> {
    let (octets, _, _, held) = row;
    let step = counter.frame(&frame(&shape(32, false)?, *octets)?);
    Ok(is_of_row(step, row) && counter.held(0) == *held && counter.held(1) == 0)
}

#[test]
fn a_counter_reports_what_an_extractor_does(rt: HostRuntime) {
    let mut counter = PacketCounter::new();
    for row in &ANOMALIES {
        passes(&rt, row, is_counted(&mut counter, row));
    }
}

// A packet that lies in its frame is handed over from there.
#[test]
fn packets_of_one_frame_take_no_memory(rt: HostRuntime) -> Result<(), Stop> {
    let mut extractor = extractor(rt.alloc());
    let mut sink = Counts { packets: 0 };
    let ended = ended(&mut extractor, &TM_FRAME, &mut sink)?;
    holds(&rt, &TM_FRAME, ended == (1, 1) && sink.packets == 1);
    Ok(())
}
