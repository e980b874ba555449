//! The callers, run.
mod forms;

use crate::support::cop::window;
use crate::support::packets::has;
use crate::support::recordings::{COMMAND, LEAST, TC_FRAME, TELEMETRY, TM_FRAME};
use crate::support::rows::{Stop, passes};
use crate::support::tc;
use crate::support::tm::{frame, shape};
use sl_callers::extractor::deliver;
use sl_callers::receiver::receive;
use sl_callers::{next_step, two_steps};
use sl_cop::{Farm, FarmEvent, Starts, Verdict};
use std::alloc::Global;

// `TM_FRAME` on virtual channel 1.
const ON_1: [u8; 32] = [
    0x00, 0x12, 0x00, 0x00, 0x18, 0x00, //
    0x00, 0x01, 0xC0, 0x00, 0x00, 0x03, 0xAA, 0xBB, 0xCC, 0xDD, //
    0x07, 0xFF, 0xC0, 0x00, 0x00, 0x09, 0, 0, 0, 0, 0, 0, 0, 0, 0, 0,
];

// Frames of type AD, each with a packet: N(S) 1 and MAP 5 on virtual channel 0, N(S) 7 on virtual
// channel 2, without a segment header, and N(S) 3 there.
const ON_MAP_5: [u8; 13] = [
    0x00, 0x01, 0x00, 0x0C, 0x01, 0xC5, //
    0x10, 0x02, 0xC0, 0x01, 0x00, 0x00, 0xEE,
];

const ON_2: [u8; 12] = [
    0x00, 0x01, 0x08, 0x0B, 0x07, //
    0x10, 0x02, 0xC0, 0x01, 0x00, 0x00, 0xEE,
];

const LATE_ON_2: [u8; 12] = [
    0x00, 0x01, 0x08, 0x0B, 0x03, //
    0x10, 0x02, 0xC0, 0x01, 0x00, 0x00, 0xEE,
];

// Whether a FARM-1 that is lent stays, and its next step is that of the table.
fn is_left_as_it_was() -> Result<bool, Stop> {
    let lent = Farm::new(window(10)?, 255);
    let (verdict, next) = next_step(&lent, FarmEvent::Ad(255));
    Ok(verdict == Verdict::Accept && next.vr() == 0 && lent.vr() == 255)
}

// Whether the second of two frames is refused, since the first has locked FARM-1 out.
fn is_decided() -> Result<bool, Stop> {
    let lent = window(10)?;
    let verdicts = two_steps(&lent, 0, FarmEvent::Ad(5), FarmEvent::Ad(0));
    Ok(verdicts == (Verdict::Outside, Verdict::Refused))
}

#[test]
fn a_lent_farm_takes_the_step_of_the_table(rt: HostRuntime) {
    passes(&rt, &"N(S) 255 at V(R) 255", is_left_as_it_was());
}

#[test]
fn a_lent_window_decides_a_run(rt: HostRuntime) {
    passes(&rt, &"N(S) 5, then 0, at V(R) 0", is_decided());
}

// Whether frames of two virtual channels deliver their packets, each on its own.
fn are_delivered(alloc: Global) -> Result<bool, Stop> {
    let shape = shape(32, false)?;
    let first = frame(&shape, &TM_FRAME)?;
    let second = frame(&shape, &ON_1)?;
    let third = frame(&shape, &TM_FRAME)?;
    let delivered = deliver(alloc, &[first, second, third])?;
    let on_0 = has(&delivered, 0, &[&TELEMETRY, &TELEMETRY]);
    Ok(on_0 && has(&delivered, 1, &[&TELEMETRY]) && has(&delivered, 2, &[]))
}

#[test]
fn frames_one_after_another_deliver_their_packets(rt: HostRuntime) {
    passes(&rt, &TM_FRAME, are_delivered(rt.alloc()));
}

// Whether frames of two virtual channels deliver what FARM-1 lets through, each packet on its MAP.
fn are_received(alloc: Global) -> Result<bool, Stop> {
    let window = window(10)?;
    let starts = Starts::all(0).with(2, 7);
    let shape = tc::shape(1024, false)?;
    let frames = [
        tc::frame(&shape, &TC_FRAME)?,
        tc::frame(&shape, &ON_MAP_5)?,
        tc::frame(&shape, &LATE_ON_2)?,
        tc::frame(&shape, &ON_2)?,
    ];
    let delivered = receive(alloc, window, &starts, tc::set_of(&[2]), &frames)?;
    let on_0 = has(&delivered, 0, &[&COMMAND]) && has(&delivered, 5, &[&LEAST]);
    Ok(on_0 && has(&delivered, 128, &[&LEAST]) && has(&delivered, 1, &[]))
}

#[test]
fn frames_one_after_another_are_received(rt: HostRuntime) {
    passes(&rt, &TC_FRAME, are_received(rt.alloc()));
}
