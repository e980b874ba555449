//! The anomalies of the units of frames of known octets, and what is held after them.
use super::long_series::segments_received;
use super::{
    AGAIN_ON_2, FIRST_OF_3, FIRST_ON_1, FIRST_ON_2, LAST_OF_3, LAST_ON_1, LAST_ON_2, MIDDLE_OF_3,
    STRAY_ON_1,
};
use crate::support::packets::{has, longest, none};
use crate::support::recordings::{LEAST, LONGER};
use crate::support::rows::{Stop, holds, passes};
use crate::support::tc::{anomalies_of, counter, frame, held, receiver, shape, step_of};
use sl_packet::Delivered;
use sl_tcflow::{Receiver, UnitCounter};
use std::alloc::Global;
use std::process::Abort;

// A first segment without octets.
const EMPTY_FIRST: [u8; 6] = [0x00, 0x01, 0x00, 0x05, 0x00, 0x40];

// An unsegmented unit with a packet and one octet more.
const WITH_TAIL: [u8; 14] = [
    0x00, 0x01, 0x00, 0x0D, 0x00, 0xC0, //
    0x10, 0x02, 0xC0, 0x01, 0x00, 0x00, 0xEE, 0x77,
];

// A last segment of one octet, in a frame of type BD.
const LAST_BYPASSING: [u8; 7] = [0x20, 0x01, 0x00, 0x06, 0x00, 0x80, 0x33];

// A first segment without octets on virtual channel 63 and MAP 63, in a frame of type BD.
const FIRST_ON_LAST: [u8; 6] = [0x20, 0x01, 0xFC, 0x05, 0x00, 0x7F];

// A frame, the anomalies of its unit, and a virtual channel, a MAP and what is held there after it.
type Frame<'a> = (
    &'a [u8],
    (bool, Option<u32>, bool, u32),
    (u8, u8, (u32, bool)),
);

// The frame of that segment after the most octets that a series may have.
const TOO_LONG: Frame = (&LAST_BYPASSING, (false, None, true, 0), (0, 0, (0, false)));

// Frames in order, and the packets of a channel after them.
static SERIES: [(&str, &[Frame], (u16, &[&[u8]])); 5] = [
    (
        "no frame, and a first segment without octets",
        &[(&EMPTY_FIRST, (false, None, false, 0), (0, 0, (0, true)))],
        (0, &[]),
    ),
    (
        "no octets on another channel",
        &[(&EMPTY_FIRST, (false, None, false, 0), (63, 63, (0, false)))],
        (0, &[]),
    ),
    (
        "series on two MAPs",
        &[
            (STRAY_ON_1, (true, None, false, 0), (0, 1, (0, false))),
            (FIRST_ON_1, (false, None, false, 0), (0, 1, (5, true))),
            (FIRST_ON_2, (false, None, false, 0), (0, 2, (4, true))),
            (LAST_ON_1, (false, None, false, 0), (0, 1, (0, false))),
            (AGAIN_ON_2, (false, Some(4), false, 0), (0, 2, (5, true))),
            (LAST_ON_2, (false, None, false, 0), (0, 2, (0, false))),
        ],
        (2, &[&LEAST]),
    ),
    (
        "a packet in three segments",
        &[
            (FIRST_OF_3, (false, None, false, 0), (5, 0, (10, true))),
            (MIDDLE_OF_3, (false, None, false, 0), (5, 0, (20, true))),
            (LAST_OF_3, (false, None, false, 0), (5, 0, (0, false))),
        ],
        (320, &[&LONGER]),
    ),
    (
        "an octet that is left",
        &[(&WITH_TAIL, (false, None, false, 1), (0, 0, (0, false)))],
        (0, &[&LEAST]),
    ),
];

// Whether the report on a frame is that of its row, and this is held after it.
fn is_told(receiver: &mut Receiver, delivered: &mut Delivered, row: &Frame) -> Result<bool, Stop> {
    let (frame, told, (vc, map, octets)) = row;
    if *vc > 63 || *map > 63 {
        return Err(Stop::Absent);
    }
    let anomalies = anomalies_of(receiver, frame, delivered)?;
    Ok(anomalies == *told && held(receiver, *vc, *map) == *octets)
}

// Whether a counter's report on a frame is what a receiver answers, and this is held after it.
fn is_counted(
    counter: &mut UnitCounter,
    receiver: &mut Receiver,
    delivered: &mut Delivered,
    row: &Frame,
) -> Result<bool, Stop> {
    let (octets, _, (vc, map, held)) = row;
    if *vc > 63 || *map > 63 {
        return Err(Stop::Absent);
    }
    let step = counter.frame(&frame(&shape(1024, false)?, octets)?)?;
    let is_held = (counter.held(*vc, *map), counter.is_open(*vc, *map)) == *held;
    let open_from = counter.none_open_from();
    let is_told = step == step_of(receiver, octets, delivered)?;
    Ok(is_told && is_held && open_from == receiver.none_open_from())
}

fn is_series_counted(rt: &impl Abort, alloc: Global, frames: &[Frame]) -> Result<bool, Stop> {
    let mut counter = counter(alloc)?;
    let mut receiver = receiver(alloc, 0)?;
    let mut delivered = none(alloc);
    for row in frames {
        let is_so = is_counted(&mut counter, &mut receiver, &mut delivered, row);
        passes(rt, row, is_so);
    }
    Ok(true)
}

#[test]
fn a_counter_reports_what_a_receiver_does(rt: HostRuntime) {
    for (name, frames, _) in &SERIES {
        passes(&rt, name, is_series_counted(&rt, rt.alloc(), frames));
    }
}

// Whether nothing is held before the frames, and the packets are these after them.
fn is_series(
    rt: &impl Abort,
    alloc: Global,
    frames: &[Frame],
    (channel, packets): (u16, &[&[u8]]),
) -> Result<bool, Stop> {
    let mut receiver = receiver(alloc, 0)?;
    let mut delivered = none(alloc);
    let is_empty = held(&receiver, 0, 0) == (0, false);
    for row in frames {
        passes(rt, row, is_told(&mut receiver, &mut delivered, row));
    }
    Ok(is_empty && has(&delivered, channel, packets))
}

#[test]
fn anomalies_are_reported(rt: HostRuntime) {
    for (name, frames, packets) in &SERIES {
        passes(&rt, name, is_series(&rt, rt.alloc(), frames, *packets));
    }
}

// Frames in order, and the channel from which on no series is incomplete after them.
static OPEN: [(&[&[u8]], u16); 8] = [
    (&[], 0),
    (&[&EMPTY_FIRST], 1),
    (&[STRAY_ON_1], 0),
    (&[STRAY_ON_1, FIRST_ON_1, FIRST_ON_2, LAST_ON_1], 3),
    (&[&FIRST_ON_LAST], 4096),
    (&[STRAY_ON_1, FIRST_ON_1, FIRST_OF_3], 321),
    (
        &[STRAY_ON_1, FIRST_ON_1, FIRST_OF_3, MIDDLE_OF_3, LAST_OF_3],
        2,
    ),
    (&[FIRST_OF_3, MIDDLE_OF_3, LAST_OF_3], 0),
];

// Whether no series is incomplete from this channel on.
fn is_none_open_from(alloc: Global, frames: &[&[u8]], channel: u16) -> Result<bool, Stop> {
    let mut receiver = receiver(alloc, 0)?;
    let mut delivered = none(alloc);
    for frame in frames {
        step_of(&mut receiver, frame, &mut delivered)?;
    }
    Ok(receiver.none_open_from() == channel)
}

#[test]
fn no_series_is_open_from_a_channel_on(rt: HostRuntime) {
    for row in &OPEN {
        let (frames, channel) = *row;
        passes(&rt, row, is_none_open_from(rt.alloc(), frames, channel));
    }
}

// A last segment of one octet makes a series of the greatest length too long.
#[test]
fn a_series_is_too_long(rt: HostRuntime) -> Result<(), Stop> {
    let most = longest(rt.alloc())?;
    let mut receiver = receiver(rt.alloc(), 0)?;
    let mut delivered = none(rt.alloc());
    segments_received(rt.alloc(), &mut receiver, &most, 0, &mut delivered)?;
    holds(&rt, &65542, held(&receiver, 0, 0) == (65542, true));
    let is_so = is_told(&mut receiver, &mut delivered, &TOO_LONG)?;
    holds(&rt, &TOO_LONG, is_so);
    Ok(())
}
