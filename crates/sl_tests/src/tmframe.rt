//! Frames of known octets, as they are read and written. The headers follow from the table of bits;
//! the error control fields are known from outside.
mod field;
mod framer;

use crate::support::recordings::{TM_FIELD, TM_FRAME, protected};
use crate::support::rows::{Stop, holds, passes};
use crate::support::tm::{frame, read, shape};
use sl_fields::ShapeFault;
use sl_tmframe::{TmField, TmFrame, TmShape, TmSkip, push_tm};
use std::alloc::Global;

// Lengths that no format has.
const NO_LENGTHS: [u16; 4] = [0, 31, 2049, 65535];

// Length, error control, and room of formats.
const FORMATS: [(u16, bool, u16); 4] = [
    (32, false, 26),
    (32, true, 24),
    (2048, false, 2042),
    (2048, true, 2040),
];

// Virtual channel, counts and operational control field of a frame.
type View = (u8, (u8, u8), Option<[u8; 4]>);

// Headers of frames of packets, what is read of them, and where the first packet starts.
static PACKETS: [([u8; 6], View, Option<u16>); 4] = [
    (
        [0x00, 0x10, 0x00, 0x00, 0x18, 0x00],
        (0, (0, 0), None),
        Some(0),
    ),
    (
        [0x00, 0x1A, 0x07, 0x09, 0x18, 0x0A],
        (5, (7, 9), None),
        Some(10),
    ),
    (
        [0x00, 0x1E, 0xFF, 0x01, 0x18, 0x19],
        (7, (255, 1), None),
        Some(25),
    ),
    (
        [0x00, 0x10, 0x01, 0xFF, 0x1F, 0xFF],
        (0, (1, 255), None),
        None,
    ),
];

// `TM_FRAME` with an error control field.
const WITH_FECF: [u8; 34] = [
    0x00, 0x10, 0x00, 0x00, 0x18, 0x00, //
    0x00, 0x01, 0xC0, 0x00, 0x00, 0x03, 0xAA, 0xBB, 0xCC, 0xDD, //
    0x07, 0xFF, 0xC0, 0x00, 0x00, 0x09, 0, 0, 0, 0, 0, 0, 0, 0, 0, 0, //
    0x5E, 0x0C,
];

// A frame with an operational control field and an error control field.
const WITH_BOTH: [u8; 34] = [
    0x00, 0x1B, 0x07, 0x09, 0x18, 0x0A, //
    0x00, 0x01, 0xC0, 0x00, 0x00, 0x03, 0xAA, 0xBB, 0xCC, 0xDD, //
    0x07, 0xFF, 0xC0, 0x00, 0x00, 0x09, 0, 0, 0, 0, 0, 0, //
    0x01, 0x02, 0x03, 0x04, 0x59, 0x09,
];

// Its data field, and that of the same octets in a format without error control.
const FIELD_OF_22: [u8; 22] = [
    0x00, 0x01, 0xC0, 0x00, 0x00, 0x03, 0xAA, 0xBB, 0xCC, 0xDD, //
    0x07, 0xFF, 0xC0, 0x00, 0x00, 0x09, 0, 0, 0, 0, 0, 0,
];

const FIELD_OF_24: [u8; 24] = [
    0x00, 0x01, 0xC0, 0x00, 0x00, 0x03, 0xAA, 0xBB, 0xCC, 0xDD, //
    0x07, 0xFF, 0xC0, 0x00, 0x00, 0x09, 0, 0, 0, 0, 0, 0, //
    0x01, 0x02,
];

// A format's length and error control, a frame, what is read of it, where its first packet starts,
// and its data field.
static WITH_CONTROL_FIELDS: [((u16, bool), &[u8], View, (Option<u16>, &[u8])); 3] = [
    (
        (34, true),
        &WITH_FECF,
        (0, (0, 0), None),
        (Some(0), &TM_FIELD),
    ),
    (
        (34, true),
        &WITH_BOTH,
        (5, (7, 9), Some([0x01, 0x02, 0x03, 0x04])),
        (Some(10), &FIELD_OF_22),
    ),
    (
        (34, false),
        &WITH_BOTH,
        (5, (7, 9), Some([0x03, 0x04, 0x59, 0x09])),
        (Some(10), &FIELD_OF_24),
    ),
];

// Headers of frames that hold no packets, and whether these are idle.
const WITHOUT_PACKETS: [([u8; 6], bool); 6] = [
    // Pointer 2046.
    ([0x00, 0x10, 0x00, 0x00, 0x1F, 0xFE], true),
    // The same with a secondary header, and with the synchronisation flag.
    ([0x00, 0x10, 0x00, 0x00, 0x9F, 0xFE], false),
    ([0x00, 0x10, 0x00, 0x00, 0x5F, 0xFE], false),
    // A secondary header, and no packet start.
    ([0x00, 0x10, 0x00, 0x00, 0x9F, 0xFF], false),
    // A pointer at the end of the data field, and one far past it.
    ([0x00, 0x10, 0x00, 0x00, 0x18, 0x1A], false),
    ([0x00, 0x10, 0x00, 0x00, 0x1F, 0xFD], false),
];

// Headers and error control fields of frames, and why these are skipped, with error control or not.
static SKIPPED: [([u8; 6], [u8; 2], Option<TmSkip>, Option<TmSkip>); 6] = [
    // Nothing is wrong,
    (
        [0x00, 0x10, 0x00, 0x00, 0x18, 0x00],
        [0x5E, 0x0C],
        None,
        None,
    ),
    // the error control field,
    (
        [0x00, 0x10, 0x00, 0x00, 0x18, 0x00],
        [0x5E, 0x0D],
        Some(TmSkip::Fecf),
        None,
    ),
    (
        [0x00, 0x10, 0x00, 0x00, 0x18, 0x00],
        [0x0C, 0x5E],
        Some(TmSkip::Fecf),
        None,
    ),
    // the version,
    (
        [0x40, 0x10, 0x00, 0x00, 0x18, 0x00],
        [0x7D, 0x7B],
        Some(TmSkip::Version),
        Some(TmSkip::Version),
    ),
    // the version and the spacecraft,
    (
        [0x40, 0x20, 0x00, 0x00, 0x18, 0x00],
        [0xD9, 0xD3],
        Some(TmSkip::Version),
        Some(TmSkip::Version),
    ),
    // all three.
    (
        [0x40, 0x20, 0x00, 0x00, 0x18, 0x00],
        [0xD9, 0xD2],
        Some(TmSkip::Fecf),
        Some(TmSkip::Version),
    ),
];

// Headers and error control fields of frames with `TM_FIELD`, and what makes them: the virtual
// channel, the two counts, and the place of the first packet.
static ADDED: [([u8; 6], [u8; 2], Numbers); 3] = [
    (
        [0x00, 0x10, 0x00, 0x00, 0x18, 0x00],
        [0x5E, 0x0C],
        (0, 0, 0, Some(0)),
    ),
    (
        [0x00, 0x1A, 0x07, 0x09, 0x18, 0x0A],
        [0xDA, 0x23],
        (5, 7, 9, Some(10)),
    ),
    (
        [0x00, 0x10, 0x00, 0x00, 0x1F, 0xFF],
        [0xB1, 0x4E],
        (0, 0, 0, None),
    ),
];

type Numbers = (u8, u8, u8, Option<u16>);

// `TM_FRAME` with this header.
fn with_header(header: &[u8; 6]) -> [u8; 32] {
    let mut frame = TM_FRAME;
    frame[..6].copy_from_slice(header);
    frame
}

// Whether a format has this length, error control, and room.
fn is_format(len: u16, fecf: bool, room: u16) -> Result<bool, Stop> {
    let shape = shape(len, fecf)?;
    Ok(shape.len() == len && shape.fecf() == fecf && shape.room() == room)
}

#[test]
fn formats_and_their_rooms(rt: HostRuntime) {
    for len in &NO_LENGTHS {
        for fecf in &[false, true] {
            let fault = TmShape::new(*len, *fecf).err();
            holds(&rt, &(len, fecf), fault == Some(ShapeFault::TmLength));
        }
    }
    for (len, fecf, room) in &FORMATS {
        passes(&rt, &(len, fecf), is_format(*len, *fecf, *room));
    }
}

// Whether this is read of a frame of a format with error control or without.
fn is_read(
    (len, fecf): (u16, bool),
    octets: &[u8],
    seen: &View,
    (first, octets_of_packets): (Option<u16>, &[u8]),
) -> Result<bool, Stop> {
    let shape = shape(len, fecf)?;
    let frame = frame(&shape, octets)?;
    let counts = (frame.mc_count(), frame.vc_count());
    let packets = TmField::Packets {
        first,
        octets: octets_of_packets,
    };
    Ok((frame.vc(), counts, frame.control()) == *seen && frame.field() == packets)
}

#[test]
fn frames_of_packets_are_read(rt: HostRuntime) {
    for (header, seen, start) in &PACKETS {
        let octets = with_header(header);
        let outcome = is_read((32, false), &octets, seen, (*start, &TM_FIELD));
        passes(&rt, header, outcome);
    }
    // No control field is part of the data field: with an error control field; with an operational
    // control field before it; and the same octets of a format without error control.
    for (format, octets, seen, packets) in &WITH_CONTROL_FIELDS {
        let outcome = is_read(*format, octets, seen, *packets);
        passes(&rt, &(format, octets), outcome);
    }
}

// Whether the data field of a frame with this header holds no packets, and is idle or not.
fn is_without_packets(header: &[u8; 6], idle: bool) -> Result<bool, Stop> {
    let octets = with_header(header);
    let shape = shape(32, false)?;
    match frame(&shape, &octets)?.field() {
        TmField::Idle => Ok(idle),
        TmField::Opaque => Ok(!idle),
        TmField::Packets { .. } => Ok(false),
    }
}

#[test]
fn idle_and_opaque_frames(rt: HostRuntime) {
    for (header, idle) in &WITHOUT_PACKETS {
        passes(&rt, header, is_without_packets(header, *idle));
    }
}

// Whether a frame is skipped for this reason, or is not skipped.
fn is_skipped(
    (len, fecf): (u16, bool),
    spacecraft: u16,
    octets: &[u8],
    reason: Option<TmSkip>,
) -> Result<bool, Stop> {
    let shape = shape(len, fecf)?;
    Ok(read(&shape, spacecraft, octets)?.err() == reason)
}

#[test]
fn the_first_reason_to_skip_a_frame(rt: HostRuntime) {
    for (header, fecf, reason, without) in &SKIPPED {
        let octets = with_header(header);
        let outcome = is_skipped((34, true), 1, &protected(&octets, fecf), *reason);
        passes(&rt, &(header, fecf), outcome);
        let outcome = is_skipped((32, false), 1, &octets, *without);
        passes(&rt, header, outcome);
    }
    let outcome = is_skipped((32, false), 2, &TM_FRAME, Some(TmSkip::Spacecraft));
    passes(&rt, &TM_FRAME, outcome);
}

// Adds a frame of spacecraft 1 with `TM_FIELD`.
fn push(out: &mut Vec<u8>, shape: &TmShape, numbers: &Numbers) -> Result<(), Stop> {
    let (vc, mc, vcc, first) = *numbers;
    if vc > 7 || shape.room() != 26 {
        return Err(Stop::Absent);
    }
    if let Some(first) = first {
        if first >= 26 {
            return Err(Stop::Absent);
        }
    }
    Ok(push_tm(out, shape, 1, vc, mc, vcc, first, &TM_FIELD)?)
}

// Whether the frame is this one, and is added after an octet that is there.
fn is_added(
    alloc: Global,
    (len, fecf): (u16, bool),
    numbers: &Numbers,
    wanted: &[u8],
) -> Result<bool, Stop> {
    let shape = shape(len, fecf)?;
    let mut out = Vec::from_slice(alloc, &[0xEE])?;
    push(&mut out, &shape, numbers)?;
    Ok(out.first() == Some(&0xEE) && out.get(1..) == Some(wanted))
}

#[test]
fn frames_of_packets_are_added_after_what_is_there(rt: HostRuntime) {
    let outcome = is_added(rt.alloc(), (32, false), &(0, 0, 0, Some(0)), &TM_FRAME);
    passes(&rt, &TM_FRAME, outcome);
    for (header, fecf, numbers) in &ADDED {
        let wanted = protected(&with_header(header), fecf);
        let outcome = is_added(rt.alloc(), (34, true), numbers, &wanted);
        passes(&rt, header, outcome);
    }
}
