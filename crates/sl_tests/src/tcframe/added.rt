//! Frames as they are written.
use super::carries;
use crate::support::recordings::{COMMAND, TC_FRAME};
use crate::support::rows::{Stop, passes};
use crate::support::tc::{frame, shape};
use sl_fields::SegmentHeader;
use sl_tcframe::{TcContent, TcShape, push_tc, push_tc_plain};
use std::alloc::{AllocError, Global};
use std::process::Abort;

// Spacecraft, virtual channel and N(S); a segment header; and the octets after it.
type Segment<'a> = ((u16, u8, u8), u8, &'a [u8]);

// Frames of at most 16 octets, with error control or without.
static ADDED: [(bool, Segment, &[u8]); 4] = [
    (false, ((1, 0, 0), 0xC0, &COMMAND), &TC_FRAME),
    // No octets after the segment header, and the greatest of each number.
    (
        false,
        ((1023, 63, 255), 0x45, &[]),
        &[0x03, 0xFF, 0xFC, 0x05, 0xFF, 0x45],
    ),
    (true, ((1, 0, 0), 0xC0, &[0xAA]), &PROTECTED),
    (
        true,
        ((1023, 63, 255), 0x45, &[]),
        &[0x03, 0xFF, 0xFC, 0x07, 0xFF, 0x45, 0xD4, 0x2E],
    ),
];

const PROTECTED: [u8; 9] = [0x00, 0x01, 0x00, 0x08, 0x00, 0xC0, 0xAA, 0x33, 0x59];

// Greatest length, error control, and numbers of octets that fit after a segment header.
const LENS: [(u16, bool, [usize; 4]); 4] = [
    (16, false, [0, 1, 8, 10]),
    (16, true, [0, 1, 8, 8]),
    (1024, false, [0, 1, 8, 1018]),
    (1024, true, [0, 1, 8, 1016]),
];

// The frame of `COMMAND` without a segment header on virtual channel 5.
const PLAIN: [u8; 15] = [
    0x00, 0x01, 0x14, 0x0E, 0x00, //
    0x10, 0x01, 0xC0, 0x00, 0x00, 0x03, 0xAA, 0xBB, 0xCC, 0xDD,
];

// Greatest length, error control, what is there before, virtual channel and octets of frames
// without segment headers.
static ADDED_PLAIN: [(u16, bool, &[u8], u8, &[u8], &[u8]); 2] = [
    (1024, false, &[0xEE], 5, &COMMAND, &PLAIN),
    (16, true, &[], 0, &[0xC0, 0xAA], &PROTECTED),
];

// Adds the frame of a segment.
fn push(out: &mut Vec<u8>, shape: &TcShape, segment: &Segment) -> Result<(), Stop> {
    let ((spacecraft, vc, ns), header, octets) = *segment;
    if spacecraft > 1023 || vc > 63 || octets.len() > usize::from(shape.room()) {
        return Err(Stop::Absent);
    }
    let header = SegmentHeader::read(&[header]);
    Ok(push_tc(out, shape, spacecraft, vc, ns, header, octets)?)
}

// Adds a frame of spacecraft 1 without a segment header.
fn push_plain(out: &mut Vec<u8>, shape: &TcShape, vc: u8, octets: &[u8]) -> Result<(), Stop> {
    if vc > 63 || octets.is_empty() || octets.len() > usize::from(shape.plain_room()) {
        return Err(Stop::Absent);
    }
    Ok(push_tc_plain(out, shape, 1, vc, 0, octets)?)
}

// Whether the frame of a segment is this one, and is added after what is there.
fn is_added(out: &mut Vec<u8>, fecf: bool, segment: &Segment, wanted: &[u8]) -> Result<bool, Stop> {
    let len = out.len();
    push(out, &shape(16, fecf)?, segment)?;
    Ok(out.first() == Some(&0xEE) && out.get(len..) == Some(wanted))
}

// Whether the frames are added one after another.
fn are_added(rt: &impl Abort, alloc: Global) -> Result<bool, Stop> {
    let mut octets = Vec::from_slice(alloc, &[0xEE])?;
    for (fecf, segment, wanted) in &ADDED {
        passes(rt, segment, is_added(&mut octets, *fecf, segment, wanted));
    }
    Ok(octets.get(1..17) == Some(&TC_FRAME[..]))
}

#[test]
fn frames_are_added_after_what_is_there(rt: HostRuntime) {
    passes(&rt, &TC_FRAME, are_added(&rt, rt.alloc()));
}

// A segment header, and after it this number of octets.
fn unit_of(alloc: Global, len: usize) -> Result<Vec<u8>, AllocError> {
    let mut unit = Vec::from_slice(alloc, &[0xBF])?;
    for octet in 0..len {
        unit.push((octet % 251) as u8)?;
    }
    Ok(unit)
}

// Whether the frame of that unit is read back.
fn is_read_back(alloc: Global, max: u16, fecf: bool, len: usize) -> Result<bool, Stop> {
    let shape = shape(max, fecf)?;
    let unit = unit_of(alloc, len)?;
    let segment = ((1, 7, 9), 0xBF, unit.get(1..).unwrap_or(&[]));
    let mut added = Vec::new(alloc);
    push(&mut added, &shape, &segment)?;
    let frame = frame(&shape, &added)?;
    let content = TcContent::Ad { ns: 9, unit: &unit };
    Ok(frame.vc() == 7 && carries(&frame, &content))
}

#[test]
fn frames_that_are_added_are_read_back(rt: HostRuntime) {
    for (max, fecf, lens) in &LENS {
        for len in lens {
            let outcome = is_read_back(rt.alloc(), *max, *fecf, *len);
            passes(&rt, &(max, fecf, len), outcome);
        }
    }
}

// Whether a frame without segment header is this one, and is added after what is there.
fn is_plain_added(
    alloc: Global,
    (max, fecf): (u16, bool),
    before: &[u8],
    (vc, octets): (u8, &[u8]),
    wanted: &[u8],
) -> Result<bool, Stop> {
    let mut out = Vec::from_slice(alloc, before)?;
    push_plain(&mut out, &shape(max, fecf)?, vc, octets)?;
    Ok(out.starts_with(before) && out.get(before.len()..) == Some(wanted))
}

#[test]
fn frames_without_segment_header_are_added(rt: HostRuntime) {
    for (max, fecf, before, vc, octets, wanted) in &ADDED_PLAIN {
        let outcome = is_plain_added(rt.alloc(), (*max, *fecf), before, (*vc, octets), wanted);
        passes(&rt, octets, outcome);
    }
}
