//! The normal form of known packets.
use crate::support::packets::{has, longest, none};
use crate::support::recordings::{COMMAND, LEAST, LONGER, TC_FRAME};
use crate::support::rows::{Stop, holds, passes};
use crate::support::tc::{form_of, is_form, received, receiver, shape};
use sl_cop::Starts;
use sl_tcframe::VcSet;
use std::alloc::Global;
use std::process::Abort;

// The frame of `COMMAND` with error control.
const PROTECTED: [u8; 18] = [
    0x00, 0x01, 0x00, 0x11, 0x00, 0xC0, //
    0x10, 0x01, 0xC0, 0x00, 0x00, 0x03, 0xAA, 0xBB, 0xCC, 0xDD, //
    0x05, 0x52,
];

// The frame of `LEAST`.
const LEAST_WHOLE: [u8; 13] = [
    0x00, 0x01, 0x00, 0x0C, 0x00, 0xC0, //
    0x10, 0x02, 0xC0, 0x01, 0x00, 0x00, 0xEE,
];

// `COMMAND` on MAP 1, and then `LEAST` on MAP 2.
const ON_TWO_MAPS: [u8; 29] = [
    0x00, 0x01, 0x00, 0x0F, 0x00, 0xC1, //
    0x10, 0x01, 0xC0, 0x00, 0x00, 0x03, 0xAA, 0xBB, 0xCC, 0xDD, //
    0x00, 0x01, 0x00, 0x0C, 0x01, 0xC2, //
    0x10, 0x02, 0xC0, 0x01, 0x00, 0x00, 0xEE,
];

// `LONGER` in three segments on virtual channel 5, from N(S) 255 on.
const DIVIDED: [u8; 41] = [
    0x00, 0x01, 0x14, 0x0F, 0xFF, 0x40, //
    0x10, 0x02, 0xC0, 0x05, 0x00, 0x10, 0x11, 0x11, 0x11, 0x11, //
    0x00, 0x01, 0x14, 0x0F, 0x00, 0x00, //
    0x11, 0x11, 0x11, 0x11, 0x11, 0x11, 0x11, 0x11, 0x11, 0x11, //
    0x00, 0x01, 0x14, 0x08, 0x01, 0x80, //
    0x11, 0x11, 0x11,
];

// The same with error control, from N(S) 0 on.
const DIVIDED_PROTECTED: [u8; 47] = [
    0x00, 0x01, 0x14, 0x11, 0x00, 0x40, //
    0x10, 0x02, 0xC0, 0x05, 0x00, 0x10, 0x11, 0x11, 0x11, 0x11, //
    0xE7, 0xE9, //
    0x00, 0x01, 0x14, 0x11, 0x01, 0x00, //
    0x11, 0x11, 0x11, 0x11, 0x11, 0x11, 0x11, 0x11, 0x11, 0x11, //
    0xC3, 0x48, //
    0x00, 0x01, 0x14, 0x0A, 0x02, 0x80, //
    0x11, 0x11, 0x11, //
    0xF0, 0xA4,
];

// Virtual channel 0: `LEAST` on MAP 0, and `LEAST` and `COMMAND` on MAP 1; virtual channel 1:
// `LEAST` on MAP 0; virtual channel 63: `LEAST` on MAP 63. From N(S) 254 on.
const ON_THREE_CHANNELS: [u8; 68] = [
    0x00, 0x01, 0x00, 0x0C, 0xFE, 0xC0, //
    0x10, 0x02, 0xC0, 0x01, 0x00, 0x00, 0xEE, //
    0x00, 0x01, 0x00, 0x0C, 0xFF, 0xC1, //
    0x10, 0x02, 0xC0, 0x01, 0x00, 0x00, 0xEE, //
    0x00, 0x01, 0x00, 0x0F, 0x00, 0xC1, //
    0x10, 0x01, 0xC0, 0x00, 0x00, 0x03, 0xAA, 0xBB, 0xCC, 0xDD, //
    0x00, 0x01, 0x04, 0x0C, 0xFE, 0xC0, //
    0x10, 0x02, 0xC0, 0x01, 0x00, 0x00, 0xEE, //
    0x00, 0x01, 0xFC, 0x0C, 0xFE, 0xFF, //
    0x10, 0x02, 0xC0, 0x01, 0x00, 0x00, 0xEE,
];

// Greatest frame length and error control, initial V(R), packets by channel, and their frames.
type Row<'a> = ((u16, bool), u8, &'a [(u16, &'a [u8])], &'a [u8]);

static FORMS: [Row; 8] = [
    ((16, false), 0, &[], &[]),
    // Packets of one segment.
    ((16, false), 0, &[(0, &COMMAND)], &TC_FRAME),
    ((16, false), 0, &[(2, &LEAST), (1, &COMMAND)], &ON_TWO_MAPS),
    ((24, false), 0, &[(0, &LEAST)], &LEAST_WHOLE),
    // A packet of three segments.
    ((16, false), 255, &[(320, &LONGER)], &DIVIDED),
    // Frames with error control.
    ((18, true), 0, &[(0, &COMMAND)], &PROTECTED),
    ((18, true), 0, &[(320, &LONGER)], &DIVIDED_PROTECTED),
    // The N(S) goes on from MAP to MAP, and begins anew on each virtual channel.
    (
        (16, false),
        254,
        &[
            (4095, &LEAST),
            (1, &LEAST),
            (64, &LEAST),
            (0, &LEAST),
            (1, &COMMAND),
        ],
        &ON_THREE_CHANNELS,
    ),
];

// The last frame of a longest packet.
const LAST_OF_LONGEST: [u8; 8] = [0x00, 0x01, 0x00, 0x07, 0x9A, 0x80, 0x33, 0x33];

// Whether packets have this form.
fn have(alloc: Global, row: &Row) -> Result<bool, Stop> {
    let (format, vr, packets, wanted) = row;
    let channels = (&Starts::all(*vr), &VcSet::new());
    is_form(alloc, *format, channels, packets, wanted)
}

#[test]
fn normal_forms_of_known_packets(rt: HostRuntime) {
    for row in &FORMS {
        passes(&rt, row, have(rt.alloc(), row));
    }
}

// Whether a frame has the header wanted of this number and carries a segment: flags are 1 for the
// first one, and 0 for all others but the last.
fn carries(frame: &[u8; 16], number: usize, segment: &[u8]) -> bool {
    let flags = if number == 0 { 0x40 } else { 0x00 };
    let header = [0x00, 0x01, 0x00, 0x0F, (number % 256) as u8, flags];
    &frame[..6] == header.as_slice() && &frame[6..] == segment
}

// Frames carry a packet in segments of ten octets.
fn carry(rt: &impl Abort, frames: &[[u8; 16]], packet: &[u8]) {
    for (number, (frame, segment)) in frames.iter().zip(packet.chunks(10)).enumerate() {
        holds(rt, &number, carries(frame, number, segment));
    }
}

// Whether a packet is received from frames of at most 16 octets.
fn is_received(alloc: Global, form: &[u8], packet: &[u8]) -> Result<bool, Stop> {
    let mut receiver = receiver(alloc, 0)?;
    let mut again = none(alloc);
    for frame in form.chunks(16) {
        received(&mut receiver, frame, &mut again)?;
    }
    Ok(has(&again, 0, &[packet]))
}

// A longest packet is received from 6,555 segments: the first has flags 1, the last flags 2, and
// all others flags 0.
#[test]
fn a_longest_packet_goes_through_its_frames(rt: HostRuntime) -> Result<(), Stop> {
    let alloc = rt.alloc();
    let longest = longest(alloc)?;
    let shape = shape(16, false)?;
    let packets = [(0, longest.as_slice())];
    let form = form_of(alloc, &shape, &Starts::all(0), &VcSet::new(), &packets)?;
    let (frames, last) = form.as_chunks::<16>();
    carry(&rt, frames, &longest);
    holds(
        &rt,
        &form.len(),
        form.len() == 104872 && frames.len() == 6554,
    );
    holds(&rt, &"the last", last == LAST_OF_LONGEST.as_slice());
    holds(&rt, &"received", is_received(alloc, &form, &longest)?);
    Ok(())
}
