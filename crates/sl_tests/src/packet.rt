//! Packets of known octets: what is expected follows from the standard's bits.
mod delivered;

use crate::support::packets::longest;
use crate::support::recordings::{LEAST, TELEMETRY};
use crate::support::rows::{Stop, holds, is_text, passes};
use sl_packet::{
    FlowFault, Need, Outline, Packets, SinkFault, add_part, count_packets, first_packet, give_back,
    is_idle, need, push_idle,
};

// An idle packet with ten octets of data.
const IDLE: [u8; 16] = [
    0x07, 0xFF, 0xC0, 0x00, 0x00, 0x09, 0, 0, 0, 0, 0, 0, 0, 0, 0, 0,
];

// The idle packet, the least telecommand and three octets more, and these without the idle packet.
const BEHIND: [u8; 26] = [
    0x07, 0xFF, 0xC0, 0x00, 0x00, 0x09, 0, 0, 0, 0, 0, 0, 0, 0, 0, 0, //
    0x10, 0x02, 0xC0, 0x01, 0x00, 0x00, 0xEE, //
    0x00, 0x03, 0xC0,
];

const AFTER_IDLE: [u8; 10] = [
    0x10, 0x02, 0xC0, 0x01, 0x00, 0x00, 0xEE, //
    0x00, 0x03, 0xC0,
];

const REST: [u8; 3] = [0x00, 0x03, 0xC0];

// `TELEMETRY` before them.
const OCTETS: [u8; 36] = [
    0x00, 0x01, 0xC0, 0x00, 0x00, 0x03, 0xAA, 0xBB, 0xCC, 0xDD, //
    0x07, 0xFF, 0xC0, 0x00, 0x00, 0x09, 0, 0, 0, 0, 0, 0, 0, 0, 0, 0, //
    0x10, 0x02, 0xC0, 0x01, 0x00, 0x00, 0xEE, //
    0x00, 0x03, 0xC0,
];

// Octets of packet version 1.
const VERSION_ONE: [u8; 7] = [0x20, 0x01, 0xC0, 0x00, 0x00, 0x00, 0xAA];

// `TELEMETRY` without its last octet.
const SHORT: [u8; 9] = [0x00, 0x01, 0xC0, 0x00, 0x00, 0x03, 0xAA, 0xBB, 0xCC];

// Octets, and the packet at their front.
static FIRST: [(&[u8], Option<&[u8]>); 6] = [
    (&TELEMETRY, Some(&TELEMETRY)),
    (&OCTETS, Some(&TELEMETRY)),
    (&BEHIND, Some(&IDLE)),
    (&SHORT, None),
    (&VERSION_ONE, None),
    (&[], None),
];

// Octets, and what they need for a packet.
static NEEDS: [(&[u8], Need); 11] = [
    (&[], Need::Header(6)),
    (&[0x00], Need::Header(5)),
    (&[0x00, 0x03, 0xC0], Need::Header(3)),
    (&[0x20], Need::Foreign),
    (&VERSION_ONE, Need::Foreign),
    (&[0x00, 0x01, 0xC0, 0x00, 0x00, 0x03], Need::Octets(4)),
    (&[0x00, 0x01, 0xC0, 0x00, 0x00, 0x03, 0xAA], Need::Octets(3)),
    (&SHORT, Need::Octets(1)),
    (&TELEMETRY, Need::Whole(10)),
    (&OCTETS, Need::Whole(10)),
    (&[0x00, 0x01, 0xC0, 0x00, 0xFF, 0xFF], Need::Octets(65536)),
];

// Octets, their packets end to end with what is left after each, and what is left in the end.
static SERIES: [(&[u8], &[(&[u8], &[u8])], &[u8]); 2] = [
    (&BEHIND, &[(&IDLE, &AFTER_IDLE), (&LEAST, &REST)], &REST),
    // There are none of another version.
    (&VERSION_ONE, &[], &VERSION_ONE),
];

// Octets, and whether a packet of them is idle.
static IDLENESS: [(&[u8], bool); 6] = [
    (&[0x07, 0xFF], true),
    (&[0x07], false),
    (&[0x07, 0xFF, 0x00, 0x07, 0x00, 0x00, 0x01], true),
    (&[0x1F, 0xFF, 0xC0, 0x00], true),
    (&[0x07, 0xFE, 0xC0, 0x00], false),
    (&TELEMETRY, false),
];

// Faults and their texts.
static SINK_FAULTS: [(SinkFault, &str); 3] = [
    (SinkFault::Memory, "memory"),
    (SinkFault::Device, "device"),
    (SinkFault::Refused, "refused"),
];

static FLOW_FAULTS: [(FlowFault, &str); 3] = [
    (FlowFault::Memory, "memory"),
    (FlowFault::Sink(SinkFault::Refused), "sink: refused"),
    (FlowFault::Failed, "failed"),
];

// The packet at the front of known octets, what these need for one, and whether it is idle, which
// the APID alone makes it.
#[test]
fn packets_at_the_front_of_known_octets(rt: HostRuntime) {
    for (octets, packet) in &FIRST {
        holds(&rt, octets, first_packet(octets) == *packet);
    }
    for (octets, wanted) in &NEEDS {
        holds(&rt, octets, need(octets) == *wanted);
    }
    for (octets, idle) in &IDLENESS {
        holds(&rt, octets, is_idle(octets) == *idle);
    }
}

// Whether these are the packets one after another.
fn are_next(octets: &[u8], wanted: &[(&[u8], &[u8])], rest: &[u8]) -> bool {
    let mut packets = Packets::new(octets);
    if packets.rest() != octets {
        return false;
    }
    for (packet, rest) in wanted {
        if packets.next() != Some(*packet) || packets.rest() != *rest {
            return false;
        }
    }
    packets.next().is_none() && packets.rest() == rest
}

// Whether a loop gives the same.
fn are_given(octets: &[u8], wanted: &[(&[u8], &[u8])]) -> bool {
    let mut wanted = wanted;
    for packet in Packets::new(octets) {
        match wanted {
            [(next, _), behind @ ..] if packet == *next => wanted = behind,
            _ => return false,
        }
    }
    wanted.is_empty()
}

#[test]
fn packets_lie_end_to_end(rt: HostRuntime) {
    for (octets, packets, rest) in &SERIES {
        holds(&rt, octets, are_next(octets, packets, rest));
        holds(&rt, octets, are_given(octets, packets));
    }
}

#[test]
fn packets_end_to_end_are_counted(rt: HostRuntime) {
    let counted = count_packets(&OCTETS);
    let is_counted = (counted.packets, counted.idle) == (2, 1);
    holds(
        &rt,
        &counted,
        is_counted && counted.remainder == REST.as_slice(),
    );
}

// Whether the outlines of octets, as a whole and in two parts, answer what the octets do.
fn are_outlined(octets: &[u8], at: usize, wanted: Need) -> Result<bool, Stop> {
    let (front, behind) = octets.split_at_checked(at).ok_or(Stop::Absent)?;
    if octets.len() > 65542 || front.len() > 65542 || behind.len() > 65542 {
        return Err(Stop::Absent);
    }
    let whole = Outline::of(octets);
    let joined = Outline::none().plus(front).plus(behind);
    let is_need = whole.need() == wanted && joined.need() == wanted;
    Ok(is_need && joined.is_idle() == is_idle(octets) && joined.octets == whole.octets)
}

#[test]
fn outlines_answer_what_their_octets_do(rt: HostRuntime) {
    for (octets, wanted) in &NEEDS {
        for at in 0..=octets.len() {
            passes(&rt, octets, are_outlined(octets, at, *wanted));
        }
    }
}

// The least idle packet after an octet that is there, and the longest one.
#[test]
fn idle_packets_are_added_after_what_is_there(rt: HostRuntime) -> Result<(), Stop> {
    let mut octets = Vec::from_slice(rt.alloc(), &[0xEE])?;
    push_idle(&mut octets, 7)?;
    let wanted = [0xEE, 0x07, 0xFF, 0xC0, 0x00, 0x00, 0x00, 0x00];
    holds(&rt, &7, octets.as_slice() == wanted.as_slice());
    let mut longest = Vec::new(rt.alloc());
    push_idle(&mut longest, 65542)?;
    let is_begun = longest.starts_with(&[0x07, 0xFF, 0xC0, 0x00, 0xFF, 0xFF]);
    let is_first = first_packet(&longest) == Some(longest.as_slice());
    holds(&rt, &65542, longest.len() == 65542 && is_begun && is_first);
    Ok(())
}

// Parts of 1,019 octets of a longest packet are joined in just the memory they need, which is given
// back. That a vector with room isn't moved to more memory, no clause says.
#[test]
fn memory_for_parts_ends_with_the_longest_packet(rt: HostRuntime) -> Result<(), Stop> {
    let longest = longest(rt.alloc())?;
    let mut octets = Vec::new(rt.alloc());
    for part in longest.chunks(1019) {
        if octets.len().saturating_add(part.len()) > 65542 {
            return Err(Stop::Absent);
        }
        add_part(&mut octets, part)?;
    }
    holds(&rt, &65542, octets.as_slice() == longest.as_slice());
    holds(&rt, &65542, octets.capacity() == 65542);
    give_back(&mut octets);
    holds(&rt, &0, octets.is_empty() && octets.capacity() == 0);
    Ok(())
}

#[test]
fn faults_have_texts(rt: HostRuntime) {
    for (fault, text) in &SINK_FAULTS {
        passes(&rt, text, is_text(rt.alloc(), fault, text));
    }
    for (fault, text) in &FLOW_FAULTS {
        passes(&rt, text, is_text(rt.alloc(), fault, text));
    }
}
