//! Recordings in pieces, cut short, damaged or long, through every engine of their kind.
use super::normalise;
use super::support::engines::{ALL, Answer, Kind, Link, VERBS, Verb};
use super::support::recordings::{
    BAD_LENGTH, BEGUN, DIVIDED, DIVIDED_FROM_255, ENDED, FIRST, HUNDRED, IN_WINDOW, LOCKED_OUT,
    LONG, MIXED, SKIPPED, UNLOCK_DAMAGED, UNLOCK_WITH_FECF, WHOLE, WITH_FECF, WITH_IDLE, filled,
    longest, octets, too_long,
};
use super::support::rows::{Stop, holds, passes};
use super::support::streams::InPieces;
use sl_link::LinkFault;
use std::alloc::{AllocError, Global};
use std::process::Abort;

// A recording: kind of frames, their (greatest) length, whether there is error control, the initial
// V(R), and parts.
type Recorded<'a> = (Kind, u16, bool, u8, &'a [&'a str]);

// Beside those of normal forms.
const RECORDED: [Recorded; 14] = [
    (Kind::Tm, 34, true, 0, &WITH_FECF),
    (Kind::Tc, 16, false, 0, &[]),
    (Kind::Tc, 16, false, 0, &[WHOLE]),
    (Kind::Tc, 16, false, 0, &IN_WINDOW),
    (Kind::Tc, 16, false, 0, &LOCKED_OUT),
    (Kind::Tc, 16, false, 0, &MIXED),
    (Kind::Tc, 16, false, 0, &[WHOLE, BAD_LENGTH]),
    (Kind::Tc, 16, false, 0, &DIVIDED),
    (Kind::Tc, 16, false, 255, &DIVIDED),
    (Kind::Tc, 16, false, 255, &DIVIDED_FROM_255),
    (Kind::Tc, 16, false, 0, &SKIPPED),
    (Kind::Tc, 16, true, 0, &[UNLOCK_WITH_FECF]),
    (Kind::Tc, 16, true, 0, &[UNLOCK_DAMAGED]),
    (Kind::Tc, 24, false, 0, &[WITH_IDLE]),
];

// The anomalies of long recordings.
const OF_LONGEST: &str = "frames 2522 skipped 0 packets 1 idle 1 anomalies 0\n";

const OF_WAITING: &str = "frames 258 skipped 0 packets 3 idle 1 anomalies 0\n";

const OF_TOO_LONG: &str = "104864 long vc 0 map 0\n104880 stray vc 0 map 0\n\
    frames 6556 skipped 0 packets 0 idle 0 anomalies 2\n";

const OF_NO_OCTETS: &str =
    "6000 open vc 0 map 0 octets 0\nframes 1000 skipped 0 packets 0 idle 0 anomalies 1\n";

// Kind and length of long recordings, and their anomalies.
const LONG_RECORDINGS: [(Kind, u16, &str); 4] = [
    (Kind::Tm, 32, OF_LONGEST),
    (Kind::Tm, 32, OF_WAITING),
    (Kind::Tc, 16, OF_TOO_LONG),
    (Kind::Tc, 16, OF_NO_OCTETS),
];

fn lines(answer: &Answer) -> u64 {
    answer.text().lines().count() as u64
}

// Whether an engine counts this, and writes this number of lines.
fn is_listed(
    alloc: Global,
    (link, verb): (&Link, Verb),
    recording: &[u8],
    counts: [u64; 7],
    wanted: u64,
) -> Result<bool, LinkFault> {
    let answer = link.answer(alloc, verb, recording, ALL)?;
    Ok(answer.counts() == counts && lines(&answer) == wanted)
}

// What a check counts, and how many lines it writes.
fn checked(alloc: Global, link: &Link, recording: &[u8]) -> Result<([u64; 7], u64), LinkFault> {
    let check = link.answer(alloc, Verb::Check, recording, ALL)?;
    Ok((check.counts(), lines(&check)))
}

// Whether this is counted for a normal form, which is whole, has as many packets, and is its own.
fn is_normalised(
    alloc: Global,
    link: &Link,
    recording: &[u8],
    counts: [u64; 7],
) -> Result<bool, LinkFault> {
    let normal = link.answer(alloc, Verb::Normalise, recording, ALL)?;
    let again = link.answer(alloc, Verb::Normalise, &normal.output, ALL)?;
    let [_, _, skipped, rest, packets, _, _] = again.counts();
    let is_whole = [skipped, rest, packets] == [0, 0, counts[4]];
    Ok(is_whole && normal.counts() == counts && again.output == normal.output)
}

// What holds of every recording: each engine passes over all of it, all count the same, each line
// is counted, and the normal form is as it should be.
fn is_passed(alloc: Global, link: &Link, recording: &[u8]) -> Result<bool, LinkFault> {
    let (counts, lines) = checked(alloc, link, recording)?;
    let [all, frames, skipped, rest, packets, idle, anomalies] = counts;
    let shown = [all, frames, skipped, rest, 0, 0, 0];
    let counts = [all, frames, skipped, rest, packets, idle, 0];
    let shown_lines = frames.saturating_add(rest.min(1));
    let is_whole = all == recording.len() as u64 && lines == anomalies.saturating_add(1);
    let is_shown = is_listed(alloc, (link, Verb::Show), recording, shown, shown_lines)?;
    let are_packets = is_listed(alloc, (link, Verb::Packets), recording, counts, packets)?;
    Ok(is_whole && is_shown && are_packets && is_normalised(alloc, link, recording, counts)?)
}

// Whether an engine tells the same where streams give and take one octet or seven at a time.
fn is_same(alloc: Global, link: &Link, verb: Verb, recording: &[u8]) -> Result<bool, LinkFault> {
    let whole = link.answer(alloc, verb, recording, ALL)?;
    let by_one = link.answer(alloc, verb, recording, 1)?;
    let by_seven = link.answer(alloc, verb, recording, 7)?;
    Ok(by_one == whole && by_seven == whole)
}

fn is_passed_in_pieces(alloc: Global, link: &Link, recording: &[u8]) -> Result<bool, LinkFault> {
    for verb in &VERBS {
        if !is_same(alloc, link, *verb, recording)? {
            return Ok(false);
        }
    }
    is_passed(alloc, link, recording)
}

fn recorded(alloc: Global, recorded: &Recorded) -> Result<(Link, Vec<u8>), Stop> {
    let (kind, length, fecf, vr, parts) = recorded;
    let link = Link::new(*kind, *length, *fecf, *vr, 1_000_000)?;
    Ok((link, octets(alloc, parts)?))
}

// Whether a front of a recording passes, and its packets are listed as those of the whole.
fn is_front(alloc: Global, link: &Link, front: &[u8], listing: &[u8]) -> Result<bool, Stop> {
    let packets = link.answer(alloc, Verb::Packets, front, ALL)?;
    Ok(listing.starts_with(&packets.output) && is_passed(alloc, link, front)?)
}

// Whether a recording passes in pieces. Each front of it passes.
fn is_cut_short(rt: &impl Abort, alloc: Global, row: &Recorded) -> Result<bool, Stop> {
    let (link, recording) = recorded(alloc, row)?;
    let packets = link.answer(alloc, Verb::Packets, &recording, ALL)?;
    for len in 0..recording.len() {
        let outcome = is_front(alloc, &link, &recording[..len], &packets.output);
        passes(rt, &len, outcome);
    }
    Ok(is_passed_in_pieces(alloc, &link, &recording)?)
}

#[test]
fn recordings_are_cut_short(rt: HostRuntime) {
    for (parts, _) in &normalise::CASES {
        let row = (Kind::Tm, 32, false, 0, *parts);
        passes(&rt, parts, is_cut_short(&rt, rt.alloc(), &row));
    }
    for row in &RECORDED {
        passes(&rt, row, is_cut_short(&rt, rt.alloc(), row));
    }
}

// Whether a recording passes with this octet at this place.
fn is_passed_with(
    alloc: Global,
    link: &Link,
    recording: &[u8],
    place: usize,
    octet: u8,
) -> Result<bool, Stop> {
    let mut damaged = Vec::from_slice(alloc, recording)?;
    match damaged.get_mut(place) {
        Some(damaged) => *damaged = octet,
        None => return Err(Stop::Absent),
    }
    Ok(is_passed(alloc, link, &damaged)?)
}

// Each octet of a recording may be damaged, in either way.
fn is_damaged(rt: &impl Abort, alloc: Global, row: &Recorded) -> Result<bool, Stop> {
    let (link, recording) = recorded(alloc, row)?;
    for place in 0..recording.len() {
        for octet in &[0x00, 0xFF] {
            let outcome = is_passed_with(alloc, &link, &recording, place, *octet);
            passes(rt, &(place, octet), outcome);
        }
    }
    Ok(true)
}

#[test]
fn recordings_are_damaged(rt: HostRuntime) {
    for (parts, _) in &normalise::CASES {
        let row = (Kind::Tm, 32, false, 0, *parts);
        passes(&rt, parts, is_damaged(&rt, rt.alloc(), &row));
    }
    for row in &RECORDED {
        passes(&rt, row, is_damaged(&rt, rt.alloc(), row));
    }
}

// 256 idle frames within a packet, after which the count is the same again.
fn waiting(alloc: Global) -> Result<Vec<u8>, Stop> {
    let mut recording = octets(alloc, &[FIRST, LONG, BEGUN])?;
    for number in 1..257u16 {
        let [_, count] = number.to_be_bytes();
        filled(
            &mut recording,
            &[0x00, 0x10, count, count, 0x1F, 0xFE],
            0x55,
            26,
        )?;
    }
    let end = octets(alloc, &["001001011807", ENDED])?;
    recording.extend_from_slice(&end)?;
    Ok(recording)
}

// A series of a thousand segments without octets.
fn without_octets(alloc: Global) -> Result<Vec<u8>, AllocError> {
    let mut recording = Vec::from_slice(alloc, &[0x20, 0x01, 0x00, 0x05, 0x00, 0x40])?;
    for _ in 0..999 {
        recording.extend_from_slice(&[0x20, 0x01, 0x00, 0x05, 0x00, 0x00])?;
    }
    Ok(recording)
}

// The recordings by the listings of their anomalies.
fn long(alloc: Global, anomalies: &str) -> Result<Vec<u8>, Stop> {
    match anomalies {
        OF_LONGEST => Ok(longest(alloc)?),
        OF_WAITING => waiting(alloc),
        OF_TOO_LONG => Ok(too_long(alloc)?),
        OF_NO_OCTETS => Ok(without_octets(alloc)?),
        _ => Err(Stop::Absent),
    }
}

// Whether a recording passes, whole and in pieces, and these are its anomalies.
fn is_long(alloc: Global, kind: Kind, length: u16, anomalies: &str) -> Result<bool, Stop> {
    let recording = long(alloc, anomalies)?;
    let link = Link::new(kind, length, false, 0, 1_000_000)?;
    let is_checked = link.writes(alloc, Verb::Check, &recording, anomalies.as_bytes())?;
    Ok(is_checked && is_passed_in_pieces(alloc, &link, &recording)?)
}

#[test]
fn recordings_are_long(rt: HostRuntime) {
    for (kind, length, anomalies) in &LONG_RECORDINGS {
        passes(
            &rt,
            anomalies,
            is_long(rt.alloc(), *kind, *length, anomalies),
        );
    }
}

// Whether a recording is too long for an engine, where this number of octets come at a time.
fn is_too_long(alloc: Global, link: &Link, verb: Verb, recording: &[u8], most: usize) -> bool {
    let writer = InPieces(Vec::new(alloc), most);
    let ending = link.end(alloc, verb, InPieces(recording, most), writer);
    ending.is_fault(LinkFault::TooLong, (0, 0))
}

// Whether a recording of as many octets as the limit passes. With one octet more it is too long.
fn is_limited(rt: &impl Abort, alloc: Global) -> Result<bool, Stop> {
    let link = Link::new(Kind::Tm, 32, false, 0, 100)?;
    let mut recording = octets(alloc, &HUNDRED)?;
    let is_passed = is_passed_in_pieces(alloc, &link, &recording)?;
    recording.push(0x18)?;
    for verb in &VERBS {
        for most in &[1, 7, ALL] {
            let is_so = is_too_long(alloc, &link, *verb, &recording, *most);
            holds(rt, &(verb, most), is_so);
        }
    }
    Ok(is_passed)
}

// With a remainder up to the greatest number of octets, and past it.
#[test]
fn recordings_are_limited(rt: HostRuntime) {
    passes(&rt, &HUNDRED, is_limited(&rt, rt.alloc()));
}
