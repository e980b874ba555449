//! Streams that fail, and limits, in every engine: which fault it is, and what is written by then.
use super::support::engines::{ALL, Kind, Link, Verb};
use super::support::recordings::{BEGUN, ENDED, FIRST, LONG, OUTSIDE, WHOLE, octets};
use super::support::rows::{Stop, holds, passes};
use super::support::streams::{
    FailsAfter, FullAfter, InPieces, Interrupted, Unflushed, Unwritable,
};
use sl_link::LinkFault;
use std::alloc::Global;
use std::io::Read;
use std::process::Abort;

// A packet of twenty-three octets, a packet of ten in two frames, and a remainder.
const TM: [&str; 6] = [FIRST, LONG, BEGUN, "001001011807", ENDED, "0010"];

// A packet of ten octets, a frame that comes too early, a series that isn't ended, and a remainder.
const TC: [&str; 4] = [WHOLE, OUTSIDE, "2001000900401002c0aa", "00"];

// An engine, and its recording: kind of frames and their length.
type Engine<'a> = (Kind, Verb, u16, &'a [&'a str]);

const ENGINES: [Engine; 8] = [
    (Kind::Tm, Verb::Show, 32, &TM),
    (Kind::Tm, Verb::Check, 32, &TM),
    (Kind::Tm, Verb::Packets, 32, &TM),
    (Kind::Tm, Verb::Normalise, 32, &TM),
    (Kind::Tc, Verb::Show, 16, &TC),
    (Kind::Tc, Verb::Check, 16, &TC),
    (Kind::Tc, Verb::Packets, 16, &TC),
    (Kind::Tc, Verb::Normalise, 16, &TC),
];

// A verb, its link and its recording.
type Run = (Verb, Link, Vec<u8>);

// With a limit of as many octets as the recording has, or of this number fewer.
fn run(alloc: Global, engine: &Engine, fewer: usize) -> Result<Run, Stop> {
    let (kind, verb, length, parts) = engine;
    let recording = octets(alloc, parts)?;
    let limit = recording.len().saturating_sub(fewer) as u64;
    let link = Link::new(*kind, *length, false, 0, limit)?;
    Ok((*verb, link, recording))
}

// Each read may be the one that fails. What was written is the beginning of the text, or nothing of
// a normal form.
fn reads_fail(rt: &impl Abort, alloc: Global, engine: &Engine) -> Result<bool, Stop> {
    let (verb, link, recording) = run(alloc, engine, 0)?;
    let whole = link.answer(alloc, verb, &recording, ALL)?.output;
    for allowed in 0..=recording.len() as u64 {
        let inner = InPieces(recording.as_slice(), 1);
        let reader = FailsAfter { inner, allowed };
        let ending = link.end(alloc, verb, reader, Vec::new(alloc));
        let is_front = whole.starts_with(&ending.writer)
            && (verb != Verb::Normalise || ending.writer.is_empty());
        let is_fault = ending.is_fault(LinkFault::Read, (1, 0));
        holds(rt, &("read", allowed), is_fault && is_front);
    }
    Ok(!whole.is_empty())
}

// So may each write; and the room may end before the first octet, or before the third.
fn writes_fail(rt: &impl Abort, alloc: Global, engine: &Engine) -> Result<bool, Stop> {
    let (verb, link, recording) = run(alloc, engine, 0)?;
    let whole = link.answer(alloc, verb, &recording, ALL)?.output;
    for writes in 0..whole.len() {
        let writer = FailsAfter {
            inner: InPieces(Vec::new(alloc), 1),
            allowed: writes as u64,
        };
        let ending = link.end(alloc, verb, recording.as_slice(), writer);
        let is_front = Some(ending.writer.inner.0.as_slice()) == whole.get(..writes);
        let is_fault = ending.is_fault(LinkFault::Write, (0, 1));
        holds(rt, &("write", writes), is_fault && is_front);
    }
    for room in &[0, 2] {
        let taken = Vec::new(alloc);
        let writer = FullAfter { taken, room: *room };
        let ending = link.end(alloc, verb, recording.as_slice(), writer);
        let is_front = Some(ending.writer.taken.as_slice()) == whole.get(..*room);
        let is_fault = ending.is_fault(LinkFault::Write, (0, 1));
        holds(rt, &("room", room), is_fault && is_front);
    }
    Ok(true)
}

#[test]
fn each_read_and_write_may_fail(rt: HostRuntime) {
    for engine in &ENGINES {
        passes(&rt, engine, reads_fail(&rt, rt.alloc(), engine));
        passes(&rt, engine, writes_fail(&rt, rt.alloc(), engine));
    }
}

// Whether a writer that can't be flushed has no fault, as an engine doesn't flush; and an
// interrupted read is a fault: it isn't tried again, though it would go well.
fn is_called_once(alloc: Global, engine: &Engine) -> Result<bool, Stop> {
    let (verb, link, recording) = run(alloc, engine, 0)?;
    let ending = link.end(alloc, verb, recording.as_slice(), Unflushed);
    let is_unflushed = ending.is_done();
    let reader = Interrupted {
        was_interrupted: false,
    };
    let ending = link.end(alloc, verb, reader, Vec::new(alloc));
    let is_interrupted = ending.is_fault(LinkFault::Read, (1, 0)) && ending.writer.is_empty();
    Ok(is_unflushed && is_interrupted)
}

// Whether a reader isn't asked again after its end; and a writer that refuses each write isn't asked
// where nothing is to be written: an empty recording has no text but the totals of `check`.
fn is_called_no_more(alloc: Global, engine: &Engine) -> Result<bool, Stop> {
    let (verb, link, recording) = run(alloc, engine, 0)?;
    let reader = FailsAfter {
        inner: InPieces(recording.as_slice(), 1),
        allowed: (recording.len() as u64).saturating_add(1),
    };
    let is_read = link.end(alloc, verb, reader, Vec::new(alloc)).is_done();
    let ending = link.end(alloc, verb, std::io::empty(), Unwritable);
    let is_unwritten = match verb {
        Verb::Check => ending.is_fault(LinkFault::Write, (0, 1)),
        _ => ending.is_done(),
    };
    Ok(is_read && is_unwritten)
}

// Whether an input is too long, and nothing of a normal form is written.
fn is_too_long<R: Read + Drop>(alloc: Global, verb: Verb, link: &Link, reader: R) -> bool {
    let ending = link.end(alloc, verb, reader, Vec::new(alloc));
    ending.is_fault(LinkFault::TooLong, (0, 0))
        && (verb != Verb::Normalise || ending.writer.is_empty())
}

// Whether an input without end is too long, and a recording of one octet more than the limit,
// however many octets come at a time.
fn is_limited(alloc: Global, engine: &Engine) -> Result<bool, Stop> {
    let (verb, link, recording) = run(alloc, engine, 1)?;
    let mut is_so = is_too_long(alloc, verb, &link, std::io::repeat(0));
    for most in &[1, 7, ALL] {
        is_so &= is_too_long(alloc, verb, &link, InPieces(recording.as_slice(), *most));
    }
    Ok(is_so)
}

// The recordings above have as many octets as the limit allows, and here they have one more.
#[test]
fn flushes_interruptions_and_limits(rt: HostRuntime) {
    for engine in &ENGINES {
        passes(&rt, engine, is_called_once(rt.alloc(), engine));
        passes(&rt, engine, is_called_no_more(rt.alloc(), engine));
        passes(&rt, engine, is_limited(rt.alloc(), engine));
    }
}
