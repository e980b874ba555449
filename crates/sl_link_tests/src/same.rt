//! Whether two recordings deliver the same packets: ones that do, ones that don't, and faults.
use super::support::recordings::{
    AROUND_IDLE, DAMAGED, DIVIDED, FIRST, LOCKED_OUT, SECOND, TEN_FILLED, THROUGH, WHOLE, WHOLE_BD,
    WITH_GAP, ZEROS, octets,
};
use super::support::streams::{FailsAfter, InPieces, Unreadable};
use sl_link::{
    Counted, LinkFault, Managed, ManagedFault, same_packets_in_memory_tc,
    same_packets_in_memory_tm, same_packets_tc, same_packets_tm,
};
use std::alloc::Global;
use std::io::Read;
use std::test::Fail;

// What a comparison answers, and how many faults its readers had.
type Compared = (Result<bool, LinkFault>, (u64, u64));

fn link(limit: u64) -> Result<Managed, ManagedFault> {
    Managed::new(1, 32, false, 16, false, 10, 0, limit)
}

fn compare_tm<A: Read + Drop, B: Read + Drop>(
    alloc: Global,
    limit: u64,
    one: A,
    other: B,
) -> Result<Compared, ManagedFault> {
    let managed = link(limit)?;
    let mut one = Counted::new(one);
    let mut other = Counted::new(other);
    let outcome = same_packets_tm(alloc, &managed, &mut one, &mut other);
    Ok((outcome, (one.faults(), other.faults())))
}

fn compare_tc<A: Read + Drop, B: Read + Drop>(
    alloc: Global,
    limit: u64,
    one: A,
    other: B,
) -> Result<Compared, ManagedFault> {
    let managed = link(limit)?;
    let mut one = Counted::new(one);
    let mut other = Counted::new(other);
    let outcome = same_packets_tc(alloc, &managed, &mut one, &mut other);
    Ok((outcome, (one.faults(), other.faults())))
}

// What a comparison in memory answers.
type InMemory = Result<Result<bool, LinkFault>, ManagedFault>;

fn compare_in_memory_tm(alloc: Global, limit: u64, one: &[u8], other: &[u8]) -> InMemory {
    let managed = link(limit)?;
    Ok(same_packets_in_memory_tm(alloc, &managed, one, other))
}

fn compare_in_memory_tc(alloc: Global, limit: u64, one: &[u8], other: &[u8]) -> InMemory {
    let managed = link(limit)?;
    Ok(same_packets_in_memory_tc(alloc, &managed, one, other))
}

// Pairs of TM recordings, and whether their packets are the same.
const TM_PAIRS: [(&[&str], &[&str], bool); 8] = [
    (&[], &[], true),
    (&[], &[FIRST, TEN_FILLED], false),
    (&[FIRST, TEN_FILLED], &[FIRST, TEN_FILLED], true),
    // Other counts, other packets, and a damaged octet.
    (&[FIRST, TEN_FILLED], &["0010aabb1800", TEN_FILLED], true),
    (&[FIRST, TEN_FILLED], &[FIRST, ZEROS], false),
    (&[FIRST, TEN_FILLED], &[FIRST, DAMAGED], false),
    // A packet in two frames, with an idle frame within it, and with a frame lost.
    (&THROUGH, &AROUND_IDLE, true),
    (&THROUGH, &WITH_GAP, false),
];

#[test]
fn tm_recordings_are_compared(rt: HostRuntime) -> Result<(), Fail> {
    let alloc = rt.alloc();
    for (one, other, same) in &TM_PAIRS {
        let one = octets(alloc, one)?;
        let other = octets(alloc, other)?;
        let (one, other) = (one.as_slice(), other.as_slice());
        let found = compare_tm(alloc, 1000, one, other)?;
        assert_eq!(rt; found, (Ok(*same), (0, 0)));
        let turned = compare_tm(alloc, 1000, InPieces(other, 1), one)?;
        assert_eq!(rt; turned, (Ok(*same), (0, 0)));
        let in_memory = compare_in_memory_tm(alloc, 1000, one, other)?;
        assert_eq!(rt; in_memory, Ok(*same));
    }
    Ok(())
}

// Pairs of TC recordings, and whether their packets are the same.
const TC_PAIRS: [(&[&str], &[&str], bool); 7] = [
    (&[], &[], true),
    (&[WHOLE], &[WHOLE], true),
    (&[WHOLE], &[WHOLE_BD], true),
    (&[WHOLE], &LOCKED_OUT, true),
    // A frame that comes twice is accepted once, and one that comes too early isn't.
    (&[WHOLE, WHOLE, SECOND], &[SECOND, WHOLE, SECOND], true),
    (&[WHOLE, SECOND], &[WHOLE], false),
    (&[WHOLE], &DIVIDED, false),
];

#[test]
fn tc_recordings_are_compared(rt: HostRuntime) -> Result<(), Fail> {
    let alloc = rt.alloc();
    for (one, other, same) in &TC_PAIRS {
        let one = octets(alloc, one)?;
        let other = octets(alloc, other)?;
        let (one, other) = (one.as_slice(), other.as_slice());
        let found = compare_tc(alloc, 1000, one, other)?;
        assert_eq!(rt; found, (Ok(*same), (0, 0)));
        let turned = compare_tc(alloc, 1000, InPieces(other, 1), one)?;
        assert_eq!(rt; turned, (Ok(*same), (0, 0)));
        let in_memory = compare_in_memory_tc(alloc, 1000, one, other)?;
        assert_eq!(rt; in_memory, Ok(*same));
    }
    Ok(())
}

// The answer is the fault of either recording; after a fault of the first the other isn't read.
#[test]
fn either_recording_may_fail(rt: HostRuntime) -> Result<(), Fail> {
    let alloc = rt.alloc();
    let recording = octets(alloc, &[FIRST, TEN_FILLED])?;
    let whole = recording.as_slice();
    let first = compare_tm(alloc, 32, Unreadable, Unreadable)?;
    assert_eq!(rt; first, (Err(LinkFault::Read), (1, 0)));
    let second = compare_tm(
        alloc,
        32,
        whole,
        FailsAfter {
            inner: whole,
            allowed: 1,
        },
    )?;
    assert_eq!(rt; second, (Err(LinkFault::Read), (0, 1)));
    let long = compare_tm(alloc, 31, whole, Unreadable)?;
    assert_eq!(rt; long, (Err(LinkFault::TooLong), (0, 0)));
    let other_long = compare_tc(alloc, 31, "".as_bytes(), whole)?;
    assert_eq!(rt; other_long, (Err(LinkFault::TooLong), (0, 0)));
    let unread = compare_tc(alloc, 32, Unreadable, whole)?;
    assert_eq!(rt; unread, (Err(LinkFault::Read), (1, 0)));
    let other_unread = compare_tc(alloc, 32, whole, Unreadable)?;
    assert_eq!(rt; other_unread, (Err(LinkFault::Read), (0, 1)));
    let in_memory = compare_in_memory_tm(alloc, 31, "".as_bytes(), whole)?;
    assert_eq!(rt; in_memory, Err(LinkFault::TooLong));
    let also = compare_in_memory_tc(alloc, 31, whole, "".as_bytes())?;
    assert_eq!(rt; also, Err(LinkFault::TooLong));
    Ok(())
}
