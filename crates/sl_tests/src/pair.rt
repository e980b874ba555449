//! Two recordings whose packets come in turns. What is left follows from counting by hand.
use crate::support::packets::hand;
use crate::support::rows::{Stop, holds};
use sl_pair::{Answer, Pairing, Station, first_run};
use std::alloc::Global;
use std::hash::{BuildHasherDefault, FoldHasher};

// Packets of APID 1 with two contents, and one of APID 2.
const A: [u8; 7] = [0x00, 0x01, 0xC0, 0x00, 0x00, 0x00, 0xAA];

const B: [u8; 7] = [0x00, 0x01, 0xC0, 0x01, 0x00, 0x00, 0xBB];

const C: [u8; 20] = [
    0x00, 0x02, 0xC0, 0x00, 0x00, 0x0D, 0, 0, 0, 0, 0, 0, 0, 0, 0, 0, 0, 0, 0, 0,
];

type Hasher = BuildHasherDefault<FoldHasher>;

// A packet of a station on a channel.
type Coming = (Station, u16, &'static [u8]);

// A station and a channel, and what is left there: packets with both of their numbers.
type Remaining = (Station, u16, &'static [(&'static [u8], u64, u64)]);

// The packets that come, the answer, and what is left.
static PASSES: [(&[Coming], Answer, &[Remaining]); 5] = [
    // No packets.
    (&[], Answer::Same, &[(Station::First, 0, &[])]),
    // The second recording lacks the last copy of `A`, and a packet of another channel.
    (
        &[
            (Station::First, 3, &A),
            (Station::First, 3, &C),
            (Station::First, 3, &A),
            (Station::Second, 3, &C),
            (Station::First, 4095, &B),
            (Station::Second, 3, &A),
        ],
        Answer::Different,
        &[
            (Station::First, 3, &[(&A, 2, 1)]),
            (Station::First, 4095, &[(&B, 0, 0)]),
            (Station::Second, 3, &[]),
            (Station::Second, 4095, &[]),
        ],
    ),
    // The same packets in another order.
    (
        &[
            (Station::First, 0, &A),
            (Station::First, 0, &B),
            (Station::Second, 0, &B),
            (Station::Second, 0, &A),
        ],
        Answer::Reordered,
        &[(Station::First, 0, &[]), (Station::Second, 0, &[])],
    ),
    // The same packets, copies among them, in turns.
    (
        &[
            (Station::Second, 7, &A),
            (Station::Second, 7, &A),
            (Station::First, 7, &A),
            (Station::Second, 7, &C),
            (Station::First, 7, &A),
            (Station::First, 7, &C),
        ],
        Answer::Same,
        &[(Station::First, 7, &[]), (Station::Second, 7, &[])],
    ),
    // Nothing in common, and three copies that wait.
    (
        &[
            (Station::First, 1, &A),
            (Station::First, 1, &A),
            (Station::Second, 1, &B),
            (Station::First, 1, &A),
        ],
        Answer::Different,
        &[
            (Station::First, 1, &[(&A, 0, 0), (&A, 1, 1), (&A, 2, 2)]),
            (Station::Second, 1, &[(&B, 0, 0)]),
            (Station::First, 5000, &[]),
        ],
    ),
];

// Whether these packets are left, with their numbers.
fn are_left(
    pairing: &Pairing<Hasher>,
    station: Station,
    channel: u16,
    wanted: &[(&[u8], u64, u64)],
) -> Result<bool, Stop> {
    let left = pairing.left(station, channel)?;
    for (one, (packet, number, apid_number)) in left.iter().zip(wanted) {
        let numbers = (one.number(), one.apid_number());
        if one.packet() != *packet || numbers != (*number, *apid_number) {
            return Ok(false);
        }
    }
    Ok(left.len() == wanted.len())
}

// The store after these packets.
fn pairing_of(alloc: Global, comings: &[Coming]) -> Result<Pairing<Hasher>, Stop> {
    let mut pairing = Pairing::new(alloc, BuildHasherDefault::new());
    for (station, channel, packet) in comings {
        if *channel > 4095 {
            return Err(Stop::Absent);
        }
        pairing.take_turn(*station);
        hand(&mut pairing, *channel, packet)?;
    }
    Ok(pairing)
}

#[test]
fn what_has_no_counterpart_is_left(rt: HostRuntime) -> Result<(), Stop> {
    for (comings, answer, remaining) in &PASSES {
        let pairing = pairing_of(rt.alloc(), comings)?;
        holds(&rt, answer, pairing.answer() == *answer);
        for (station, channel, wanted) in *remaining {
            holds(
                &rt,
                channel,
                are_left(&pairing, *station, *channel, wanted)?,
            );
        }
    }
    Ok(())
}

// Packets of APID 1 with the counts 16383 and 2; `A` and `B` have the counts 0 and 1.
const LAST: [u8; 7] = [0x00, 0x01, 0xFF, 0xFF, 0x00, 0x00, 0xAA];

const GAP: [u8; 7] = [0x00, 0x01, 0xC0, 0x02, 0x00, 0x00, 0xAA];

static RUNS: [Coming; 5] = [
    (Station::Second, 9, &C),
    (Station::Second, 9, &LAST),
    (Station::Second, 9, &A),
    (Station::Second, 9, &B),
    (Station::Second, 9, &GAP),
];

// The APIDs and counts of packets, and how many packets the runs have.
#[test]
fn what_is_left_is_in_runs(rt: HostRuntime) -> Result<(), Stop> {
    let pairing = pairing_of(rt.alloc(), &RUNS)?;
    let left = pairing.left_by_apid(Station::Second, 9)?;
    let wanted = [(1, 16383), (1, 0), (1, 1), (1, 2), (2, 0)];
    holds(&rt, &"length", left.len() == wanted.len());
    for (one, fields) in left.iter().zip(&wanted) {
        holds(&rt, fields, (one.apid(), one.count()) == *fields);
    }
    let left = left.as_slice();
    holds(&rt, &"run", first_run(left) == 4);
    holds(
        &rt,
        &"last",
        left.last().is_some_and(|one| one.number() == 0),
    );
    holds(&rt, &"none", first_run(&[]) == 0);
    Ok(())
}

#[test]
fn the_first_station_begins(rt: HostRuntime) {
    let mut pairing: Pairing<Hasher> = Pairing::new(rt.alloc(), BuildHasherDefault::new());
    let first = pairing.turn();
    pairing.take_turn(Station::Second);
    holds(
        &rt,
        &"turns",
        (first, pairing.turn()) == (Station::First, Station::Second),
    );
}
