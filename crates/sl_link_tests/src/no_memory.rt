//! Recordings that need no memory: packets that lie whole in their frame or unit are listed from
//! there, and the normal form of no packets is empty.
use super::support::engines::{Kind, Link, Verb};
use super::support::recordings::{TC_FRAME, TM_FRAME};
use super::support::rows::{Stop, passes};
use super::support::streams::Page;
use arrayvec::ArrayVec;
use std::alloc::Global;

const TM_TOTALS: &[u8] = b"frames 1 skipped 0 packets 1 idle 1 anomalies 0\n";

const TM_LISTED: &[u8] =
    b"vc 0 apid 1 type 0 secondary 0 flags 3 count 0 octets 10 0001c0000003aabbccdd\n";

const TC_LISTED: &[u8] =
    b"vc 0 map 0 apid 1 type 1 secondary 0 flags 3 count 0 octets 10 1001c0000003aabbccdd\n";

const TC_TOTALS: &[u8] = b"frames 1 skipped 0 packets 1 idle 0 anomalies 0\n";

// Frames that come too early, too late, outside of the window, and in lockout.
const REFUSED: [u8; 28] = [
    0, 1, 0, 6, 4, 0xC0, 0, 0, 1, 0, 6, 251, 0xC0, 0, 0, 1, 0, 6, 5, 0xC0, 0, 0, 1, 0, 6, 0, 0xC0,
    0,
];

// An engine, a recording, and what is written of it.
type Case<'a> = (Kind, Verb, u16, &'a [u8], &'a [u8]);

const CASES: [Case; 6] = [
    (Kind::Tm, Verb::Check, 32, &TM_FRAME, TM_TOTALS),
    (Kind::Tm, Verb::Packets, 32, &TM_FRAME, TM_LISTED),
    (Kind::Tm, Verb::Normalise, 32, &[], &[]),
    (Kind::Tc, Verb::Check, 16, &TC_FRAME, TC_TOTALS),
    (Kind::Tc, Verb::Packets, 16, &TC_FRAME, TC_LISTED),
    (Kind::Tc, Verb::Normalise, 16, &REFUSED, &[]),
];

// Whether an engine writes this.
fn writes(alloc: Global, case: &Case) -> Result<bool, Stop> {
    let (kind, verb, length, recording, wanted) = case;
    let link = Link::new(*kind, *length, false, 0, 100)?;
    let ending = link.end(
        alloc,
        *verb,
        *recording,
        Page {
            octets: ArrayVec::new(),
        },
    );
    ending.outcome?;
    Ok(ending.writer.octets.as_slice() == *wanted)
}

#[test]
fn whole_packets_and_none_take_no_memory(rt: HostRuntime) {
    for case in &CASES {
        passes(&rt, &(case.0, case.1), writes(rt.alloc(), case));
    }
}
