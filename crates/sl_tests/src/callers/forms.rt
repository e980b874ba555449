//! The callers of the engines, run.
use crate::support::recordings::{TC_FRAME, TM_FRAME};
use crate::support::rows::{Stop, passes};
use sl_callers::forms::{
    have_same_tc_packets, have_same_tm_packets, normalise_tc_twice, normalise_tm_twice,
};
use sl_link::{LinkFault, Managed};
use std::alloc::Global;

// A TM frame with the packet of `TM_FRAME` but other counts and idle fill; one with another packet.
const TM_FILLED: [u8; 32] = [
    0x00, 0x10, 0x4D, 0xC8, 0x18, 0x00, 0x00, 0x01, 0xC0, 0x00, 0x00, 0x03, 0xAA, 0xBB, 0xCC, 0xDD,
    0x07, 0xFF, 0x00, 0x07, 0x00, 0x09, 0x55, 0x55, 0x55, 0x55, 0x55, 0x55, 0x55, 0x55, 0x55, 0x55,
];

const TM_OTHER: [u8; 32] = [
    0x00, 0x10, 0x00, 0x00, 0x18, 0x00, 0x00, 0x01, 0xC0, 0x00, 0x00, 0x03, 0xAA, 0xBB, 0xCC, 0xDE,
    0x07, 0xFF, 0xC0, 0x00, 0x00, 0x09, 0x00, 0x00, 0x00, 0x00, 0x00, 0x00, 0x00, 0x00, 0x00, 0x00,
];

// A frame of type BD with the unit of `TC_FRAME`, and one of type AD with its packet on MAP 1.
const TC_BYPASSING: [u8; 16] = [
    0x20, 0x01, 0x00, 0x0F, 0x00, 0xC0, 0x10, 0x01, 0xC0, 0x00, 0x00, 0x03, 0xAA, 0xBB, 0xCC, 0xDD,
];

const TC_OTHER: [u8; 16] = [
    0x00, 0x01, 0x00, 0x0F, 0x00, 0xC1, 0x10, 0x01, 0xC0, 0x00, 0x00, 0x03, 0xAA, 0xBB, 0xCC, 0xDD,
];

// A link with a limit of a hundred octets.
fn link() -> Result<Managed, Stop> {
    Managed::new(1, 32, false, 16, false, 10, 0, 100).or(Err(Stop::Absent))
}

// The four callers, without their contracts: whether another recording has the same packets, and
// whether a recording that is normalised twice becomes these octets.
fn is_same_tm(alloc: Global, other: &[u8]) -> Result<bool, Stop> {
    let link = link()?;
    Ok(have_same_tm_packets(alloc, &link, &TM_FRAME, other)?)
}

fn becomes_tm(alloc: Global, form: &[u8]) -> Result<bool, Stop> {
    let link = link()?;
    Ok(normalise_tm_twice(alloc, &link, &TM_FILLED)?.as_slice() == form)
}

fn is_same_tc(alloc: Global, other: &[u8]) -> Result<bool, Stop> {
    let link = link()?;
    Ok(have_same_tc_packets(alloc, &link, &TC_FRAME, other)?)
}

fn becomes_tc(alloc: Global, form: &[u8]) -> Result<bool, Stop> {
    let link = link()?;
    Ok(normalise_tc_twice(alloc, &link, &TC_BYPASSING)?.as_slice() == form)
}

// Whether all four refuse a recording over the limit, as the second where they take two.
fn is_too_long(alloc: Global) -> Result<bool, Stop> {
    let link = link()?;
    let long = [0; 101];
    let outcomes = [
        have_same_tm_packets(alloc, &link, &TM_FRAME, &long).err(),
        normalise_tm_twice(alloc, &link, &long).err(),
        have_same_tc_packets(alloc, &link, &TC_FRAME, &long).err(),
        normalise_tc_twice(alloc, &link, &long).err(),
    ];
    Ok(outcomes == [Some(LinkFault::TooLong); 4])
}

#[test]
fn callers_tell_packets_by_normal_forms(rt: HostRuntime) {
    let alloc = rt.alloc();
    let rows = [
        ("a TM packet again", is_same_tm(alloc, &TM_FILLED), true),
        ("another TM packet", is_same_tm(alloc, &TM_OTHER), false),
        ("TM normalised twice", becomes_tm(alloc, &TM_FRAME), true),
        ("TM not normalised", becomes_tm(alloc, &TM_FILLED), false),
        ("a TC packet again", is_same_tc(alloc, &TC_BYPASSING), true),
        ("another TC packet", is_same_tc(alloc, &TC_OTHER), false),
        ("TC normalised twice", becomes_tc(alloc, &TC_FRAME), true),
        ("TC not normalised", becomes_tc(alloc, &TC_BYPASSING), false),
        ("a recording over the limit", is_too_long(alloc), true),
        ("its spacecraft", link().map(|l| l.spacecraft() == 1), true),
    ];
    for (row, outcome, wanted) in rows {
        passes(&rt, &row, outcome.map(|is_so| is_so == wanted));
    }
}
