//! The listings of the anomalies of TM recordings, and of their packets.
use super::support::engines::{ALL, Kind, Link, Verb};
use super::support::recordings::{
    AROUND_IDLE, BEGUN, ENDED, FIRST, FIVES, FOREIGN, FULL, LONG, TEN_FILLED, THROUGH,
    TM_TEN_LISTED, WITH_FECF, WITH_GAP, ZEROS, octets,
};
use super::support::rows::{Stop, holds, passes};
use std::alloc::Global;

// Recordings, and the listings of their anomalies.
const CHECKED: [(&[&str], &str); 16] = [
    (&[], "frames 0 skipped 0 packets 0 idle 0 anomalies 0\n"),
    (
        &[FIRST, TEN_FILLED],
        "frames 1 skipped 0 packets 1 idle 1 anomalies 0\n",
    ),
    (
        &[FIRST, LONG, "07ffc0"],
        "32 open vc 0 octets 3\nframes 1 skipped 0 packets 1 idle 0 anomalies 1\n",
    ),
    (&FULL, "frames 1 skipped 0 packets 1 idle 0 anomalies 0\n"),
    (
        &WITH_GAP,
        "32 gap vc 0 expected 1 found 2\n32 dropped vc 0 octets 3\n\
        frames 2 skipped 0 packets 2 idle 1 anomalies 2\n",
    ),
    (
        &AROUND_IDLE,
        "frames 3 skipped 0 packets 3 idle 1 anomalies 0\n",
    ),
    (
        &[FIRST, LONG, BEGUN, "001001011811", ENDED],
        "32 dropped vc 0 octets 3\nframes 2 skipped 0 packets 1 idle 1 anomalies 1\n",
    ),
    (
        &[FIRST, LONG, BEGUN, FIRST, LONG, BEGUN],
        "32 gap vc 0 expected 1 found 0\n32 dropped vc 0 octets 3\n64 open vc 0 octets 3\n\
        frames 2 skipped 0 packets 2 idle 0 anomalies 3\n",
    ),
    (
        &[FIRST, TEN_FILLED, "0010000018000001"],
        "32 rest 8\nframes 1 skipped 0 packets 1 idle 1 anomalies 1\n",
    ),
    (
        &[
            FIRST,
            LONG,
            BEGUN,
            "001001019800",
            ZEROS,
            "001002021807",
            ENDED,
        ],
        "32 dropped vc 0 octets 3\n32 opaque vc 0\n\
        frames 3 skipped 0 packets 2 idle 1 anomalies 2\n",
    ),
    (
        &FOREIGN,
        "0 foreign vc 0\nframes 1 skipped 0 packets 1 idle 0 anomalies 1\n",
    ),
    (
        &[
            FIRST,
            LONG,
            BEGUN,
            "001000001ffe",
            FIVES,
            "001001011807",
            ENDED,
        ],
        "32 gap vc 0 expected 1 found 0\n32 dropped vc 0 octets 3\n\
        frames 3 skipped 0 packets 2 idle 1 anomalies 2\n",
    ),
    (
        &THROUGH,
        "frames 2 skipped 0 packets 3 idle 1 anomalies 0\n",
    ),
    (
        &["00100000181a", ZEROS],
        "0 opaque vc 0\nframes 1 skipped 0 packets 0 idle 0 anomalies 1\n",
    ),
    (
        &["001000001819", ZEROS],
        "32 open vc 0 octets 1\nframes 1 skipped 0 packets 0 idle 0 anomalies 1\n",
    ),
    (
        &[FIRST, ZEROS],
        "32 open vc 0 octets 5\nframes 1 skipped 0 packets 3 idle 0 anomalies 1\n",
    ),
];

// Recordings, and the listings of their packets.
const LISTED: [(&[&str], &str); 3] = [
    (&[], ""),
    (&[FIRST, TEN_FILLED], TM_TEN_LISTED),
    (
        &AROUND_IDLE,
        "vc 0 apid 2 type 0 secondary 0 flags 3 count 5 octets 23 \
        0002c00500101111111111111111111111111111111111\n\
        vc 0 apid 3 type 0 secondary 0 flags 3 count 0 octets 10 0003c000000301020304\n\
        vc 0 apid 1 type 0 secondary 0 flags 3 count 0 octets 10 0001c0000003aabbccdd\n",
    ),
];

// Whether an engine writes this listing, reads all octets, and counts anomalies only in a check.
fn is_listed(alloc: Global, verb: Verb, parts: &[&str], listing: &str) -> Result<bool, Stop> {
    let link = Link::new(Kind::Tm, 32, false, 0, 1000)?;
    let recording = octets(alloc, parts)?;
    let answer = link.answer(alloc, verb, &recording, ALL)?;
    let [all, .., anomalies] = answer.counts();
    let is_counted = all == recording.len() as u64 && (verb == Verb::Check || anomalies == 0);
    Ok(is_counted && answer.text() == listing)
}

#[test]
fn listings_of_recordings(rt: HostRuntime) {
    for (parts, listing) in &CHECKED {
        let outcome = is_listed(rt.alloc(), Verb::Check, parts, listing);
        passes(&rt, parts, outcome);
    }
    for (parts, listing) in &LISTED {
        let outcome = is_listed(rt.alloc(), Verb::Packets, parts, listing);
        passes(&rt, parts, outcome);
    }
}

#[test]
fn a_frame_with_a_wrong_error_control_field_is_an_anomaly(rt: HostRuntime) -> Result<(), Stop> {
    let recording = octets(rt.alloc(), &WITH_FECF)?;
    let link = Link::new(Kind::Tm, 34, true, 0, 1000)?;
    let wanted = b"0 skip fecf\nframes 2 skipped 1 packets 1 idle 1 anomalies 1\n";
    let is_told = link.writes(rt.alloc(), Verb::Check, &recording, wanted)?;
    holds(&rt, &WITH_FECF, is_told);
    Ok(())
}
