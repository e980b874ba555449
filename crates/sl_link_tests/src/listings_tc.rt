//! The listings of the anomalies of TC recordings, and of their packets.
use super::support::engines::ALL;
use super::support::recordings::{
    DIVIDED, FIRST_OF_3, IN_WINDOW, LAST_OF_3, MIDDLE_OF_3, MIXED, SECOND, TC_TEN_LISTED, THIRD,
    UNLOCK_WITH_FECF, WHOLE, WITH_IDLE, too_long,
};
use super::support::rows::{Stop, holds, passes};
use super::support::run::{ProgramRun, lists, writes};
use std::alloc::{AllocError, Global};
use std::process::Abort;

const CHECK: &str = "sllink check tc --scid 1 --tm-length 32 --tc-length 16";

const FROM_255: &str = "sllink check tc --scid 1 --tm-length 32 --tc-length 16 --vr 255";

const UP_TO_24: &str = "sllink check tc --scid 1 --tm-length 32 --tc-length 24";

const WITH_FECF: &str = "sllink check tc --scid 1 --tm-length 32 --tc-length 16 --tc-fecf";

const PACKETS: &str = "sllink packets tc --scid 1 --tm-length 32 --tc-length 16";

// Recordings, statuses and the listings of their anomalies.
const CHECKED: [(&[&str], u8, &str); 9] = [
    (&[], 0, "frames 0 skipped 0 packets 0 idle 0 anomalies 0\n"),
    (
        &[WHOLE],
        0,
        "frames 1 skipped 0 packets 1 idle 0 anomalies 0\n",
    ),
    (
        &IN_WINDOW,
        1,
        "0 early vc 0 ad 4\n7 late vc 0 ad 251\n14 outside vc 0 ad 5\n21 refused vc 0 ad 0\n\
        frames 4 skipped 0 packets 0 idle 0 anomalies 4\n",
    ),
    // A frame that comes too early, and again in its turn.
    (
        &[SECOND, WHOLE, WHOLE, THIRD, SECOND],
        1,
        "0 early vc 0 ad 1\n32 late vc 0 ad 0\n48 early vc 0 ad 2\n\
        frames 5 skipped 0 packets 2 idle 0 anomalies 3\n",
    ),
    (
        &MIXED,
        1,
        "0 stray vc 0 map 1\n39 dropped vc 0 map 2 octets 4\n\
        frames 6 skipped 0 packets 2 idle 0 anomalies 2\n",
    ),
    (
        &DIVIDED,
        0,
        "frames 3 skipped 0 packets 1 idle 0 anomalies 0\n",
    ),
    // A series without octets is incomplete, and dropped; and octets are left after a packet.
    (
        &["000100050040"],
        1,
        "6 open vc 0 map 0 octets 0\nframes 1 skipped 0 packets 0 idle 0 anomalies 1\n",
    ),
    (
        &["000100050040", "0001000d01c01002c0010000ee77"],
        1,
        "6 dropped vc 0 map 0 octets 0\n6 tail vc 0 map 0 octets 1\n\
        frames 2 skipped 0 packets 1 idle 0 anomalies 2\n",
    ),
    // A remainder, and then series of several channels in their order.
    (
        &[
            FIRST_OF_3,
            MIDDLE_OF_3,
            "00010006004300",
            "000100050142",
            "00010002000000",
        ],
        1,
        "45 rest 7\n52 open vc 0 map 2 octets 0\n\
        52 open vc 0 map 3 octets 1\n52 open vc 5 map 0 octets 20\n\
        frames 4 skipped 0 packets 0 idle 0 anomalies 4\n",
    ),
];

// Other command lines, recordings, statuses and listings.
const LISTINGS: [(&str, &[&str], u8, &str); 6] = [
    (
        FROM_255,
        &DIVIDED,
        1,
        "0 early vc 5 ad 0\n16 early vc 5 ad 1\n32 early vc 5 ad 2\n\
        frames 3 skipped 0 packets 0 idle 0 anomalies 3\n",
    ),
    (
        WITH_FECF,
        &["3001000700000e5c", UNLOCK_WITH_FECF],
        1,
        "0 skip fecf\nframes 2 skipped 1 packets 0 idle 0 anomalies 1\n",
    ),
    // An idle packet after a packet.
    (
        UP_TO_24,
        &[WITH_IDLE],
        0,
        "frames 1 skipped 0 packets 1 idle 1 anomalies 0\n",
    ),
    // The packets of recordings.
    (PACKETS, &[], 0, ""),
    (PACKETS, &[WHOLE], 0, TC_TEN_LISTED),
    // A unit that isn't accepted, and a packet in three segments.
    (
        PACKETS,
        &[
            "0001000f04c01001c0000003aabbccdd",
            FIRST_OF_3,
            MIDDLE_OF_3,
            LAST_OF_3,
        ],
        0,
        "vc 5 map 0 apid 2 type 1 secondary 0 flags 3 count 5 octets 23 \
        1002c00500101111111111111111111111111111111111\n",
    ),
];

const OF_ALL_SERIES: &str = "frames 4096 skipped 0 packets 0 idle 0 anomalies 4096";

const OF_TOO_LONG: &str = "104864 long vc 0 map 0\n104880 stray vc 0 map 0\n\
    frames 6556 skipped 0 packets 0 idle 0 anomalies 2\n";

#[test]
fn listings_of_tc_recordings(rt: HostRuntime) {
    for (parts, status, listing) in &CHECKED {
        let outcome = lists(rt.alloc(), CHECK, parts, *status, listing);
        passes(&rt, parts, outcome);
    }
    for (line, parts, status, listing) in &LISTINGS {
        let outcome = lists(rt.alloc(), line, parts, *status, listing);
        passes(&rt, &(line, parts), outcome);
    }
}

// One segment of a series on each MAP of each virtual channel.
fn all_series(alloc: Global) -> Result<Vec<u8>, AllocError> {
    let mut recording = Vec::new(alloc);
    for vc in 0..64u8 {
        for map in 0..64u8 {
            recording.extend_from_slice(&[0x20, 0x01, vc << 2, 0x05, 0x00, 0x40 | map])?;
        }
    }
    Ok(recording)
}

// Whether this is the line of the series of a MAP.
fn is_open(alloc: Global, line: Option<&str>, vc: u8, map: u8) -> Result<bool, Stop> {
    let wanted = format!(in alloc; "24576 open vc {vc} map {map} octets 0")?;
    Ok(line == Some(wanted.as_str()))
}

// Whether there is a line for each MAP of each virtual channel, and then that of the totals.
fn are_open(rt: &impl Abort, alloc: Global, listing: &str) -> bool {
    let mut lines = listing.lines();
    for vc in 0..64u8 {
        for map in 0..64u8 {
            passes(rt, &(vc, map), is_open(alloc, lines.next(), vc, map));
        }
    }
    lines.next() == Some(OF_ALL_SERIES) && lines.next().is_none()
}

// Their lines are longer than a buffer of lines.
#[test]
fn series_of_all_channels_are_incomplete(rt: HostRuntime) -> Result<(), Stop> {
    let recording = all_series(rt.alloc())?;
    let outcome = ProgramRun::of(rt.alloc(), CHECK, &recording)?;
    let are_all = are_open(&rt, rt.alloc(), outcome.text());
    holds(&rt, &OF_ALL_SERIES, outcome.says(1, "") && are_all);
    Ok(())
}

#[test]
fn a_series_that_is_too_long_is_told(rt: HostRuntime) -> Result<(), Stop> {
    let recording = too_long(rt.alloc())?;
    let wanted = (1, OF_TOO_LONG.as_bytes());
    let is_told = writes(rt.alloc(), CHECK, &recording, ALL, wanted)?;
    holds(&rt, &OF_TOO_LONG, is_told);
    Ok(())
}
