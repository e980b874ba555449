//! Listings of TC frames.
use super::support::engines::{ALL, Kind, Link, Verb};
use super::support::recordings::{
    BAD_LENGTH, FIRST_OF_3, IN_WINDOW, LAST_OF_3, LOCKED_OUT, MIDDLE_OF_3, SKIPPED, UNLOCK_DAMAGED,
    UNLOCK_WITH_FECF, WHOLE, octets,
};
use super::support::rows::{Stop, holds, passes};
use super::support::run::{ProgramRun, lists};
use sl_link::LinkFault;
use std::alloc::{AllocError, Global};

const SHOW: &str = "sllink show tc --scid 1 --tm-length 32 --tc-length 16";

const WITH_FECF: &str = "sllink show tc --scid 1 --tm-length 32 --tc-length 16 --tc-fecf";

const FROM_255: &str = "sllink show tc --scid 1 --tm-length 32 --tc-length 16 --vr 255";

const WINDOW_OF_2: &str = "sllink show tc --scid 1 --tm-length 32 --tc-length 16 --window 2";

const ACCEPTED: &str = "0 frame vc 0 ad 0 segment whole map 0 octets 10 accept clcw 01000001\n";

const LISTINGS: [(&str, &[&str], &str); 15] = [
    (SHOW, &[], ""),
    (SHOW, &[WHOLE], ACCEPTED),
    (
        SHOW,
        &IN_WINDOW,
        "0 frame vc 0 ad 4 segment whole map 0 octets 1 early clcw 01000800\n\
        7 frame vc 0 ad 251 segment whole map 0 octets 1 late clcw 01000800\n\
        14 frame vc 0 ad 5 segment whole map 0 octets 1 outside clcw 01002800\n\
        21 frame vc 0 ad 0 segment whole map 0 octets 1 refused clcw 01002800\n",
    ),
    (
        SHOW,
        &LOCKED_OUT,
        "0 frame vc 0 ad 250 segment whole map 0 octets 1 outside clcw 01002000\n\
        7 frame vc 0 setvr 5 command clcw 01002200\n\
        15 frame vc 0 bd segment whole map 0 octets 10 accept clcw 01002400\n\
        31 frame vc 0 unlock command clcw 01000600\n",
    ),
    (
        SHOW,
        &[WHOLE, BAD_LENGTH],
        "0 frame vc 0 ad 0 segment whole map 0 octets 10 accept clcw 01000001\n16 rest 7\n",
    ),
    // A frame that isn't whole, and a header that isn't, after which the length could still be bad.
    (SHOW, &["0001000f00c01001c0000003aabbcc"], "0 rest 15\n"),
    (SHOW, &["00010000"], "0 rest 4\n"),
    (
        SHOW,
        &SKIPPED,
        "0 skip spacecraft\n7 skip version\n14 skip long\n\
        31 skip kind\n38 skip empty\n43 skip command\n",
    ),
    (
        WITH_FECF,
        &[UNLOCK_WITH_FECF],
        "0 frame vc 0 unlock command clcw 01000200\n",
    ),
    (WITH_FECF, &[UNLOCK_DAMAGED], "0 skip fecf\n"),
    // Six octets are a frame without error control alone.
    (WITH_FECF, &["300100050000"], "0 rest 6\n"),
    // Each virtual channel expects 0 first.
    (
        SHOW,
        &[WHOLE, FIRST_OF_3, MIDDLE_OF_3, LAST_OF_3],
        "0 frame vc 0 ad 0 segment whole map 0 octets 10 accept clcw 01000001\n\
        16 frame vc 5 ad 0 segment first map 0 octets 10 accept clcw 01140001\n\
        32 frame vc 5 ad 1 segment middle map 0 octets 10 accept clcw 01140002\n\
        48 frame vc 5 ad 2 segment last map 0 octets 3 accept clcw 01140003\n",
    ),
    // The FARM-B counter counts modulo 4.
    (
        SHOW,
        &[
            "200100050000",
            "200100050000",
            "200100050000",
            "200100050000",
        ],
        "0 frame vc 0 bd segment middle map 0 octets 0 accept clcw 01000200\n\
        6 frame vc 0 bd segment middle map 0 octets 0 accept clcw 01000400\n\
        12 frame vc 0 bd segment middle map 0 octets 0 accept clcw 01000600\n\
        18 frame vc 0 bd segment middle map 0 octets 0 accept clcw 01000000\n",
    ),
    (
        FROM_255,
        &["0001fc06ffff00", "0001fc0600c300"],
        "0 frame vc 63 ad 255 segment whole map 63 octets 1 accept clcw 01fc0000\n\
        7 frame vc 63 ad 0 segment whole map 3 octets 1 accept clcw 01fc0001\n",
    ),
    (
        WINDOW_OF_2,
        &["00010006ffc000", "0001000601c000"],
        "0 frame vc 0 ad 255 segment whole map 0 octets 1 late clcw 01000000\n\
        7 frame vc 0 ad 1 segment whole map 0 octets 1 outside clcw 01002000\n",
    ),
];

// Recordings, a limit, and the status: the limit is reached within a frame, and after a bad length.
const LIMITED: [(&[&str], &str, u8); 6] = [
    (&[WHOLE], "15", 3),
    (&[WHOLE], "16", 0),
    (&[WHOLE, BAD_LENGTH], "16", 3),
    (&[WHOLE, BAD_LENGTH], "20", 3),
    (&[WHOLE, BAD_LENGTH], "22", 3),
    (&[WHOLE, BAD_LENGTH], "23", 0),
];

// A frame of another spacecraft, one that is accepted, and a bad length.
const COUNTED: [&str; 3] = ["0002000600c000", WHOLE, BAD_LENGTH];

const COUNTED_SHOWN: &[u8] = b"0 skip spacecraft\n\
    7 frame vc 0 ad 0 segment whole map 0 octets 10 accept clcw 01000001\n\
    23 rest 7\n";

// The last lines of a long recording.
const LAST_OF_MANY: &str =
    "\n139993 frame vc 0 ad 31 segment whole map 0 octets 1 accept clcw 01000020\n\
    140000 rest 300005\n";

#[test]
fn tc_frames_are_listed(rt: HostRuntime) {
    for (line, parts, listing) in &LISTINGS {
        passes(
            &rt,
            &(line, parts),
            lists(rt.alloc(), line, parts, 0, listing),
        );
    }
}

#[test]
fn tc_totals_are_counted(rt: HostRuntime) -> Result<(), Stop> {
    let recording = octets(rt.alloc(), &COUNTED)?;
    let link = Link::new(Kind::Tc, 16, false, 0, 30)?;
    let answer = link.answer(rt.alloc(), Verb::Show, &recording, 1)?;
    holds(
        &rt,
        &COUNTED,
        answer.is([30, 2, 1, 7, 0, 0, 0], COUNTED_SHOWN),
    );
    Ok(())
}

// 20,000 frames, a bad length, and 300,000 octets after it.
fn many_frames(alloc: Global) -> Result<Vec<u8>, AllocError> {
    let mut recording = Vec::new(alloc);
    for number in 0..20_000u16 {
        let [_, ns] = number.to_be_bytes();
        recording.extend_from_slice(&[0x00, 0x01, 0x00, 0x06, ns, 0xC0, 0x00])?;
    }
    recording.extend_from_slice(&[0; 5])?;
    let end = recording.len().saturating_add(300_000);
    recording.resize(end, 0x55)?;
    Ok(recording)
}

// Frames lie across the end of the engine's buffer, and the remainder is longer than the buffer.
#[test]
fn a_recording_longer_than_the_buffer_is_listed(rt: HostRuntime) -> Result<(), Stop> {
    let recording = many_frames(rt.alloc())?;
    let link = Link::new(Kind::Tc, 16, false, 0, 1_000_000)?;
    let answer = link.answer(rt.alloc(), Verb::Show, &recording, ALL)?;
    let counts = [440_005, 20_000, 0, 300_005, 0, 0, 0];
    holds(&rt, &counts, answer.counts() == counts);
    holds(&rt, &LAST_OF_MANY, answer.text().ends_with(LAST_OF_MANY));
    Ok(())
}

// Whether a run has this status, and what is written by the limit is a front of the listing.
fn is_limited(
    alloc: Global,
    line: &str,
    recording: &[u8],
    most: usize,
    status: u8,
) -> Result<bool, AllocError> {
    let outcome = ProgramRun::with(alloc, line, recording, most)?;
    if status == 0 {
        return Ok(outcome.says(0, ""));
    }
    Ok(outcome.says(3, "sllink: too long\n") && ACCEPTED.starts_with(outcome.text()))
}

// The same all at once, and octet by octet.
fn are_limited(alloc: Global, parts: &[&str], limit: &str, status: u8) -> Result<bool, Stop> {
    let recording = octets(alloc, parts)?;
    let line = format!(in alloc; "{SHOW} --limit {limit}")?;
    let is_whole = is_limited(alloc, line.as_str(), &recording, ALL, status)?;
    Ok(is_whole && is_limited(alloc, line.as_str(), &recording, 1, status)?)
}

// Whether a bad length, and no end, is a fault before which nothing is written.
fn is_endless(alloc: Global) -> Result<bool, Stop> {
    let link = Link::new(Kind::Tc, 16, false, 0, 1_000_000)?;
    let ending = link.end(alloc, Verb::Show, std::io::repeat(0), Vec::new(alloc));
    Ok(ending.is_fault(LinkFault::TooLong, (0, 0)) && ending.writer.is_empty())
}

#[test]
fn the_limit_of_a_tc_recording_is_kept(rt: HostRuntime) {
    for (parts, limit, status) in &LIMITED {
        let outcome = are_limited(rt.alloc(), parts, limit, *status);
        passes(&rt, &(parts, limit), outcome);
    }
    passes(&rt, &"no end", is_endless(rt.alloc()));
}
