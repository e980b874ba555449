//! Normal forms of TC recordings.
use super::support::engines::{ALL, Kind, Link, Verb};
use super::support::recordings::{
    BAD_LENGTH, DIVIDED, DIVIDED_FROM_255, FIRST_OF_3, IN_WINDOW, LAST_OF_3, LOCKED_OUT,
    MIDDLE_OF_3, MIXED, SECOND, THIRD, WHOLE, WITH_IDLE, filled, octets,
};
use super::support::rows::{Stop, holds, passes};
use super::support::run::{normalises, writes};
use std::alloc::{AllocError, Global};

const NORMALISE: &str = "sllink normalise tc --scid 1 --tm-length 32 --tc-length 16";

const FROM_255: &str = "sllink normalise tc --scid 1 --tm-length 32 --tc-length 16 --vr 255";

const UP_TO_24: &str = "sllink normalise tc --scid 1 --tm-length 32 --tc-length 24";

// The packet of `WITH_IDLE` alone.
const WITHOUT_IDLE: &str = "0001000c00c01002c0010000ee";

// The frame of `WHOLE` with an error control field, one that is right and one that is wrong.
const GOOD_FIELD: &str = "0001001100c01001c0000003aabbccdd0552";

const WRONG_FIELD: &str = "0001001100c01001c0000003aabbccdd0553";

// Command lines, recordings and their normal forms.
const CASES: [(&str, &[&str], &[&str]); 14] = [
    (NORMALISE, &[], &[]),
    (NORMALISE, &[WHOLE], &[WHOLE]),
    // Frames that FARM-1 doesn't accept.
    (NORMALISE, &IN_WINDOW, &[]),
    // A packet of type BD, accepted in lockout, among Set V(R) and Unlock.
    (NORMALISE, &LOCKED_OUT, &[WHOLE]),
    // Packets on two MAPs, and what is out of sequence there.
    (
        NORMALISE,
        &MIXED,
        &[
            "0001000f00c11001c0000003aabbccdd",
            "0001000c01c21002c0010000ee",
        ],
    ),
    (NORMALISE, &DIVIDED, &DIVIDED),
    (FROM_255, &DIVIDED, &[]),
    (FROM_255, &DIVIDED_FROM_255, &DIVIDED_FROM_255),
    (UP_TO_24, &[WITH_IDLE], &[WITHOUT_IDLE]),
    // A frame that is longer than the managed length is skipped.
    (NORMALISE, &[WITH_IDLE, WHOLE], &[WHOLE]),
    // A frame that comes twice, and remainders.
    (NORMALISE, &[WHOLE, WHOLE, "0001000f00"], &[WHOLE]),
    (NORMALISE, &[WHOLE, BAD_LENGTH, FIRST_OF_3], &[WHOLE]),
    // A frame that comes too early, and again in its turn.
    (
        NORMALISE,
        &[SECOND, WHOLE, WHOLE, THIRD, SECOND],
        &[WHOLE, SECOND],
    ),
    // Virtual channels are written in rising order, each with an N(S) of its own.
    (
        NORMALISE,
        &[FIRST_OF_3, WHOLE, MIDDLE_OF_3, SECOND, LAST_OF_3],
        &[WHOLE, SECOND, FIRST_OF_3, MIDDLE_OF_3, LAST_OF_3],
    ),
];

// Greatest frame length, error control, limit; octets at a time, recording, totals, normal form.
type Counted<'a> = (
    (u16, bool, u64),
    usize,
    &'a [&'a str],
    [u64; 7],
    &'a [&'a str],
);

const COUNTED: [Counted; 3] = [
    (
        (24, false, 34),
        1,
        &["0002000600c000", WITH_IDLE, BAD_LENGTH],
        [34, 2, 1, 7, 1, 1, 0],
        &[WITHOUT_IDLE],
    ),
    // A frame with a wrong error control field or none isn't read; the form's frames have theirs.
    (
        (18, true, 1000),
        ALL,
        &[WRONG_FIELD, GOOD_FIELD],
        [36, 2, 1, 0, 1, 0, 0],
        &[GOOD_FIELD],
    ),
    ((18, true, 1000), ALL, &[WHOLE], [16, 1, 1, 0, 0, 0, 0], &[]),
];

// The last frame of a packet of 65,542 octets; one with an octet more, which gives the series up.
const LAST_OF_LONGEST: [u8; 8] = [0x00, 0x01, 0x00, 0x07, 0x9A, 0x80, 0x33, 0x33];

const LAST_OF_LONGER: [u8; 9] = [0x00, 0x01, 0x00, 0x08, 0x9A, 0x80, 0x33, 0x33, 0x33];

#[test]
fn normal_forms_of_tc_recordings(rt: HostRuntime) {
    for row in &CASES {
        passes(&rt, row, normalises(rt.alloc(), row.0, row.1, row.2));
    }
}

// Frames of one series of 6,554 segments of ten octets each, and the last one.
fn series(alloc: Global, last: &[u8]) -> Result<Vec<u8>, AllocError> {
    let mut frames = Vec::from_slice(alloc, &[0x00, 0x01, 0x00, 0x0F, 0x00, 0x40])?;
    filled(&mut frames, &[0x00, 0x03, 0xC0, 0x00, 0xFF, 0xFF], 0x33, 4)?;
    for number in 1..6554u16 {
        let [_, ns] = number.to_be_bytes();
        filled(&mut frames, &[0x00, 0x01, 0x00, 0x0F, ns, 0x00], 0x33, 10)?;
    }
    frames.extend_from_slice(last)?;
    Ok(frames)
}

// A series of 104,872 octets is its own normal form, and one of an octet more has an empty one.
#[test]
fn a_longest_packet_has_its_normal_form(rt: HostRuntime) -> Result<(), Stop> {
    let alloc = rt.alloc();
    let longest = series(alloc, &LAST_OF_LONGEST)?;
    let is_own = writes(alloc, NORMALISE, &longest, ALL, (0, &longest))?;
    holds(&rt, &LAST_OF_LONGEST, is_own && longest.len() == 104_872);
    let longer = series(alloc, &LAST_OF_LONGER)?;
    let is_given_up = writes(alloc, NORMALISE, &longer, ALL, (0, &[]))?;
    holds(&rt, &LAST_OF_LONGER, is_given_up);
    Ok(())
}

fn is_counted(alloc: Global, case: &Counted) -> Result<bool, Stop> {
    let ((length, fecf, limit), most, parts, counts, wanted) = case;
    let recording = octets(alloc, parts)?;
    let form = octets(alloc, wanted)?;
    let link = Link::new(Kind::Tc, *length, *fecf, 0, *limit)?;
    let answer = link.answer(alloc, Verb::Normalise, &recording, *most)?;
    Ok(answer.is(*counts, &form))
}

#[test]
fn packets_of_units_are_counted(rt: HostRuntime) {
    for case in &COUNTED {
        passes(&rt, case, is_counted(rt.alloc(), case));
    }
}
