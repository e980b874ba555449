//! Normal forms of TM recordings.
use super::support::engines::{Kind, Link, Verb};
use super::support::recordings::{
    AROUND_IDLE, BEGUN, ENDED, FIRST, FOREIGN, FULL, HUNDRED, LONG, TEN, TEN_FILLED, THROUGH,
    WITH_GAP, ZEROS, octets,
};
use super::support::rows::{Stop, holds, passes};
use std::alloc::Global;

// The last octets of a packet of twenty-nine.
const DATA: &str = "2222222222222222222222222222222222222222222222";

// The normal form of the packets of twenty-three and of ten octets, and that of the first alone.
const BOTH: [&str; 7] = [
    FIRST,
    LONG,
    "0001c0",
    "001001011807",
    "000003aabbccdd07ffc000000c",
    "00000000000000",
    "000000000000",
];

const ALONE: [&str; 6] = [
    FIRST,
    LONG,
    "07ffc0",
    "001001011fff",
    "000016",
    "0000000000000000000000000000000000000000000000",
];

// A frame of another spacecraft among others, and a remainder.
const COUNTED: [&str; 8] = [
    FIRST,
    LONG,
    BEGUN,
    "001001011807",
    ENDED,
    "005001011807",
    ENDED,
    "00100000",
];

// The normal form of a packet of ten octets.
const ONE: [&str; 2] = [FIRST, TEN_FILLED];

const ONE_WITH_FECF: [&str; 3] = [FIRST, TEN_FILLED, "5e0c"];

// Recordings and their normal forms.
pub const CASES: [(&[&str], &[&str]); 23] = [
    (&[], &[]),
    (&ONE, &ONE),
    // Other counts, and an idle packet with other sequence flags and data.
    (
        &["00104dc81800", TEN, "07ff00070009", "55555555555555555555"],
        &ONE,
    ),
    (&ALONE, &ALONE),
    (&[FIRST, LONG, "07ffc0"], &ALONE),
    // A packet that ends with its data field.
    (&FULL, &FULL),
    // A packet that runs through two frames, and a gap, a wrong pointer, an idle frame and an
    // opaque one within it.
    (&THROUGH, &THROUGH),
    (&WITH_GAP, &BOTH),
    (&[FIRST, LONG, BEGUN, "001001011811", ENDED], &ALONE),
    (&AROUND_IDLE, &THROUGH),
    (
        &[
            FIRST,
            LONG,
            BEGUN,
            "001001019800",
            ZEROS,
            "001002021807",
            ENDED,
        ],
        &BOTH,
    ),
    // A packet that ends with a later data field, in which no packet starts; the same where the
    // pointer says that one starts at 0; and one that would end within such a field.
    (
        &[FIRST, LONG, BEGUN, "001001011fff", "000016", DATA],
        &[FIRST, LONG, BEGUN, "001001011fff", "000016", DATA],
    ),
    (
        &[FIRST, LONG, BEGUN, "001001011800", "000016", DATA],
        &ALONE,
    ),
    (&[FIRST, LONG, BEGUN, "001001011fff", ENDED], &ALONE),
    // Count 0 is the next one after 255, and 255 isn't.
    (
        &["0010ffff1800", LONG, BEGUN, "001000001807", ENDED],
        &THROUGH,
    ),
    (&["0010ffff1800", LONG, BEGUN, "0010ffff1807", ENDED], &BOTH),
    // A frame that comes twice.
    (
        &[FIRST, LONG, BEGUN, FIRST, LONG, BEGUN],
        &[
            FIRST,
            LONG,
            "0002c0",
            "001001011814",
            "0500101111111111111111111111111111111111",
            "07ffc0000019",
            "001002021fff",
            ZEROS,
        ],
    ),
    // Operational control fields of both types, which are left out.
    (
        &[
            "001100001800",
            TEN,
            "07ffc0000005",
            "000000000000",
            "01002805",
        ],
        &ONE,
    ),
    (
        &[
            "001100001800",
            TEN,
            "07ffc0000005",
            "000000000000",
            "80000000",
        ],
        &ONE,
    ),
    // A remainder.
    (&[FIRST, TEN_FILLED, "0010000018000001"], &ONE),
    (
        &HUNDRED,
        &[
            FIRST,
            TEN,
            TEN,
            "0001c0000003",
            "001001011804",
            "aabbccdd07ffc000000f",
            "00000000000000000000000000000000",
        ],
    ),
    // A packet start of another version.
    (&FOREIGN, &ONE),
    // Virtual channels are written in rising order.
    (
        &["001200001800", TEN_FILLED, "001001001800", TEN_FILLED],
        &[FIRST, TEN_FILLED, "001201001800", TEN_FILLED],
    ),
];

// Recordings with error control and one normal form: a frame with a wrong error control field isn't
// read, and the form's frames have theirs.
const WITH_FECF: [&[&str]; 3] = [
    &ONE_WITH_FECF,
    &[FIRST, TEN_FILLED, "5e0d", FIRST, TEN_FILLED, "5e0c"],
    // Other counts, and an idle packet with other sequence flags and data.
    &[
        "00104dc81800",
        TEN,
        "07ff00070009",
        "55555555555555555555",
        "929c",
    ],
];

// Whether an engine writes this normal form, and whether that of the form is the form.
fn is_form(
    alloc: Global,
    (length, fecf): (u16, bool),
    parts: &[&str],
    wanted: &[&str],
) -> Result<bool, Stop> {
    let link = Link::new(Kind::Tm, length, fecf, 0, 1000)?;
    let recording = octets(alloc, parts)?;
    let form = octets(alloc, wanted)?;
    let is_form = link.writes(alloc, Verb::Normalise, &recording, &form)?;
    Ok(is_form && link.writes(alloc, Verb::Normalise, &form, &form)?)
}

#[test]
fn normal_forms_of_recordings(rt: HostRuntime) {
    for (parts, wanted) in &CASES {
        passes(&rt, parts, is_form(rt.alloc(), (32, false), parts, wanted));
    }
    for parts in &WITH_FECF {
        let outcome = is_form(rt.alloc(), (34, true), parts, &ONE_WITH_FECF);
        passes(&rt, parts, outcome);
    }
}

// All seven totals, where all goes octet by octet.
#[test]
fn packets_are_counted(rt: HostRuntime) -> Result<(), Stop> {
    let recording = octets(rt.alloc(), &COUNTED)?;
    let form = octets(rt.alloc(), &THROUGH)?;
    let link = Link::new(Kind::Tm, 32, false, 0, 100)?;
    let answer = link.answer(rt.alloc(), Verb::Normalise, &recording, 1)?;
    holds(&rt, &COUNTED, answer.is([100, 3, 1, 4, 3, 1, 0], &form));
    Ok(())
}
