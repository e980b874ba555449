//! What frames carry.
use super::carries;
use crate::support::recordings::TC_FRAME;
use crate::support::rows::{Stop, holds, passes};
use crate::support::tc::{frame, shape};
use sl_tcframe::TcContent;

// A segment header, and one octet.
const UNIT: &[u8] = &[0xC0, 0x00];

// The unit of `TC_FRAME`.
const WHOLE: &[u8] = &[
    0xC0, 0x10, 0x01, 0xC0, 0x00, 0x00, 0x03, 0xAA, 0xBB, 0xCC, 0xDD,
];

// Frames without error control, their virtual channels, and what they carry.
static CARRIED: [(&[u8], u8, TcContent); 11] = [
    (&TC_FRAME, 0, TcContent::Ad { ns: 0, unit: WHOLE }),
    (
        &[0x00, 0x01, 0x00, 0x06, 0x04, 0xC0, 0x00],
        0,
        TcContent::Ad { ns: 4, unit: UNIT },
    ),
    (
        &[0x00, 0x01, 0x00, 0x06, 0xFB, 0xC0, 0x00],
        0,
        TcContent::Ad {
            ns: 251,
            unit: UNIT,
        },
    ),
    // The last virtual channel, and a segment header alone.
    (
        &[0x00, 0x01, 0xFC, 0x05, 0xFE, 0x45],
        63,
        TcContent::Ad {
            ns: 254,
            unit: &[0x45],
        },
    ),
    // Spare bits.
    (
        &[0x0C, 0x01, 0x14, 0x06, 0x05, 0xC0, 0x00],
        5,
        TcContent::Ad { ns: 5, unit: UNIT },
    ),
    // Type BD, with N(S) 0, and with another N(S) and spare bits.
    (
        &[0x20, 0x01, 0x00, 0x06, 0x00, 0xC0, 0x00],
        0,
        TcContent::Bd { unit: UNIT },
    ),
    (
        &[0x2C, 0x01, 0x04, 0x06, 0xFB, 0xC0, 0x00],
        1,
        TcContent::Bd { unit: UNIT },
    ),
    // Type BC, likewise.
    (&[0x30, 0x01, 0x00, 0x05, 0x00, 0x00], 0, TcContent::Unlock),
    (&[0x3C, 0x01, 0x08, 0x05, 0x07, 0x00], 2, TcContent::Unlock),
    (
        &[0x30, 0x01, 0x00, 0x07, 0x00, 0x82, 0x00, 0x05],
        0,
        TcContent::SetVr(5),
    ),
    (
        &[0x34, 0x01, 0x0C, 0x07, 0xFF, 0x82, 0x00, 0xFF],
        3,
        TcContent::SetVr(255),
    ),
];

// The same with error control. The error control field is no part of the data field.
static WITH_FECF: [(&[u8], u8, TcContent); 4] = [
    (
        &[0x30, 0x01, 0x00, 0x07, 0x00, 0x00, 0x0E, 0x5D],
        0,
        TcContent::Unlock,
    ),
    (
        &[0x30, 0x01, 0x00, 0x09, 0x00, 0x82, 0x00, 0x05, 0x62, 0x60],
        0,
        TcContent::SetVr(5),
    ),
    (
        &[0x00, 0x01, 0x00, 0x08, 0x00, 0xC0, 0xAA, 0x33, 0x59],
        0,
        TcContent::Ad {
            ns: 0,
            unit: &[0xC0, 0xAA],
        },
    ),
    (
        &[0x20, 0x01, 0x00, 0x08, 0xFB, 0xC0, 0xAA, 0x4E, 0x0C],
        0,
        TcContent::Bd {
            unit: &[0xC0, 0xAA],
        },
    ),
];

// Two contents, and whether they are equal.
static COMPARED: [(TcContent, TcContent, bool); 14] = [
    // The same, with the octets of the unit at another place.
    (
        TcContent::Ad { ns: 4, unit: UNIT },
        TcContent::Ad {
            ns: 4,
            unit: &[0xC0, 0x00],
        },
        true,
    ),
    (
        TcContent::Bd { unit: UNIT },
        TcContent::Bd {
            unit: &[0xC0, 0x00],
        },
        true,
    ),
    (TcContent::Unlock, TcContent::Unlock, true),
    (TcContent::SetVr(5), TcContent::SetVr(5), true),
    // Another N(S), another octet of the unit, and one octet less.
    (
        TcContent::Ad { ns: 4, unit: UNIT },
        TcContent::Ad { ns: 5, unit: UNIT },
        false,
    ),
    (
        TcContent::Ad { ns: 4, unit: UNIT },
        TcContent::Ad {
            ns: 4,
            unit: &[0xC0, 0x01],
        },
        false,
    ),
    (
        TcContent::Ad { ns: 4, unit: UNIT },
        TcContent::Ad {
            ns: 4,
            unit: &[0xC0],
        },
        false,
    ),
    (
        TcContent::Bd { unit: UNIT },
        TcContent::Bd {
            unit: &[0xC1, 0x00],
        },
        false,
    ),
    (
        TcContent::Bd { unit: UNIT },
        TcContent::Bd { unit: WHOLE },
        false,
    ),
    // Another value to set.
    (TcContent::SetVr(5), TcContent::SetVr(6), false),
    // Another type, and another control command.
    (
        TcContent::Ad { ns: 0, unit: UNIT },
        TcContent::Bd { unit: UNIT },
        false,
    ),
    (TcContent::Bd { unit: &[0x00] }, TcContent::Unlock, false),
    (TcContent::Unlock, TcContent::SetVr(0), false),
    (
        TcContent::SetVr(0),
        TcContent::Ad {
            ns: 0,
            unit: &[0x82, 0x00, 0x00],
        },
        false,
    ),
];

// Whether two contents are equal, or are not, whichever stands first.
fn compare(left: &TcContent, right: &TcContent, equal: bool) -> bool {
    let are_equal = (*left == *right, *right == *left);
    let differ = (*left != *right, *right != *left);
    are_equal == (equal, equal) && differ == (!equal, !equal)
}

// Whether a frame of at most 16 octets is on this virtual channel and carries this.
fn is_read(fecf: bool, octets: &[u8], vc: u8, content: &TcContent) -> Result<bool, Stop> {
    let shape = shape(16, fecf)?;
    let frame = frame(&shape, octets)?;
    Ok(frame.vc() == vc && carries(&frame, content))
}

#[test]
fn frames_and_what_they_carry(rt: HostRuntime) {
    for (octets, vc, content) in &CARRIED {
        passes(&rt, octets, is_read(false, octets, *vc, content));
    }
    for (octets, vc, content) in &WITH_FECF {
        passes(&rt, octets, is_read(true, octets, *vc, content));
    }
}

#[test]
fn contents_are_equal_in_each_field_or_not(rt: HostRuntime) {
    for (left, right, equal) in &COMPARED {
        holds(&rt, &(left, right), compare(left, right, *equal));
    }
}
