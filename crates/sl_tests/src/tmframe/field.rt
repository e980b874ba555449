//! Contents of frames that are compared.
use crate::support::rows::holds;
use sl_tmframe::TmField;

// Octets of a data field.
const OCTETS: &[u8] = &[0x00, 0x01, 0xC0, 0x00];

// Two contents, and whether they are equal.
static COMPARED: [(TmField, TmField, bool); 13] = [
    // The same, with the octets of the data field at another place.
    (
        TmField::Packets {
            first: Some(2),
            octets: OCTETS,
        },
        TmField::Packets {
            first: Some(2),
            octets: &[0x00, 0x01, 0xC0, 0x00],
        },
        true,
    ),
    (
        TmField::Packets {
            first: None,
            octets: OCTETS,
        },
        TmField::Packets {
            first: None,
            octets: OCTETS,
        },
        true,
    ),
    (TmField::Idle, TmField::Idle, true),
    (TmField::Opaque, TmField::Opaque, true),
    // Another place of the first packet start, and none.
    (
        TmField::Packets {
            first: Some(2),
            octets: OCTETS,
        },
        TmField::Packets {
            first: Some(3),
            octets: OCTETS,
        },
        false,
    ),
    (
        TmField::Packets {
            first: Some(0),
            octets: OCTETS,
        },
        TmField::Packets {
            first: None,
            octets: OCTETS,
        },
        false,
    ),
    // Another octet at the front, another one at the end, and one octet less.
    (
        TmField::Packets {
            first: Some(2),
            octets: OCTETS,
        },
        TmField::Packets {
            first: Some(2),
            octets: &[0x01, 0x01, 0xC0, 0x00],
        },
        false,
    ),
    (
        TmField::Packets {
            first: None,
            octets: OCTETS,
        },
        TmField::Packets {
            first: None,
            octets: &[0x00, 0x01, 0xC0, 0x01],
        },
        false,
    ),
    (
        TmField::Packets {
            first: Some(2),
            octets: OCTETS,
        },
        TmField::Packets {
            first: Some(2),
            octets: &[0x00, 0x01, 0xC0],
        },
        false,
    ),
    // Another class of frame.
    (TmField::Idle, TmField::Opaque, false),
    (
        TmField::Packets {
            first: None,
            octets: &[],
        },
        TmField::Idle,
        false,
    ),
    (
        TmField::Packets {
            first: None,
            octets: &[],
        },
        TmField::Opaque,
        false,
    ),
    (
        TmField::Opaque,
        TmField::Packets {
            first: Some(0),
            octets: OCTETS,
        },
        false,
    ),
];

// Whether two contents are equal, or are not, whichever stands first.
fn compare(left: &TmField, right: &TmField, equal: bool) -> bool {
    let are_equal = (*left == *right, *right == *left);
    let differ = (*left != *right, *right != *left);
    are_equal == (equal, equal) && differ == (!equal, !equal)
}

#[test]
fn contents_are_equal_in_each_field_or_not(rt: HostRuntime) {
    for (left, right, equal) in &COMPARED {
        holds(&rt, &(left, right), compare(left, right, *equal));
    }
}
