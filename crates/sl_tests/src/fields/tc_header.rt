//! TC headers.
use crate::support::rows::holds;
use sl_fields::TcHeader;

// Version, bypass and control command flags, spare bits; spacecraft, virtual channel; length, N(S).
type Fields = ((u8, bool, bool, u8), (u16, u8), (u16, u8));

const KNOWN: [([u8; 5], Fields); 6] = [
    (
        [0x00, 0x01, 0x00, 0x0C, 0x07],
        ((0, false, false, 0), (1, 0), (12, 7)),
    ),
    (
        [0x30, 0x01, 0x00, 0x07, 0x00],
        ((0, true, true, 0), (1, 0), (7, 0)),
    ),
    (
        [0x20, 0x01, 0x04, 0x0C, 0x00],
        ((0, true, false, 0), (1, 1), (12, 0)),
    ),
    (
        [0x55, 0x56, 0x59, 0x34, 0x3C],
        ((1, false, true, 1), (342, 22), (308, 60)),
    ),
    (
        [0xBE, 0xA9, 0xA6, 0xCB, 0xC3],
        ((2, true, true, 3), (681, 41), (715, 195)),
    ),
    (
        [0xFF, 0xFF, 0xFF, 0xFF, 0xFF],
        ((3, true, true, 3), (1023, 63), (1023, 255)),
    ),
];

// A field beyond its bits.
const BEYOND: [(&str, Fields); 5] = [
    ("version", ((4, false, false, 0), (0, 0), (0, 0))),
    ("spare", ((0, false, false, 4), (0, 0), (0, 0))),
    ("spacecraft", ((0, false, false, 0), (1024, 0), (0, 0))),
    ("virtual channel", ((0, false, false, 0), (0, 64), (0, 0))),
    ("length", ((0, false, false, 0), (0, 0), (1024, 0))),
];

fn new(fields: &Fields) -> Option<TcHeader> {
    let ((version, bypass, command, spare), (spacecraft, vc), (length, ns)) = *fields;
    TcHeader::new(version, bypass, command, spare, spacecraft, vc, length, ns)
}

// The header of known octets has its fields, is made of them, and is written as read. A field
// beyond its bits has none. A header of type AD has the fields given, and the greatest ones.
#[test]
fn tc_headers(rt: HostRuntime) {
    for (octets, wanted) in &KNOWN {
        let header = TcHeader::read(octets);
        let kind = (
            header.version(),
            header.bypass(),
            header.command(),
            header.spare(),
        );
        let place = (header.spacecraft(), header.vc());
        let fields = (kind, place, (header.length(), header.ns()));
        let is_made = header.write() == *octets && new(wanted) == Some(header);
        holds(&rt, octets, fields == *wanted && is_made);
    }
    for (field, fields) in &BEYOND {
        holds(&rt, field, new(fields).is_none());
    }
    let octets = TcHeader::of_ad(1, 5, 15, 57).write();
    holds(&rt, &octets, octets == [0x00, 0x01, 0x14, 0x0F, 0x39]);
    let most = TcHeader::of_ad(1023, 63, 1023, 255).write();
    holds(&rt, &most, most == [0x03, 0xFF, 0xFF, 0xFF, 0xFF]);
}
