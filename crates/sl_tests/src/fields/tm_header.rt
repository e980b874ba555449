//! TM headers.
use crate::support::rows::holds;
use sl_fields::TmHeader;

// Version, spacecraft, virtual channel and operational control field flag; the two counts; and the
// status of the data field.
type Fields = ((u8, u16, u8, bool), (u8, u8), (bool, bool, bool, u8, u16));

const KNOWN: [([u8; 6], Fields); 5] = [
    (
        [0x00, 0x10, 0x4D, 0xC8, 0x18, 0x00],
        ((0, 1, 0, false), (77, 200), (false, false, false, 3, 0)),
    ),
    (
        [0x00, 0x16, 0x05, 0x06, 0xFF, 0xFE],
        ((0, 1, 3, false), (5, 6), (true, true, true, 3, 2046)),
    ),
    (
        [0x6A, 0x9B, 0x01, 0xFE, 0x5D, 0x34],
        ((1, 681, 5, true), (1, 254), (false, true, false, 3, 1332)),
    ),
    (
        [0x95, 0x64, 0xFE, 0x01, 0x8A, 0xCB],
        ((2, 342, 2, false), (254, 1), (true, false, false, 1, 715)),
    ),
    (
        [0xFF, 0xFF, 0xFF, 0xFF, 0xFF, 0xFF],
        ((3, 1023, 7, true), (255, 255), (true, true, true, 3, 2047)),
    ),
];

// A field beyond its bits.
const BEYOND: [(&str, Fields); 5] = [
    (
        "version",
        ((4, 0, 0, false), (0, 0), (false, false, false, 0, 0)),
    ),
    (
        "spacecraft",
        ((0, 1024, 0, false), (0, 0), (false, false, false, 0, 0)),
    ),
    (
        "virtual channel",
        ((0, 0, 8, false), (0, 0), (false, false, false, 0, 0)),
    ),
    (
        "segment length",
        ((0, 0, 0, false), (0, 0), (false, false, false, 4, 0)),
    ),
    (
        "first header pointer",
        ((0, 0, 0, false), (0, 0), (false, false, false, 0, 2048)),
    ),
];

fn new(fields: &Fields) -> Option<TmHeader> {
    let ((version, spacecraft, vc, control), (mc, vcc), (secondary, sync, order, segment, first)) =
        *fields;
    TmHeader::new(
        version, spacecraft, vc, control, mc, vcc, secondary, sync, order, segment, first,
    )
}

// The header of known octets has its fields, is made of them, and is written as read. A field
// beyond its bits has none. A header of a frame of packets has the fields given, and the greatest
// ones.
#[test]
fn tm_headers(rt: HostRuntime) {
    for (octets, wanted) in &KNOWN {
        let header = TmHeader::read(octets);
        let place = (
            header.version(),
            header.spacecraft(),
            header.vc(),
            header.control(),
        );
        let flags = (header.secondary(), header.sync(), header.order());
        let status = (flags.0, flags.1, flags.2, header.segment(), header.first());
        let fields = (place, (header.mc(), header.vcc()), status);
        let is_made = header.write() == *octets && new(wanted) == Some(header);
        holds(&rt, octets, fields == *wanted && is_made);
    }
    for (field, fields) in &BEYOND {
        holds(&rt, field, new(fields).is_none());
    }
    let octets = TmHeader::of_packets(1, 3, 5, 6, 7).write();
    holds(&rt, &octets, octets == [0x00, 0x16, 0x05, 0x06, 0x18, 0x07]);
    let most = TmHeader::of_packets(1023, 7, 255, 254, 2047).write();
    holds(&rt, &most, most == [0x3F, 0xFE, 0xFF, 0xFE, 0x1F, 0xFF]);
}
