//! Segment headers.
use crate::support::rows::holds;
use sl_fields::SegmentHeader;

const KNOWN: [(u8, (u8, u8)); 5] = [
    (0xC0, (3, 0)),
    (0x45, (1, 5)),
    (0x2A, (0, 42)),
    (0x95, (2, 21)),
    (0xFF, (3, 63)),
];

// A field beyond its bits, or both.
const BEYOND: [(u8, u8); 3] = [(4, 0), (0, 64), (255, 255)];

// Whether a segment of MAP 2 is the first one, whether it is the last one, and its header.
const PLACES: [(bool, bool, u8); 4] = [
    (true, true, 0xC2),
    (true, false, 0x42),
    (false, false, 0x02),
    (false, true, 0x82),
];

// Whether a header has these sequence flags and this MAP, is made of them, and is written as read.
fn has(octet: u8, (flags, map): (u8, u8)) -> bool {
    let header = SegmentHeader::read(&[octet]);
    let is_made = SegmentHeader::new(flags, map) == Some(header) && header.write() == [octet];
    is_made && (header.flags(), header.map()) == (flags, map)
}

// Each octet is a header: that of its two highest bits and its six others.
#[test]
fn segment_headers(rt: HostRuntime) {
    for (octet, fields) in &KNOWN {
        holds(&rt, octet, has(*octet, *fields));
    }
    for octet in 0..=255u8 {
        holds(&rt, &octet, has(octet, (octet >> 6, octet & 63)));
    }
    for (flags, map) in &BEYOND {
        holds(
            &rt,
            &(flags, map),
            SegmentHeader::new(*flags, *map).is_none(),
        );
    }
    for (first, last, octet) in &PLACES {
        let header = SegmentHeader::of_segment(*first, *last, 2);
        holds(&rt, octet, header.write() == [*octet]);
    }
}
