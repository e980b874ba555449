//! Packet headers.
use crate::support::rows::holds;
use sl_fields::PacketHeader;

// Version, type, secondary header flag and APID; sequence flags and count; and data length.
type Fields = ((u8, u8, bool, u16), (u8, u16), u16);

const KNOWN: [([u8; 6], Fields); 5] = [
    (
        [0x00, 0x01, 0xC0, 0x00, 0x00, 0x03],
        ((0, 0, false, 1), (3, 0), 3),
    ),
    (
        [0x17, 0xFF, 0xC0, 0x00, 0x00, 0x09],
        ((0, 1, false, 2047), (3, 0), 9),
    ),
    (
        [0x2B, 0x05, 0x4D, 0x2A, 0x12, 0x34],
        ((1, 0, true, 773), (1, 3370), 4660),
    ),
    (
        [0xD4, 0xFA, 0xB2, 0xD5, 0xED, 0xCB],
        ((6, 1, false, 1274), (2, 13013), 60875),
    ),
    (
        [0xFF, 0xFF, 0xFF, 0xFF, 0xFF, 0xFF],
        ((7, 1, true, 2047), (3, 16383), 65535),
    ),
];

// A field beyond its bits.
const BEYOND: [(&str, Fields); 5] = [
    ("version", ((8, 0, false, 0), (0, 0), 0)),
    ("type", ((0, 2, false, 0), (0, 0), 0)),
    ("apid", ((0, 0, false, 2048), (0, 0), 0)),
    ("flags", ((0, 0, false, 0), (4, 0), 0)),
    ("count", ((0, 0, false, 0), (0, 16384), 0)),
];

fn new(fields: &Fields) -> Option<PacketHeader> {
    let ((version, kind, secondary, apid), (flags, count), length) = *fields;
    PacketHeader::new(version, kind, secondary, apid, flags, count, length)
}

// The header of known octets has its fields, is made of them, and is written as read. A field
// beyond its bits has none. A header of telemetry has the least and the greatest of its fields.
#[test]
fn packet_headers(rt: HostRuntime) {
    for (octets, wanted) in &KNOWN {
        let header = PacketHeader::read(octets);
        let kind = (
            header.version(),
            header.kind(),
            header.secondary(),
            header.apid(),
        );
        let fields = (kind, (header.flags(), header.count()), header.length());
        let is_made = header.write() == *octets && new(wanted) == Some(header);
        holds(&rt, octets, fields == *wanted && is_made);
    }
    for (field, fields) in &BEYOND {
        holds(&rt, field, new(fields).is_none());
    }
    let least = PacketHeader::of_telemetry(1, 0, 3).write();
    holds(&rt, &least, least == [0x00, 0x01, 0xC0, 0x00, 0x00, 0x03]);
    let most = PacketHeader::of_telemetry(2047, 16383, 65535).write();
    holds(&rt, &most, most == [0x07, 0xFF, 0xFF, 0xFF, 0xFF, 0xFF]);
}
