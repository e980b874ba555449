//! Recordings in hexadecimal, part by part, and some in octets.
use super::rows::Stop;
use std::alloc::{AllocError, Global};

/// The octets of these parts, end to end.
pub fn octets(alloc: Global, parts: &[&str]) -> Result<Vec<u8>, Stop> {
    let mut octets = Vec::new(alloc);
    for part in parts {
        add_octets(alloc, &mut octets, part)?;
    }
    Ok(octets)
}

fn add_octets(alloc: Global, octets: &mut Vec<u8>, part: &str) -> Result<(), Stop> {
    let part = hex::decode(alloc, part)?;
    Ok(octets.extend_from_slice(part.as_slice())?)
}

/// The header of a first TM frame of virtual channel 0 in which a packet starts at once.
pub const FIRST: &str = "001000001800";

/// A packet of ten octets, and it with an idle packet that fills a data field.
pub const TEN: &str = "0001c0000003aabbccdd";

pub const TEN_FILLED: &str = "0001c0000003aabbccdd07ffc000000900000000000000000000";

/// The same with an octet that is damaged.
pub const DAMAGED: &str = "0001c0000003abbbccdd07ffc000000900000000000000000000";

/// A TM frame whose error control field is wrong, before one whose field is right.
pub const WITH_FECF: [&str; 6] = [FIRST, DAMAGED, "5e0c", FIRST, TEN_FILLED, "5e0c"];

/// A packet of twenty-three octets.
pub const LONG: &str = "0002c00500101111111111111111111111111111111111";

/// A packet that ends with its data field.
pub const FULL: [&str; 3] = [
    FIRST,
    "0002c0060013",
    "2222222222222222222222222222222222222222",
];

/// The packet of ten octets, and a packet start of another version.
pub const FOREIGN: [&str; 3] = [FIRST, TEN, "20202020202020202020202020202020"];

/// The first octets of a packet; a data field of its other octets, a packet and an idle packet.
pub const BEGUN: &str = "0003c0";

pub const ENDED: &str = "000003010203040001c0000003aabbccdd07ffc0000002000000";

/// The packets of twenty-three and of ten octets, and between them one of ten octets in two frames.
pub const THROUGH: [&str; 5] = [FIRST, LONG, BEGUN, "001001011807", ENDED];

/// The same with an idle frame within the packet, and without the frame in which it ends next.
pub const AROUND_IDLE: [&str; 7] = [
    FIRST,
    LONG,
    BEGUN,
    "001001011ffe",
    FIVES,
    "001002021807",
    ENDED,
];

pub const WITH_GAP: [&str; 5] = [FIRST, LONG, BEGUN, "001002021807", ENDED];

/// A recording of three frames with a packet, and a remainder of four octets: a hundred octets.
pub const HUNDRED: [&str; 7] = [
    FIRST, TEN_FILLED, FIRST, TEN_FILLED, FIRST, TEN_FILLED, "00100000",
];

/// A data field of zeros, and one of `55`.
pub const ZEROS: &str = "0000000000000000000000000000000000000000000000000000";

pub const FIVES: &str = "5555555555555555555555555555555555555555555555555555";

/// A packet of ten octets whole in a frame of type AD, and in one of type BD.
pub const WHOLE: &str = "0001000f00c01001c0000003aabbccdd";

pub const WHOLE_BD: &str = "2001000f00c01001c0000003aabbccdd";

/// The same in the next frames of type AD.
pub const SECOND: &str = "0001000f01c01001c0000003aabbccdd";

pub const THIRD: &str = "0001000f02c01001c0000003aabbccdd";

/// A packet of 23 octets in three frames of virtual channel 5, N(S) from 0 on and from 255 on.
pub const DIVIDED: [&str; 3] = [FIRST_OF_3, MIDDLE_OF_3, LAST_OF_3];

pub const FIRST_OF_3: &str = "0001140f00401002c005001011111111";

pub const MIDDLE_OF_3: &str = "0001140f010011111111111111111111";

pub const LAST_OF_3: &str = "000114080280111111";

pub const DIVIDED_FROM_255: [&str; 3] = [BEGUN_FROM_255, CONTINUED_FROM_255, ENDED_FROM_255];

pub const BEGUN_FROM_255: &str = "0001140fff401002c005001011111111";

pub const CONTINUED_FROM_255: &str = "0001140f000011111111111111111111";

pub const ENDED_FROM_255: &str = "000114080180111111";

/// In the positive part of the window, in its negative part, outside it, and in lockout.
pub const IN_WINDOW: [&str; 4] = [
    "0001000604c000",
    "00010006fbc000",
    OUTSIDE,
    "0001000600c000",
];

pub const OUTSIDE: &str = "0001000605c000";

/// Set V(R), type BD and Unlock in lockout.
pub const LOCKED_OUT: [&str; 4] = [
    "00010006fac000",
    "3001000700820005",
    WHOLE_BD,
    "300100050000",
];

/// Frames that are skipped, each for another reason.
pub const SKIPPED: [&str; 6] = [
    "0002000600c000",
    "4001000600c000",
    "0001001000c00000000000000000000000",
    "1001000600c000",
    "0001000400",
    "300100050001",
];

/// On MAP 1 a segment out of sequence, then a packet in two; on MAP 2 a series that a unit drops.
pub const MIXED: [&str; 6] = [
    "000100060001ff",
    "0001000a01411001c00000",
    "0001000902421002c000",
    "0001000a038103aabbccdd",
    "0001000a04421002c00100",
    "00010007058200ee",
];

/// A packet and an idle packet in one unit.
pub const WITH_IDLE: &str = "0001001300c01002c0010000ee07ffc000000000";

/// The control command Unlock with error control, its field right and wrong.
pub const UNLOCK_WITH_FECF: &str = "3001000700000e5d";

pub const UNLOCK_DAMAGED: &str = "3001000700000e5e";

/// Octets that state the length of a frame as 3, and two more.
pub const BAD_LENGTH: &str = "00010002000000";

/// A TM frame of a packet of ten octets and an idle one, and a TC frame of a packet of ten octets.
pub const TM_FRAME: [u8; 32] = [
    0x00, 0x10, 0x00, 0x00, 0x18, 0x00, 0x00, 0x01, 0xC0, 0x00, 0x00, 0x03, 0xAA, 0xBB, 0xCC, 0xDD,
    0x07, 0xFF, 0xC0, 0x00, 0x00, 0x09, 0x00, 0x00, 0x00, 0x00, 0x00, 0x00, 0x00, 0x00, 0x00, 0x00,
];

pub const TC_FRAME: [u8; 16] = [
    0x00, 0x01, 0x00, 0x0F, 0x00, 0xC0, 0x10, 0x01, 0xC0, 0x00, 0x00, 0x03, 0xAA, 0xBB, 0xCC, 0xDD,
];

/// A frame of type BD with the same unit.
pub const TC_BYPASSING: [u8; 16] = [
    0x20, 0x01, 0x00, 0x0F, 0x00, 0xC0, 0x10, 0x01, 0xC0, 0x00, 0x00, 0x03, 0xAA, 0xBB, 0xCC, 0xDD,
];

/// What `packets` lists of the first two.
pub const TM_TEN_LISTED: &str =
    "vc 0 apid 1 type 0 secondary 0 flags 3 count 0 octets 10 0001c0000003aabbccdd\n";

pub const TC_TEN_LISTED: &str =
    "vc 0 map 0 apid 1 type 1 secondary 0 flags 3 count 0 octets 10 1001c0000003aabbccdd\n";

/// What `show tm` lists of the first one.
pub const TM_TEN_SHOWN: &str = "0 frame vc 0 mc 0 vcc 0 first 0\n";

/// A header of six octets, and this number of octets after it, all the same.
pub fn filled(
    frames: &mut Vec<u8>,
    header: &[u8; 6],
    octet: u8,
    count: usize,
) -> Result<(), AllocError> {
    frames.extend_from_slice(header)?;
    let len = frames.len().saturating_add(count);
    frames.resize(len, octet)
}

/// The frames of a packet of 65,542 octets up to the one in which it ends: first the one in which
/// it begins, then 2,519 in which no packet starts.
pub fn front_of_longest(alloc: Global) -> Result<Vec<u8>, AllocError> {
    let mut frames = Vec::from_slice(alloc, &[0x00, 0x10, 0x00, 0x00, 0x18, 0x00])?;
    filled(&mut frames, &[0x00, 0x03, 0xC0, 0x00, 0xFF, 0xFF], 0x33, 20)?;
    for number in 1..2520u16 {
        let [_, count] = number.to_be_bytes();
        filled(
            &mut frames,
            &[0x00, 0x10, count, count, 0x1F, 0xFF],
            0x33,
            26,
        )?;
    }
    Ok(frames)
}

// The last two of its frames, with an idle packet of thirty octets after the packet.
const END_OF_LONGEST: [u8; 64] = [
    0x00, 0x10, 0xD8, 0xD8, 0x18, 0x16, //
    0x33, 0x33, 0x33, 0x33, 0x33, 0x33, 0x33, 0x33, 0x33, 0x33, 0x33, 0x33, 0x33, 0x33, 0x33, 0x33,
    0x33, 0x33, 0x33, 0x33, 0x33, 0x33, //
    0x07, 0xFF, 0xC0, 0x00, //
    0x00, 0x10, 0xD9, 0xD9, 0x1F, 0xFF, //
    0x00, 0x17, 0, 0, 0, 0, 0, 0, 0, 0, 0, 0, 0, 0, 0, 0, 0, 0, 0, 0, 0, 0, 0, 0, 0, 0,
];

/// All its frames.
pub fn longest(alloc: Global) -> Result<Vec<u8>, AllocError> {
    let mut frames = front_of_longest(alloc)?;
    frames.extend_from_slice(&END_OF_LONGEST)?;
    Ok(frames)
}

/// A series of 65,560 octets. The segment that passes 65,542 octets gives it up, so the last one is
/// out of sequence.
pub fn too_long(alloc: Global) -> Result<Vec<u8>, AllocError> {
    let mut recording = Vec::new(alloc);
    for number in 0..6556u16 {
        let [_, ns] = number.to_be_bytes();
        let flags = match number {
            0 => 0x40,
            6555 => 0x80,
            _ => 0x00,
        };
        filled(&mut recording, &[0x00, 0x01, 0x00, 0x0F, ns, flags], 0, 10)?;
    }
    Ok(recording)
}
