//! Frame error control fields, and why a frame format is refused.
use crate::support::recordings::{TM_FRAME, protected};
use crate::support::rows::{holds, is_text, passes};
use sl_fields::{ShapeFault, fecf, fecf_field, fecf_good, without_fecf};

// The error control fields of octets.
static KNOWN: [(&[u8], u16); 6] = [
    (&[], 0xFFFF),
    (&[0x00, 0x00], 0x1D0F),
    (&[0x00, 0x00, 0x00], 0xCC9C),
    (&[0xAB, 0xCD, 0xEF, 0x01], 0x04A2),
    (b"123456789", 0x29B1),
    (&BEFORE, 0x0E5D),
];

// A frame before its error control field, and with it.
const BEFORE: [u8; 6] = [0x30, 0x01, 0x00, 0x07, 0x00, 0x00];

const FRAME: [u8; 8] = [0x30, 0x01, 0x00, 0x07, 0x00, 0x00, 0x0E, 0x5D];

// Whether a frame has an error control field, the frame, and what the field covers.
static COVERED: [(bool, &[u8], &[u8]); 3] = [
    (true, &FRAME, &BEFORE),
    (false, &FRAME, &FRAME),
    (true, &[0x0E, 0x5D], &[]),
];

// Words of single octets.
const WORDS: [(u8, u16); 4] = [(0, 0x0000), (1, 0x1021), (225, 0xED0F), (255, 0x1EF0)];

// The packet of `TM_FRAME` damaged.
const DAMAGED: [u8; 32] = [
    0x00, 0x10, 0x00, 0x00, 0x18, 0x00, //
    0x00, 0x01, 0xC0, 0x00, 0x00, 0x03, 0xBA, 0xBB, 0xCC, 0xDD, //
    0x07, 0xFF, 0xC0, 0x00, 0x00, 0x09, 0, 0, 0, 0, 0, 0, 0, 0, 0, 0,
];

// A frame, its error control field, and whether this is right.
static FIELDS: [(&str, &[u8; 32], [u8; 2], bool); 4] = [
    ("right", &TM_FRAME, [0x5E, 0x0C], true),
    ("damaged packet", &DAMAGED, [0x5E, 0x0C], false),
    ("damaged field", &TM_FRAME, [0x5E, 0x0D], false),
    ("turned round", &TM_FRAME, [0x0C, 0x5E], false),
];

// Too few octets: the field of no octets stands in the first, and there is nothing that it covers.
static TOO_FEW: [&[u8]; 3] = [&[0xFF, 0xFF], &[0x1D], &[]];

// Why a format is refused, as a text.
static FAULTS: [(ShapeFault, &str); 2] = [
    (ShapeFault::TmLength, "tm length"),
    (ShapeFault::TcLength, "tc length"),
];

// The error control field of known octets, as a number and as octets; whether frames have theirs,
// and what it covers; and why a format is refused.
#[test]
fn error_control_fields_of_known_octets(rt: HostRuntime) {
    for (octets, wanted) in &KNOWN {
        holds(&rt, octets, fecf(octets) == *wanted);
    }
    holds(&rt, &BEFORE, fecf_field(&BEFORE) == [0x0E, 0x5D]);
    holds(&rt, &"no octets", fecf_field(&[]) == [0xFF, 0xFF]);
    for (name, frame, field, wanted) in &FIELDS {
        holds(&rt, name, fecf_good(&protected(frame, field)) == *wanted);
    }
    for octets in &TOO_FEW {
        holds(&rt, octets, !fecf_good(octets));
    }
    for (has_fecf, octets, wanted) in &COVERED {
        let covered = octets.len() >= 2 && without_fecf(*has_fecf, octets) == *wanted;
        holds(&rt, octets, covered);
    }
    for (fault, text) in &FAULTS {
        passes(&rt, text, is_text(rt.alloc(), fault, text));
    }
}

// The division goes on by eight bits.
fn after_eight_bits(mut register: u16) -> u16 {
    for _ in 0..8 {
        let moved = register << 1;
        register = if register < 0x8000 {
            moved
        } else {
            moved ^ 0x1021
        };
    }
    register
}

// The preset is added to the first two octets of a message. So the complement of an octet, alone in
// a message, gives the octet's word, but for the `FF` that is left of the preset; and so does an
// octet at a place of one slice of sixteen octets, or of three, with `FFFF` against the preset,
// moved on by the octets that come after it.
#[test]
fn one_octet_gives_its_word(rt: HostRuntime) {
    for (octet, word) in &WORDS {
        holds(&rt, octet, fecf(&[*octet ^ 0xFF]) ^ 0xFF00 == *word);
    }
    for octet in 0..=255u8 {
        let mut word = after_eight_bits(u16::from(octet) << 8);
        holds(&rt, &octet, fecf(&[octet ^ 0xFF]) ^ 0xFF00 == word);
        for place in (0..48usize).rev() {
            let mut slices = [0; 48];
            slices[0] = 0xFF;
            slices[1] = 0xFF;
            slices[place] ^= octet;
            holds(&rt, &(octet, place), fecf(&slices) == word);
            // A slice alone goes octet by octet.
            if place >= 32 {
                let mut slice = [0; 16];
                slice[0] = 0xFF;
                slice[1] = 0xFF;
                slice[place - 32] ^= octet;
                holds(&rt, &(octet, place), fecf(&slice) == word);
            }
            word = after_eight_bits(word);
        }
    }
}

#[test]
fn error_control_fields_bit_by_bit_of_messages_of_up_to_nine_slices(rt: HostRuntime) {
    let mut message = [0; 150];
    let mut register = 0xFFFF;
    for place in 0..150usize {
        holds(&rt, &place, fecf(&message[..place]) == register);
        let octet = (place * 83 % 251) as u8;
        message[place] = octet;
        register = after_eight_bits(register ^ (u16::from(octet) << 8));
    }
}
