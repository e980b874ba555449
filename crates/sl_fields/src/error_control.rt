//! The frame error control field: computed, checked, and cut off the end of a frame.
//!
//! The field is the remainder of a division, whose register holds sixteen bits, here as two octets.
//! The upper octet plus an octet of the message selects one of 256 words in a table: the remainder
//! of the sum's eight bits and sixteen zeros. This word, plus the lower octet moved up by an octet,
//! is the new register. All sums are without carries.
//!
//! The octets of a short message are taken so, one by one. A longer one is first made short, with
//! the same remainder. The module `folds` adds slices of sixteen octets to later ones, the farthest
//! first, until one is left. The module `halves` halves it three times, which leaves two octets for
//! the table.
//!
//! A frame that ends with its field leaves the remainder 0, and no other frame does. So a frame is
//! checked as a whole. Two octets leave 0 only if they are zeros, which needs no table.
ghost use Rattle.std.specs.Prelude.{◌≡◌, ◌-◌, ◌<◌, ◌≤◌, [], ◌∷◌, length, take};
ghost use Rattle.sl_fields.specs.Fecf.{fecf_of, fecf_is_good};
ghost use Rattle.sl_fields.specs.FecfField.{fecf_octets, fecf_len};
ghost use Rattle.sl_fields.specs.FecfRegister.{register_number, TakesIn};
ghost use Rattle.sl_fields.specs.FecfWords.{word_of};
ghost use Rattle.sl_fields.specs.Field.{number_of};

use crate::ends::back;
use crate::folds::folded;
use crate::halves::last_two;
use crate::words::WORDS;
use byteorder::{BigEndian, ByteOrder};

// Shorter messages go through the table octet by octet. `folded` needs 16 octets or more.
const LEAST_FOLDED: usize = 22;

/// The frame error control field (CCSDS 132.0-B and 232.0-B) that follows these octets in a frame.
///
/// The field is the remainder by the generator x^16 + x^12 + x^5 + 1, with the register preset to
/// all ones. Each octet is taken from its most significant bit on, and the remainder isn't
/// inverted. For no octets the field is 0xFFFF.
pub fn fecf(octets: &[u8]) -> u16
    ensures { result ≡ fecf_of octets.now }
{
    if octets.len() < LEAST_FOLDED {
        let preset = Register {
            high: 0xFF,
            low: 0xFF,
        };
        return number(after_octets(preset, octets));
    }
    // `folded` puts 84 CF before the message, or inverts the first two octets, and folds then. So
    // its slice is divided from zeros.
    // (Only for the proof: `TakesIn` asks for a message that leaves zeros, which is FF FF.)
    let zeros = Register { high: 0, low: 0 };
    number(after_octets(zeros, &last_two(folded(octets))))
}

/// Whether the octets end with their frame error control field (CCSDS 132.0-B and 232.0-B): the
/// last two octets, the most significant first, are the field of the octets before them. False for
/// fewer than three octets, where there is nothing that a field covers.
pub fn fecf_good(octets: &[u8]) -> bool
    ensures { result ≡ fecf_is_good octets.now }
{
    if octets.len() < LEAST_FOLDED {
        return octets.len() >= 3 && fecf(octets) == 0;
    }
    u16::from_be_bytes(last_two(folded(octets))) == 0
}

/// The frame error control field that follows these octets in a frame, as two octets, the most
/// significant first.
pub fn fecf_field(octets: &[u8]) -> [u8; 2]
    ensures { result ≡ fecf_octets octets.now }
{
    let mut field = [0; 2];
    BigEndian::write_u16(&mut field, fecf(octets));
    field
}

/// The octets before the frame error control field; all octets where frames have none. `has_fecf`
/// says whether frames have one.
///
/// `octets` is a frame, or a frame from some offset on. Where `has_fecf` is set, `octets` has two
/// octets or more.
#[inline(always)]
pub fn without_fecf(has_fecf: bool, octets: &[u8]) -> &[u8]
    requires { fecf_len has_fecf ≤ length octets.now }
    ensures { result.now ≡ take (length octets.now - fecf_len has_fecf) octets.now }
{
    if !has_fecf {
        return octets;
    }
    back::<2>(octets).0
}

// The sixteen bits of the division's register, as two octets.
#[derive(Clone, Copy)]
struct Register {
    high: u8,
    low: u8,
}

// The register as one number.
#[inline(always)]
fn number(register: Register) -> u16
    ensures { result ≡ register_number register }
{
    u16::from_be_bytes([register.high, register.low])
}

// The register after these octets of the message, taken one by one.
#[inline(always)]
fn after_octets(register: Register, octets: &[u8]) -> Register
    ensures { TakesIn register octets.now result }
{
    let mut after = register;
    for &octet in octets {
        after = after_octet(after, octet);
    }
    after
}

// The register after one more octet of the message. The upper octet plus the message's octet
// selects a word. The lower octet moves up, and the word is added.
#[inline(always)]
fn after_octet(register: Register, octet: u8) -> Register
    ensures { TakesIn register (octet ∷ []) result }
{
    let word = table_word(register.high ^ octet);
    Register {
        high: register.low ^ word[0],
        low: word[1],
    }
}

// The table's word for these eight bits: their remainder with sixteen zeros after them.
#[inline(always)]
fn table_word(octet: u8) -> [u8; 2]
    ensures { number_of result ≡ word_of 0 octet }
{
    WORDS[usize::from(octet)]
}
