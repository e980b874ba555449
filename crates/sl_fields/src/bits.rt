//! The fields of a header, read from one number and packed into one. The number is the header's
//! octets, the first octet the most significant.
//!
//! Here `below` counts the bits after a field, towards the least significant bit. The definition
//! `field` of specs/Field.antt counts the bits before a field, as the CCSDS books do.
ghost use Rattle.std.specs.Prelude.{◌≡◌, ◌/◌, ◌%◌, ◌^◌, ◌<◌, ◌==◌};
ghost use Rattle.sl_fields.specs.Field.{width_of, packed, FitWidths};

/// The value of a field of the number. The field has `width` bits, and `below` bits follow the
/// field. Both are 0 to 63.
#[inline(always)]
pub fn field(number: u64, below: u32, width: u32) -> u64
    requires inside { below < 64 }
    requires narrow { width < 64 }
    ensures value { result ≡ number / 2 ^ below % 2 ^ width }
    ensures fits { result < 2 ^ width }
{
    (number >> below) & ((1 << width) - 1)
}

/// The value of a flag of the number: a field of one bit, true where the bit is 1. `below` bits
/// follow the flag, 0 to 63. In the clause `2 ^ 1` is `2 ^ width` of [`field`] with the width 1.
#[inline(always)]
pub fn flag(number: u64, below: u32) -> bool
    requires { below < 64 }
    ensures { result ≡ (number / 2 ^ below % 2 ^ 1 == 1) }
{
    field(number, below, 1) == 1
}

/// Packs the fields into one number, one after another, the first field the most significant. Each
/// field is given as its width and its value. The value fits in the width, and the widths add up to
/// 63 bits or fewer.
#[inline(always)]
pub fn pack(fields: &[(u32, u64)]) -> u64
    requires fit { FitWidths fields.now }
    requires room { width_of fields.now < 64 }
    ensures value { result ≡ packed fields.now }
    ensures fits { result < 2 ^ width_of fields.now }
{
    let mut number = 0;
    for &(width, value) in fields {
        number = (number << width) | value;
    }
    number
}
