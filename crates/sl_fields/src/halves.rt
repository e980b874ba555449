//! The last slice of a message, halved until two octets are left. A half is a number here, its
//! first octet the most significant.
//!
//! The generator is x^16 + x^12 + x^5 + 1, and all sums are without carries, so a square is the sum
//! of the squares. Squared twice, the generator is x^64 + x^48 + x^20 + 1, a multiple of itself. So
//! two numbers of 64 bits, one after the other, are divided by this multiple: what is left is one
//! number of 64 bits, with the remainder of both. The generator squared once does so with numbers
//! of 32 bits, and the generator itself with numbers of 16.
//!
//! A unit is a sixteenth of a number: 4 bits, 2 or 1. In the divisor the lower terms stand 4, 11
//! and 16 units after the first one. So `first` is the quotient plus the quotient 4 and 11 units
//! later. Solved for the quotient, this is `first` plus `first` 4, 8, 12 and 11 units later; what
//! comes 15 units later comes twice, and cancels. What is left is `second` plus the quotient moved
//! up by 12 units, by 5 and by none.
ghost use Rattle.std.specs.Prelude.{◌≡◌, ◌++◌};
ghost use Rattle.byteorder.specs.Endian.{big_bytes};
ghost use Rattle.sl_fields.specs.FecfFolds.{part_of};

use std::simd::prelude::*;

/// Two octets whose remainder is that of this slice.
#[inline(always)]
pub fn last_two(slice: u8x16) -> [u8; 2]
    ensures { part_of 0 result ≡ part_of 0 slice }
{
    let octets = slice.to_array();
    let (words, _) = octets.as_chunks::<8>();
    let word = halved_64(u64::from_be_bytes(words[0]), u64::from_be_bytes(words[1]));
    let half = halved_32((word >> 32) as u32, (word % (1 << 32)) as u32);
    halved_16((half >> 16) as u16, (half % (1 << 16)) as u16).to_be_bytes()
}

// The number of 64 bits whose remainder is that of these two.
#[inline(always)]
fn halved_64(first: u64, second: u64) -> u64
    ensures { part_of 0 (big_bytes 8 result)
        ≡ part_of 0 (big_bytes 8 first ++ big_bytes 8 second) }
{
    let four_later = first ^ (first >> 16);
    let quotient = four_later ^ (four_later >> 32) ^ (first >> 44);
    second ^ quotient ^ (quotient << 20) ^ (quotient << 48)
}

// The number of 32 bits whose remainder is that of these two.
#[inline(always)]
fn halved_32(first: u32, second: u32) -> u32
    ensures { part_of 0 (big_bytes 4 result)
        ≡ part_of 0 (big_bytes 4 first ++ big_bytes 4 second) }
{
    let four_later = first ^ (first >> 8);
    let quotient = four_later ^ (four_later >> 16) ^ (first >> 22);
    second ^ quotient ^ (quotient << 10) ^ (quotient << 24)
}

// The number of 16 bits whose remainder is that of these two.
#[inline(always)]
fn halved_16(first: u16, second: u16) -> u16
    ensures { part_of 0 (big_bytes 2 result)
        ≡ part_of 0 (big_bytes 2 first ++ big_bytes 2 second) }
{
    let four_later = first ^ (first >> 4);
    let quotient = four_later ^ (four_later >> 8) ^ (first >> 11);
    second ^ quotient ^ (quotient << 5) ^ (quotient << 12)
}
