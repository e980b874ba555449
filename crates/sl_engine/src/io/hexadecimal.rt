//! Octets in hexadecimal, as the crate `hex` writes them.
ghost use Rattle.std.specs.Prelude.{◌≡◌, ◌+◌, ◌*◌, ◌≤◌, ◌++◌, length, take};
ghost use Rattle.hex.specs.Hex.{encode_lower, lower_digits};
ghost use Rattle.sl_engine.specs.Io.Digits.{PutsBlock};

use std::simd::prelude::*;

/// The sixteen hexadecimal digits as a table, in which octets are looked up.
#[derive(Clone, Copy)]
pub struct Hexadecimals {
    digits: [u8; 16],
    ghost are_digits: { digits ≡ lower_digits },
}

impl Hexadecimals {
    /// The digits that `hex` writes, `0` to `9` and `a` to `f`.
    pub fn new() -> Hexadecimals {
        Hexadecimals {
            digits: sixteen_digits(),
        }
    }

    /// A word of four octets in hexadecimal.
    #[inline(always)]
    pub fn of_word(&self, word: &[u8; 4]) -> [u8; 8]
        ensures { result ≡ encode_lower word.now }
    {
        // As one number, since the compiler puts an array into a vector octet by octet.
        let number = u32::from_le_bytes(*word);
        self.of_four(u32x1::splat(number).to_le_bytes()).to_array()
    }

    /// Writes octets in hexadecimal into a buffer, from the place `at` on, two digits an octet. No
    /// clause speaks of what stands behind them.
    pub fn put(&self, octets: &[u8], buffer: &mut [u8], at: usize)
        requires { at + 2 * length octets.now ≤ length buffer.old }
        ensures text { take (at + 2 * length octets.now) buffer.new
            ≡ take at buffer.old ++ encode_lower octets.now }
        ensures long { length buffer.new ≡ length buffer.old }
    {
        // A copy, which stays in a register whatever is written.
        let digits = *self;
        let many = octets.len();
        if many >= 32 {
            for i in 0..many / 32 {
                digits.put_thirty_two(octets, 32 * i, buffer, at);
            }
            // The last ones. Some of them may be written already, and are written again.
            digits.put_thirty_two(octets, many - 32, buffer, at);
        } else if many >= 16 {
            digits.put_sixteen(octets, 0, buffer, at);
            digits.put_sixteen(octets, many - 16, buffer, at);
        } else if many >= 8 {
            digits.put_eight(octets, 0, buffer, at);
            digits.put_eight(octets, many - 8, buffer, at);
        } else if many >= 4 {
            digits.put_four(octets, 0, buffer, at);
            digits.put_four(octets, many - 4, buffer, at);
        } else {
            let _ = hex::encode_to_slice(octets, &mut buffer[at..at + 2 * many]);
        }
    }

    // Writes 32 of these octets, from the index `from` on, where those before `from` are written.
    #[inline(always)]
    fn put_thirty_two(&self, octets: &[u8], from: usize, buffer: &mut [u8], at: usize)
        requires inside { from + 32 ≤ length octets.now }
        requires room { at + 2 * (from + 32) ≤ length buffer.old }
        ensures { PutsBlock octets.now from 32 at buffer.old buffer.new }
    {
        self.of_thirty_two(u8x32::from_slice(&octets[from..]))
            .copy_to_slice(&mut buffer[at + 2 * from..]);
    }

    // The same with sixteen of them.
    #[inline(always)]
    fn put_sixteen(&self, octets: &[u8], from: usize, buffer: &mut [u8], at: usize)
        requires inside { from + 16 ≤ length octets.now }
        requires room { at + 2 * (from + 16) ≤ length buffer.old }
        ensures { PutsBlock octets.now from 16 at buffer.old buffer.new }
    {
        self.of_sixteen(u8x16::from_slice(&octets[from..]))
            .copy_to_slice(&mut buffer[at + 2 * from..]);
    }

    // The same with eight of them.
    #[inline(always)]
    fn put_eight(&self, octets: &[u8], from: usize, buffer: &mut [u8], at: usize)
        requires inside { from + 8 ≤ length octets.now }
        requires room { at + 2 * (from + 8) ≤ length buffer.old }
        ensures { PutsBlock octets.now from 8 at buffer.old buffer.new }
    {
        self.of_eight(u8x8::from_slice(&octets[from..]))
            .copy_to_slice(&mut buffer[at + 2 * from..]);
    }

    // The same with four of them.
    #[inline(always)]
    fn put_four(&self, octets: &[u8], from: usize, buffer: &mut [u8], at: usize)
        requires inside { from + 4 ≤ length octets.now }
        requires room { at + 2 * (from + 4) ≤ length buffer.old }
        ensures { PutsBlock octets.now from 4 at buffer.old buffer.new }
    {
        self.of_four(u8x4::from_slice(&octets[from..]))
            .copy_to_slice(&mut buffer[at + 2 * from..]);
    }

    // Four octets in hexadecimal, taken as the first four of eight.
    #[inline(always)]
    fn of_four(&self, octets: u8x4) -> u8x8
        ensures { result ≡ encode_lower octets }
    {
        let eight: u8x8 = octets.shuffle(u8x4::splat(0), [0, 1, 2, 3, 4, 5, 6, 7]);
        self.of_eight(eight).extract::<0, 8>()
    }

    // Octets in hexadecimal, 32 of them. The half of an octet, 0 to 15, is the index of its digit in
    // the table, which is there for each sixteen halves. The upper half comes first.
    #[inline(always)]
    fn of_thirty_two(&self, octets: u8x32) -> u8x64
        ensures { result ≡ encode_lower octets }
    {
        let upper = octets >> u8x32::splat(4);
        let lower = octets & u8x32::splat(15);
        let halves: u8x64 = upper.shuffle(
            lower,
            [
                0, 32, 1, 33, 2, 34, 3, 35, 4, 36, 5, 37, 6, 38, 7, 39, 8, 40, 9, 41, 10, 42, 11,
                43, 12, 44, 13, 45, 14, 46, 15, 47, 16, 48, 17, 49, 18, 50, 19, 51, 20, 52, 21, 53,
                22, 54, 23, 55, 24, 56, 25, 57, 26, 58, 27, 59, 28, 60, 29, 61, 30, 62, 31, 63,
            ],
        );
        let digits = u8x16::from_array(self.digits);
        let table: u8x64 = digits.shuffle(
            digits,
            [
                0, 1, 2, 3, 4, 5, 6, 7, 8, 9, 10, 11, 12, 13, 14, 15, 0, 1, 2, 3, 4, 5, 6, 7, 8, 9,
                10, 11, 12, 13, 14, 15, 0, 1, 2, 3, 4, 5, 6, 7, 8, 9, 10, 11, 12, 13, 14, 15, 0, 1,
                2, 3, 4, 5, 6, 7, 8, 9, 10, 11, 12, 13, 14, 15,
            ],
        );
        table.swizzle_dyn_within::<16>(halves)
    }

    // Sixteen octets likewise.
    #[inline(always)]
    fn of_sixteen(&self, octets: u8x16) -> u8x32
        ensures { result ≡ encode_lower octets }
    {
        let upper = octets >> u8x16::splat(4);
        let lower = octets & u8x16::splat(15);
        let halves: u8x32 = upper.shuffle(
            lower,
            [
                0, 16, 1, 17, 2, 18, 3, 19, 4, 20, 5, 21, 6, 22, 7, 23, 8, 24, 9, 25, 10, 26, 11,
                27, 12, 28, 13, 29, 14, 30, 15, 31,
            ],
        );
        let digits = u8x16::from_array(self.digits);
        let table: u8x32 = digits.shuffle(
            digits,
            [
                0, 1, 2, 3, 4, 5, 6, 7, 8, 9, 10, 11, 12, 13, 14, 15, 0, 1, 2, 3, 4, 5, 6, 7, 8, 9,
                10, 11, 12, 13, 14, 15,
            ],
        );
        table.swizzle_dyn_within::<16>(halves)
    }

    // Eight octets likewise.
    #[inline(always)]
    fn of_eight(&self, octets: u8x8) -> u8x16
        ensures { result ≡ encode_lower octets }
    {
        let upper = octets >> u8x8::splat(4);
        let lower = octets & u8x8::splat(15);
        let halves: u8x16 = upper.shuffle(
            lower,
            [0, 8, 1, 9, 2, 10, 3, 11, 4, 12, 5, 13, 6, 14, 7, 15],
        );
        u8x16::from_array(self.digits).swizzle_dyn(halves)
    }
}

fn sixteen_digits() -> [u8; 16]
    ensures { result ≡ lower_digits }
{
    let mut digits = [0; 16];
    let octets = [0x01, 0x23, 0x45, 0x67, 0x89, 0xab, 0xcd, 0xef];
    let _ = hex::encode_to_slice(octets, &mut digits);
    digits
}
