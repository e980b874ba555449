//! Numbers in decimal, as the crate `itoa` writes them.
ghost use Rattle.std.specs.Prelude.{◌≡◌, ◌*◌, ◌≤◌, ◌<◌, ◌^◌, ◌++◌, ℕ, [], decimal, slice_index_or, take, IfSome};
ghost use Rattle.sl_engine.specs.Io.Digits.{AreDigits, AreLeading, AreOfLong, four_digits, two_digits};

use itoa::{Buffer, write_digits};

/// Digits that are kept, so that they aren't worked out again: those of each octet, and the leading
/// digits of one long number. A long number is one of five digits or more.
#[derive(Drop)]
pub struct Decimals {
    // For each octet three places that begin with its digits, and a fourth with their number.
    octets: [[u8; 4]; 256],
    leading: Leading,
    ghost in_decimal: { (n : ℕ) → n < 256 → AreDigits n (slice_index_or octets n []) },
}

// The digits of a long number but for its last four. `number` is the number that they make, `least`
// the least long number that begins with them, `places` begins with them, and `many` is how many they
// are.
#[derive(Clone, Copy)]
struct Leading {
    number: u64,
    least: u64,
    places: [u8; 16],
    many: usize,
    ghost are_leading: { AreLeading number places many },
    ghost of_long: { AreOfLong number least },
}

impl Decimals {
    /// The digits of all octets, and the leading digits 1.
    pub fn new() -> Decimals {
        Decimals {
            octets: octets_in_decimal(),
            leading: leading_of(1),
        }
    }

    /// An octet in decimal: places that begin with its digits, and how many digits these are, 3 at
    /// most.
    #[inline(always)]
    pub fn of_octet(&self, octet: u8) -> ([u8; 4], usize)
        ensures digits { take result.1 result.0 ≡ decimal octet }
        ensures few { result.1 ≤ 3 }
    {
        let places = self.octets[usize::from(octet)];
        (places, usize::from(places[3]))
    }

    /// A number below 10,000 as four digits, zeros in front included.
    #[inline(always)]
    pub fn last_four(&self, number: u16) -> [u8; 4]
        requires { number < 10000 }
        ensures { result ≡ four_digits number }
    {
        let [first, second] = self.last_two((number / 100) as u8);
        let [third, fourth] = self.last_two((number % 100) as u8);
        [first, second, third, fourth]
    }

    // A number below 100 as two digits: the last two digits of 100 + `number`.
    #[inline(always)]
    fn last_two(&self, number: u8) -> [u8; 2]
        requires { number < 100 }
        ensures { result ≡ two_digits number }
    {
        let [_, first, second, _] = self.octets[usize::from(100 + number)];
        [first, second]
    }

    /// Places that begin with the digits of `number`, a long number without its last four digits,
    /// and how many digits these are: 16 at most, since a number of 64 bits has 20 at most. `None`
    /// where the digits of another number are kept. Mostly those of `number` are, since offsets
    /// rise little by little.
    #[inline(always)]
    pub fn leading(&self, number: u64) -> Option<([u8; 16], usize)>
        ensures digits { IfSome result (λ leading. take leading.1 leading.0 ≡ decimal number) }
        ensures few { IfSome result (λ leading. leading.1 ≤ 16) }
    {
        if self.leading.number != number {
            return None;
        }
        Some((self.leading.places, self.leading.many))
    }

    /// The same, where the digits of `number` aren't kept: they are worked out, and kept for the
    /// next call.
    pub fn new_leading(&mut self, number: u64) -> ([u8; 16], usize)
        requires some { 1 ≤ number }
        requires fits { number * 10000 < 2 ^ 64 }
        ensures digits { take result.1 result.0 ≡ decimal number }
        ensures few { result.1 ≤ 16 }
    {
        self.leading = leading_of(number);
        (self.leading.places, self.leading.many)
    }

    /// A long number in decimal: its leading digits, as `leading` gives them, and its last four.
    /// `None` where the leading digits of another number are kept. Nothing is divided to find out.
    #[inline(always)]
    pub fn long(&self, number: u64) -> Option<([u8; 16], usize, [u8; 4])>
        ensures digits { IfSome result (λ d. take d.1 d.0 ++ d.2 ≡ decimal number) }
        ensures few { IfSome result (λ d. d.1 ≤ 16) }
    {
        if number < self.leading.least {
            return None;
        }
        let last = number - self.leading.least;
        if last >= 10_000 {
            return None;
        }
        let last = self.last_four(last as u16);
        Some((self.leading.places, self.leading.many, last))
    }
}

fn leading_of(number: u64) -> Leading
    requires some { 1 ≤ number }
    requires fits { number * 10000 < 2 ^ 64 }
    ensures { result.number ≡ number }
{
    // The digits, 16 at most, end in the middle of the 32 places. So 16 places follow wherever they
    // begin.
    let mut digits = [0; 32];
    let start = write_digits(number, &mut digits, 16);
    let mut places = [0; 16];
    places.copy_from_slice(&digits[start..start + 16]);
    Leading {
        number,
        least: number * 10_000,
        places,
        many: 16 - start,
    }
}

fn octets_in_decimal() -> [[u8; 4]; 256]
    ensures { (n : ℕ) → n < 256 → AreDigits n (slice_index_or result n []) }
{
    let mut table = [[0; 4]; 256];
    for octet in 0..256usize {
        table[octet] = in_decimal(octet as u8);
    }
    table
}

fn in_decimal(octet: u8) -> [u8; 4]
    ensures { AreDigits octet result }
{
    let mut buffer = Buffer::new();
    let digits = buffer.format(octet).as_bytes();
    let mut places = [0; 4];
    places[..digits.len()].copy_from_slice(digits);
    places[3] = digits.len() as u8;
    places
}
