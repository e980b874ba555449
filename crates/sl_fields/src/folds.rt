//! Octets of a message that are added to later ones, until one slice with the same remainder is
//! left. A slice is sixteen octets, here as one vector.
//!
//! The generator is x^16 + x^12 + x^5 + 1, and all sums are without carries, so a square is the sum
//! of the squares. x^16 has the remainder of x^12 + x^5 + 1, and squared three times x^128 that of
//! x^96 + x^40 + 1. So an octet may be replaced by zero once it has been added to the octets 4, 11
//! and 16 places after it. The same holds for 8, 22 and 32 places, and for 16, 44 and 64. The law
//! `runs_may_move` says this; the folds use `part-recurs` (proofs/FecfRecurrence.antt).
ghost use Rattle.std.specs.Prelude.{◌≡◌, ◌+◌, ◌≤◌, ◌++◌, length, take, drop};
ghost use Rattle.sl_fields.specs.Fecf.{fecf_of};
ghost use Rattle.sl_fields.specs.FecfFolds.{part_of, first_two_of, head_of};

use std::simd::prelude::*;

// Sixteen octets from `count` on are the places from which `first_two` and `head` take the octets
// of a slice: the first `count` octets of a message, behind zeros. The place 128 stands for a zero.
static PLACES: [u8; 32] = [
    128, 128, 128, 128, 128, 128, 128, 128, 128, 128, 128, 128, 128, 128, 128, 128, 0, 1, 2, 3, 4,
    5, 6, 7, 8, 9, 10, 11, 12, 13, 14, 15,
];

// Two slices from `count` on have 84 CF before their last `count` octets.
static PRESET: [u8; 48] = [
    0, 0, 0, 0, 0, 0, 0, 0, 0, 0, 0, 0, 0, 0, 0, 0, 0, 0, 0, 0, 0, 0, 0, 0, 0, 0, 0, 0, 0, 0, 0x84,
    0xCF, 0, 0, 0, 0, 0, 0, 0, 0, 0, 0, 0, 0, 0, 0, 0, 0,
];

// Sixteen octets from `count` on are what `head` adds to a slice: FF FF to the first two of its
// last `count` octets.
static INVERSES: [u8; 32] = [
    0, 0, 0, 0, 0, 0, 0, 0, 0, 0, 0, 0, 0, 0, 0, 0, 0xFF, 0xFF, 0, 0, 0, 0, 0, 0, 0, 0, 0, 0, 0, 0,
    0, 0,
];

/// One slice whose remainder is the frame error control field of these octets.
#[inline(always)]
pub fn folded(octets: &[u8]) -> u8x16
    requires { 16 ≤ length octets.now }
    ensures { part_of 0 result ≡ fecf_of octets.now }
{
    let (first, second, third, fourth) = four_slices(octets);
    let (third, fourth) = two_of_four(first, second, third, fourth);
    one_of_two(third, fourth)
}

// Four slices with the remainder of all. Of few octets these are slices as they come, with no sums:
// of 50 to 64 octets this takes some 40 instructions less. (33 and 49 would leave one octet to the
// head.) Many octets are told first, so that they take two instructions more and not ten.
#[inline(always)]
fn four_slices(octets: &[u8]) -> (u8x16, u8x16, u8x16, u8x16)
    requires { 16 ≤ length octets.now }
    ensures { part_of 0 (result.0 ++ (result.1 ++ (result.2 ++ result.3))) ≡ fecf_of octets.now }
{
    if octets.len() > 64 {
        return four_of_all(octets);
    }
    match octets.len() {
        34..=48 => two_behind_head(octets),
        50..=64 => three_behind_head(octets),
        _ => four_of_all(octets),
    }
}

// The last two slices, behind one of the octets before them and one of zeros.
#[inline(always)]
fn two_behind_head(octets: &[u8]) -> (u8x16, u8x16, u8x16, u8x16)
    requires least { 34 ≤ length octets.now }
    requires most { length octets.now ≤ 48 }
    ensures { part_of 0 (result.0 ++ (result.1 ++ (result.2 ++ result.3))) ≡ fecf_of octets.now }
{
    let third = octets.len() - 32;
    (
        u8x16::splat(0),
        head(octets, third),
        slice_at(octets, third),
        slice_at(octets, third + 16),
    )
}

// The last three slices, behind one of the octets before them.
#[inline(always)]
fn three_behind_head(octets: &[u8]) -> (u8x16, u8x16, u8x16, u8x16)
    requires least { 50 ≤ length octets.now }
    requires most { length octets.now ≤ 64 }
    ensures { part_of 0 (result.0 ++ (result.1 ++ (result.2 ++ result.3))) ≡ fecf_of octets.now }
{
    let second = octets.len() - 48;
    (
        head(octets, second),
        slice_at(octets, second),
        slice_at(octets, second + 16),
        slice_at(octets, second + 32),
    )
}

// The first `count` octets at the end of a slice, behind zeros. The first two are inverted, which
// is what the preset does: zeros leave a register of zeros as it is.
#[inline(always)]
fn head(octets: &[u8], count: usize) -> u8x16
    requires least { 2 ≤ count }
    requires most { count ≤ 16 }
    requires long { 16 ≤ length octets.now }
    ensures { result ≡ head_of count octets.now }
{
    let places = u8x16::from_slice(&PLACES[count..]);
    u8x16::from_slice(&INVERSES[count..])
        ^ u8x16::from_slice(octets).swizzle_dyn_within::<16>(places)
}

// The slice that begins at this place.
#[inline(always)]
fn slice_at(octets: &[u8], place: usize) -> u8x16
    requires { place + 16 ≤ length octets.now }
    ensures { result ≡ take 16 (drop place octets.now) }
{
    u8x16::from_slice(&octets[place..])
}

// Four slices with the remainder of all: each slice is added to the octets 16, 44 and 64 places
// later. A sum is a slice with all that was added to it. So a sum takes in the last sum and the one
// four slices before. Since 44 = 2 * 16 + 12, it also takes in the last twelve octets of the one
// three slices before, and the first four of the one two slices before. `oldest` is four slices
// before the next one, `older` three, `newer` two, and `newest` one.
#[inline(always)]
fn four_of_all(octets: &[u8]) -> (u8x16, u8x16, u8x16, u8x16)
    requires { 16 ≤ length octets.now }
    ensures { part_of 0 (result.0 ++ (result.1 ++ (result.2 ++ result.3))) ≡ fecf_of octets.now }
{
    let (_, slices) = octets.as_rchunks::<16>();
    let (fours, rest) = slices.as_chunks::<4>();
    let zeros = u8x16::splat(0);
    let (mut oldest, mut older) = (zeros, zeros);
    let (mut newer, second) = first_two(octets);
    let mut newest = newer ^ second;
    for four in fours {
        // Each sum takes the place of the oldest. After four sums the names are right again.
        oldest = oldest ^ from_4(older, newer) ^ newest ^ u8x16::from_array(four[0]);
        older = older ^ from_4(newer, newest) ^ oldest ^ u8x16::from_array(four[1]);
        newer = newer ^ from_4(newest, oldest) ^ older ^ u8x16::from_array(four[2]);
        newest = newest ^ from_4(oldest, older) ^ newer ^ u8x16::from_array(four[3]);
    }
    for slice in rest {
        let sum = oldest ^ from_4(older, newer) ^ newest ^ u8x16::from_array(*slice);
        oldest = older;
        older = newer;
        newer = newest;
        newest = sum;
    }
    // The last four sums stay in their places, so what they add to each other is taken off again.
    // Zeros stand for the sum before `oldest`, which isn't one of the four.
    (
        oldest,
        older ^ oldest,
        newer ^ older ^ from_4(zeros, oldest),
        newest ^ newer ^ from_4(oldest, older),
    )
}

// The whole slices end with the message. The `count` octets before them, at most 15, are put at the
// end of two slices of their own, behind zeros and 84 CF. Zeros leave a register of zeros as it is,
// and 84 CF turn it into the preset.
// With 84 CF they are at most 17 octets: too many for one slice. From `count` on, `PRESET` has what
// stands in the two slices before the message, with zeros in the message's place, and `PLACES` has
// the places of the message's octets.
#[inline(always)]
fn first_two(octets: &[u8]) -> (u8x16, u8x16)
    requires { 16 ≤ length octets.now }
    ensures { result.0 ++ result.1 ≡ first_two_of octets.now }
{
    let count = octets.len() % 16;
    let places = u8x16::from_slice(&PLACES[count..]);
    let before_slices = u8x16::from_slice(octets).swizzle_dyn_within::<16>(places);
    (
        u8x16::from_slice(&PRESET[count..]),
        u8x16::from_slice(&PRESET[count + 16..]) ^ before_slices,
    )
}

// Two slices with the remainder of these four: the octets of the first two are added to those 8, 22
// and 32 places later, from the front on.
#[inline(always)]
fn two_of_four(first: u8x16, second: u8x16, third: u8x16, fourth: u8x16) -> (u8x16, u8x16)
    ensures { part_of 0 (result.0 ++ result.1)
        ≡ part_of 0 (first ++ (second ++ (third ++ fourth))) }
{
    let zeros = u8x16::splat(0);
    let first = first ^ from_8(zeros, first);
    let second = second ^ from_8(first, zeros) ^ from_10(zeros, first);
    let second = second ^ from_8(zeros, second);
    let third = third ^ from_8(second, zeros) ^ from_10(first, second) ^ first;
    let fourth = fourth ^ from_10(second, zeros) ^ second;
    (third, fourth)
}

// One slice with the remainder of these two: the octets of the first are added to those 4, 11 and
// 16 places later, from the front on.
// What moved 4 places moves on, to 8 and 12: `from_12`, then `from_8`, do all three. 4 then 11 and
// 11 then 4 are both 15 and cancel, so `from_5` takes `first` as it came.
#[inline(always)]
fn one_of_two(first: u8x16, second: u8x16) -> u8x16
    ensures { part_of 0 result ≡ part_of 0 (first ++ second) }
{
    let zeros = u8x16::splat(0);
    let four_later = first ^ from_12(zeros, first);
    let first = four_later ^ from_8(zeros, four_later) ^ from_5(zeros, first);
    second ^ first ^ from_5(first, zeros) ^ from_12(first, zeros)
}

// `from_n(a, b)`, added where `b` stands, moves octets 16 - n places: `from_12` 4, `from_8` 8,
// `from_5` 11. Added a slice later, `from_10` moves them 22 places, and two later, `from_4` 44.

// Sixteen of these octets, from the fifth on.
#[inline(always)]
fn from_4(left: u8x16, right: u8x16) -> u8x16
    ensures { result ≡ drop 4 left ++ take 4 right }
{
    left.shuffle(
        right,
        [4, 5, 6, 7, 8, 9, 10, 11, 12, 13, 14, 15, 16, 17, 18, 19],
    )
}

// Sixteen of these octets, from the sixth on.
#[inline(always)]
fn from_5(left: u8x16, right: u8x16) -> u8x16
    ensures { result ≡ drop 5 left ++ take 5 right }
{
    left.shuffle(
        right,
        [5, 6, 7, 8, 9, 10, 11, 12, 13, 14, 15, 16, 17, 18, 19, 20],
    )
}

// Sixteen of these octets, from the ninth on.
#[inline(always)]
fn from_8(left: u8x16, right: u8x16) -> u8x16
    ensures { result ≡ drop 8 left ++ take 8 right }
{
    left.shuffle(
        right,
        [8, 9, 10, 11, 12, 13, 14, 15, 16, 17, 18, 19, 20, 21, 22, 23],
    )
}

// Sixteen of these octets, from the eleventh on.
#[inline(always)]
fn from_10(left: u8x16, right: u8x16) -> u8x16
    ensures { result ≡ drop 10 left ++ take 10 right }
{
    left.shuffle(
        right,
        [
            10, 11, 12, 13, 14, 15, 16, 17, 18, 19, 20, 21, 22, 23, 24, 25,
        ],
    )
}

// Sixteen of these octets, from the thirteenth on.
#[inline(always)]
fn from_12(left: u8x16, right: u8x16) -> u8x16
    ensures { result ≡ drop 12 left ++ take 12 right }
{
    left.shuffle(
        right,
        [
            12, 13, 14, 15, 16, 17, 18, 19, 20, 21, 22, 23, 24, 25, 26, 27,
        ],
    )
}
