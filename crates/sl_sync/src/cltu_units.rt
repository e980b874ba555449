//! The units of a shape of CLTUs.
ghost use Rattle.std.specs.Prelude.{◌≡◌, ◌≤◌, ◌<◌, ◌-◌, ◌++◌, ℕ, false, length, take, drop, IfOk, OnOk};
ghost use Rattle.std.specs.List.{concat};
ghost use Rattle.sl_sync.specs.Cltu.{block_count, cltu_data, cltu_rule, cut_octets, frames_in};
ghost use Rattle.sl_sync.specs.Cltu.{has_sequence, is_refused, start_sequence};

use crate::cltu::CltuShape;
use crate::code_block::{is_block, push_blocks};
use crate::ends::behind;
use crate::marker::wrong_bits;
use crate::randomiser::{Randomiser, randomise_if};
use crate::tc_frames::{cut_octets, whole_frames};
use crate::units::{Held, Place, Units};
use std::alloc::AllocError;

// The start sequence.
const START: [u8; 2] = [0xeb, 0x90];

// The tail sequence, whose parity isn't that of a code block.
const TAIL: [u8; 8] = [0xc5, 0xc5, 0xc5, 0xc5, 0xc5, 0xc5, 0xc5, 0x79];

impl Units for CltuShape {
    ghost rule = { cltu_rule };

    fn ahead(&self) -> usize {
        8 * 1024 + 10
    }

    #[tactic(auto, unfolding(crate::specs::Cltu::cltu_begins))]
    fn begins(&self, _place: Place, octets: &[u8]) -> bool {
        starts(self, octets) && is_block(behind(octets, 2))
    }

    #[tactic(auto, using(crate::proofs::CltuLemmas::unstarted))]
    fn stray(&self, _place: Place, octets: &[u8], most: usize) -> (Place, usize) {
        (Place::Start, next_start(self, octets, most))
    }

    #[tactic(auto, unfolding(crate::specs::Cltu::cltu_content))]
    fn push_unit(&self, octets: &[u8], text: &mut Vec<u8>) -> Result<Held, AllocError> {
        let begin = text.len();
        let size = 8 * push_data(self, octets, text)? + 2;
        let (frames, cut) = keep_frames(text, begin);
        Ok(Held {
            frames,
            marked: true,
            cut,
            refused: is_refused(self, behind(octets, size)),
            size,
        })
    }
}

// Adds the data of the CLTU that begins here to `text`, without the randomiser's sequence, and
// answers how many code blocks it has.
fn push_data(shape: &CltuShape, octets: &[u8], text: &mut Vec<u8>) -> Result<usize, AllocError>
    ensures count { IfOk result (λ count. count ≡ block_count octets.now) }
    ensures few { IfOk result (λ count. count ≤ 1024) }
    ensures added { OnOk result (text.new.items
        ≡ text.old.items ++ cltu_data shape.now octets.now) }
{
    let begin = text.len();
    let count = push_blocks(behind(octets, 2), text)?;
    randomise_if(shape.randomised, Randomiser::Tc, &mut text[begin..]);
    Ok(count)
}

// Keeps the whole frames at the front of the octets from `begin` on, and nothing behind them. The
// answer is how many they are, and how many octets behind them are of a frame that isn't whole.
fn keep_frames(text: &mut Vec<u8>, begin: usize) -> (u64, u64)
    requires { begin ≤ length text.old.items }
    ensures kept { text.new.items
        ≡ take begin text.old.items ++ concat (frames_in (drop begin text.old.items)) }
    ensures count { result.0 ≡ length (frames_in (drop begin text.old.items)) }
    ensures cut { result.1 ≡ cut_octets (length (drop begin text.old.items)
        - length (concat (frames_in (drop begin text.old.items)))) }
{
    let (count, len) = whole_frames(behind(text.as_slice(), begin));
    let cut = cut_octets(text.len() - begin - len);
    text.truncate(begin + len);
    (count, cut as u64)
}

// How many octets at the front come before the next start sequence, from the second one on. They
// are no more than `most`.
fn next_start(shape: &CltuShape, octets: &[u8], most: usize) -> usize
    requires { 1 ≤ most }
    ensures inside { (1 ≤ result) × (result ≤ most) }
    ensures none { (j : ℕ) → 1 ≤ j → j < result
        → has_sequence shape.now start_sequence (drop j octets.now) ≡ false }
{
    for place in 1..most {
        if starts(shape, behind(octets, place)) {
            return place;
        }
    }
    most
}

// Whether the start sequence is at the front, or as much of it as the file still has.
fn starts(shape: &CltuShape, octets: &[u8]) -> bool
    ensures { result ≡ has_sequence shape.now start_sequence octets.now }
{
    wrong_bits(&START, octets) <= shape.errors
}

// Whether a block is refused: eight octets that aren't the tail sequence.
fn is_refused(shape: &CltuShape, octets: &[u8]) -> bool
    ensures { result ≡ is_refused shape.now octets.now }
{
    octets.len() >= 8 && wrong_bits(&TAIL, octets) > shape.errors
}
