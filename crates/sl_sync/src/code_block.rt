//! The code blocks of CLTUs.
ghost use Rattle.std.specs.Prelude.{◌≡◌, ◌-◌, true, false, ◌<◌, ◌≤◌, ◌++◌, IfOk, OnOk};
ghost use Rattle.sl_sync.specs.CodeBlock.{blocks, data_of, is_block, register_after};
ghost use Rattle.sl_sync.specs.CodeBlock.{with_bit, with_bits};

use crate::ends::behind;
use std::alloc::AllocError;

// A CLTU ends after this number of code blocks, if it doesn't before.
const MOST_BLOCKS: usize = 1024;

/// Adds to `text` the data of the right code blocks at the front, up to 1024 of them, and answers how many
/// these are.
pub fn push_blocks(octets: &[u8], text: &mut Vec<u8>) -> Result<usize, AllocError>
    ensures count { IfOk result (λ count. count ≡ blocks 1024 octets.now) }
    ensures few { IfOk result (λ count. count ≤ 1024) }
    ensures added { OnOk result (text.new.items
        ≡ text.old.items ++ data_of (blocks 1024 octets.now) octets.now) }
{
    let mut rest = octets;
    let mut count = 0;
    'each: while goes_on(count, rest) {
        text.extend_from_slice(&rest[..7])?;
        rest = behind(rest, 8);
        count += 1;
    }
    Ok(count)
}

// Whether a further code block is at the front.
#[tactic(auto, using(crate::proofs::CodeBlockLemmas::blocks_none, crate::proofs::CodeBlockLemmas::blocks_full))]
fn goes_on(count: usize, rest: &[u8]) -> bool
    ensures more { result ≡ true → (count < 1024) × (is_block rest.now ≡ true) }
    ensures done { result ≡ false → blocks (1024 - count) rest.now ≡ 0 }
{
    count < MOST_BLOCKS && is_block(rest)
}

/// Whether a code block is at the front whose parity is right.
pub fn is_block(octets: &[u8]) -> bool
    ensures { result ≡ is_block octets.now }
{
    octets.len() >= 8 && octets[7] / 2 == register_after(&octets[..7]) ^ 127
}

// The register of the parity after octets.
fn register_after(octets: &[u8]) -> u8
    ensures value { result ≡ register_after 0 octets.now }
    ensures small { result < 128 }
{
    let mut register = 0;
    for octet in octets {
        register = with_octet(register, *octet);
    }
    register
}

// The register of the parity after an octet more.
fn with_octet(register: u8, octet: u8) -> u8
    requires { register < 128 }
    ensures value { result ≡ with_bits 8 register octet }
    ensures small { result < 128 }
{
    let high = with_bit(register, octet / 128 % 2);
    let high = with_bit(high, octet / 64 % 2);
    let high = with_bit(high, octet / 32 % 2);
    let high = with_bit(high, octet / 16 % 2);
    let low = with_bit(high, octet / 8 % 2);
    let low = with_bit(low, octet / 4 % 2);
    let low = with_bit(low, octet / 2 % 2);
    with_bit(low, octet % 2)
}

// The register of the parity after a bit more.
fn with_bit(register: u8, bit: u8) -> u8
    requires small { register < 128 }
    requires bit { bit ≤ 1 }
    ensures value { result ≡ with_bit register bit }
    ensures small { result < 128 }
{
    (register * 2 % 128) ^ ((register / 64 + bit) % 2 * 0x45)
}
