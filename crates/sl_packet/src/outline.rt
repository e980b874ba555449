//! Octets of which only the number and the first six are kept. These tell what the octets begin
//! with.
ghost use Rattle.std.specs.Prelude.{◌≡◌, ◌+◌, ◌^◌, ◌<◌, ◌++◌, ℕ, List, [], length, take};
ghost use Rattle.sl_packet.specs.Outline.{HasOutline};
ghost use Rattle.sl_packet.specs.Packet.{is_idle_packet, longest_packet};
ghost use Rattle.sl_packet.specs.Partial.{LacksOctets, need_of};

use crate::idle::is_idle;
use crate::packet::need;
use crate::partial::Need;

/// The number of octets, and the first six of them, which are the primary header of a space packet
/// (CCSDS 133.0-B) where the octets begin with one. A clause with `octets` holds of all octets that
/// have the outline.
#[derive(Clone, Copy, Debug)]
pub struct Outline {
    pub octets: u32,
    /// Where there are fewer than six octets, those after them mean nothing.
    pub header: [u8; 6],
}

impl Outline {
    /// The outline of no octets.
    pub fn none() -> Outline
        ensures { HasOutline [] result }
    {
        Outline {
            octets: 0,
            header: [0; 6],
        }
    }

    /// The outline of these octets, fewer than 2^32.
    pub fn of(octets: &[u8]) -> Outline
        requires { length octets.now < 2 ^ 32 }
        ensures { HasOutline octets.now result }
    {
        Outline {
            octets: octets.len() as u32,
            header: first_six(octets),
        }
    }

    /// The outline of the octets with more octets after them, together fewer than 2^32.
    #[inline(always)]
    pub fn plus(&self, more: &[u8]) -> Outline
        requires { self.now.octets + length more.now < 2 ^ 32 }
        ensures outline { (octets : List ℕ) → HasOutline octets self.now
            → HasOutline (octets ++ more.now) result }
        ensures count { result.octets ≡ self.now.octets + length more.now }
    {
        Outline {
            octets: self.octets + more.len() as u32,
            header: filled(&self.header, self.octets as usize, more),
        }
    }

    /// What the octets lack for a whole space packet at their front.
    #[inline(always)]
    pub fn need(&self) -> Need
        ensures need { (octets : List ℕ) → HasOutline octets self.now → result ≡ need_of octets }
        // Octets that lack something are fewer than the longest packet has.
        ensures short { LacksOctets result → self.now.octets < longest_packet }
    {
        if self.octets < 6 {
            return need(&self.header[..self.octets as usize]);
        }
        // What the header lacks, less the octets after it.
        let more = self.octets - 6;
        match need(&self.header) {
            Need::Octets(wanted) if more < wanted => Need::Octets(wanted - more),
            Need::Octets(wanted) => Need::Whole(wanted + 6),
            other => other,
        }
    }

    /// Whether the octets begin like an idle packet.
    #[inline(always)]
    pub fn is_idle(&self) -> bool
        ensures { (octets : List ℕ) → HasOutline octets self.now
            → result ≡ is_idle_packet octets }
    {
        self.octets >= 2 && is_idle(&self.header)
    }
}

// Six octets that begin with the first of these.
#[inline(always)]
fn first_six(octets: &[u8]) -> [u8; 6]
    ensures { take (length octets.now) result ≡ take 6 octets.now }
{
    match octets.first_chunk::<6>() {
        Some(header) => *header,
        None => filled(&[0; 6], 0, octets),
    }
}

// The first `known` of these six octets, and then as many of `more` as there is room for.
#[inline(always)]
fn filled(header: &[u8; 6], known: usize, more: &[u8]) -> [u8; 6]
    ensures { take (known + length more.now) result ≡ take 6 (take known header.now ++ more.now) }
{
    let mut header = *header;
    if known < 6 {
        let many = more.len().min(6 - known);
        header[known..known + many].copy_from_slice(&more[..many]);
    }
    header
}
