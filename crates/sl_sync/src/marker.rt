//! Sync markers.
ghost use Rattle.std.specs.Prelude.{◌≡◌, ◌<◌, ◌≤◌, false, length, SomeIff};

use arrayvec::ArrayVec;
use std::marker::Model;

/// A sync marker: octets that stand before each unit, as the attached sync marker (ASM) of
/// CCSDS 131.0-B does, and how many of their bits may be wrong where the marker is searched.
#[derive(Drop)]
pub struct SyncMarker {
    // The octets, of which there may be none.
    octets: ArrayVec<u8, 16>,
    // How many of their bits may be wrong.
    errors: u32,
}

impl Model for SyncMarker {
    ghost use Rattle.sl_sync.specs.Marker.{Marker};

    ghost Value = { Marker };

    ghost use Rattle.sl_sync.specs.MarkerModel.{marker_of, IsSyncMarker};

    ghost view = { marker_of };

    ghost invariant = { IsSyncMarker };
}

impl SyncMarker {
    ghost use Rattle.sl_sync.specs.Marker.{IsMarker, IsNextMarked, Marker, is_marked, no_marker};

    /// No octets. They stand anywhere, so that units lie end to end from the first octet on.
    pub fn none() -> SyncMarker
        ensures { result ≡ no_marker }
    {
        SyncMarker {
            octets: ArrayVec::new(),
            errors: 0,
        }
    }

    /// The marker that has these octets, of whose bits `errors` may be wrong. More than 16 octets
    /// are refused, and so is a number of wrong bits above a quarter of the bits.
    pub fn new(octets: &[u8], errors: u32) -> Option<SyncMarker>
        ensures { let marker : Marker = record { octets = octets.now; errors = errors } in
            SomeIff result (IsMarker marker) marker }
    {
        if octets.len() > 16 || errors as usize > 2 * octets.len() {
            return None;
        }
        let mut kept = ArrayVec::new();
        kept.try_extend_from_slice(octets).ok()?;
        Some(SyncMarker {
            octets: kept,
            errors,
        })
    }

    /// The number of its octets, 16 at most.
    pub(crate) fn len(&self) -> usize
        ensures value { result ≡ length self.now.octets }
        ensures most { result ≤ 16 }
    {
        self.octets.len()
    }

    /// Whether the marker is at the front of octets, with no more wrong bits than it may have.
    /// Where they are fewer than its own, as much of it is looked for as can be there.
    #[inline(always)]
    pub(crate) fn is_at(&self, octets: &[u8]) -> bool
        ensures { result ≡ is_marked self.now octets.now }
    {
        let marker = self.octets.as_slice();
        begins_right(marker, self.errors, octets) && wrong_bits(marker, octets) <= self.errors
    }

    // The same in a call, so that the loop over places has in its registers what it needs.
    #[inline(never)]
    fn is_here(&self, octets: &[u8]) -> bool
        ensures { result ≡ is_marked self.now octets.now }
    {
        self.is_at(octets)
    }

    // With `is_at` and the private functions below inlined, a search in noise for four octets, of
    // which two bits may be wrong, takes 15 instructions an octet, else 30 (21707895).
    /// The first place from `from` on, and before `end`, at which the marker is; `end` where it is
    /// at none of them.
    pub(crate) fn find(&self, octets: &[u8], from: usize, end: usize) -> usize
        requires { (from ≤ end) × (end ≤ length octets.now) }
        ensures { IsNextMarked self.now octets.now from end result }
    {
        let marker = self.octets.as_slice();
        for place in from..end {
            let octets = &octets[place..];
            if begins_right(marker, self.errors, octets) && self.is_here(octets) {
                return place;
            }
        }
        end
    }
}

ghost use Rattle.sl_sync.specs.Marker.{first_four, wrong_bits};

// Whether the first four octets have no more wrong bits than the whole marker may have. Nearly all
// places without a marker are told by that.
#[inline(always)]
fn begins_right(marker: &[u8], errors: u32, octets: &[u8]) -> bool
    ensures { result ≡ false → errors < wrong_bits marker.now octets.now }
{
    match (first_four(marker), first_four(octets)) {
        (Some(marker), Some(octets)) => (marker ^ octets).count_ones() <= errors,
        _ => first_right(marker, errors, octets),
    }
}

// The same of the first octet, where there are fewer than four.
#[inline(always)]
fn first_right(marker: &[u8], errors: u32, octets: &[u8]) -> bool
    ensures { result ≡ false → errors < wrong_bits marker.now octets.now }
{
    match (marker, octets) {
        ([first, ..], [octet, ..]) => (*first ^ *octet).count_ones() <= errors,
        _ => true,
    }
}

// The first four octets as one number, where there are so many.
#[inline(always)]
#[tactic(auto, unfolding(crate::specs::Marker::first_four))]
fn first_four(octets: &[u8]) -> Option<u32>
    ensures { SomeIff result (4 ≤ length octets.now) (first_four octets.now) }
{
    match octets {
        [a, b, c, d, ..] => {
            let high = u32::from(*a) * 256 + u32::from(*b);
            let low = u32::from(*c) * 256 + u32::from(*d);
            Some(high * 0x10000 + low)
        }
        _ => None,
    }
}

/// The wrong bits of a marker at the front of octets; where these end first, of as much of it as is
/// there.
#[inline(always)]
pub fn wrong_bits(marker: &[u8], octets: &[u8]) -> u32
    requires { length marker.now ≤ 16 }
    ensures { result ≡ wrong_bits marker.now octets.now }
{
    let mut wrong = 0;
    for i in 0..marker.len().min(octets.len()) {
        wrong += (marker[i] ^ octets[i]).count_ones();
    }
    wrong
}
