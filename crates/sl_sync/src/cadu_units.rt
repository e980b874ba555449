//! The units of a shape of one length.
ghost use Rattle.std.specs.Prelude.{◌≡◌, ◌≤◌, drop, length, take};
ghost use Rattle.sl_sync.specs.Cadu.{before, cadu_begins, cadu_rule, needed, is_next};

use crate::cadu::CaduShape;
use crate::ends::behind;
use crate::randomiser::{Randomiser, randomise_if};
use crate::units::{Held, Place, Units};
use std::alloc::AllocError;

impl Units for CaduShape {
    ghost rule = { cadu_rule };

    fn ahead(&self) -> usize {
        2 * self.stride() + self.marker.len()
    }

    #[tactic(auto, unfolding(crate::specs::Cadu::cadu_begins))]
    fn begins(&self, place: Place, octets: &[u8]) -> bool {
        let stride = self.stride();
        octets.len() >= self.needed()
            && (is_next(place) || self.marker.is_at(octets))
            && (self.marker.is_at(behind(octets, stride))
                || self.marker.is_at(behind(octets, 2 * stride)))
    }

    #[tactic(auto, using(crate::proofs::CaduLemmas::unmarked))]
    fn stray(&self, place: Place, octets: &[u8], most: usize) -> (Place, usize) {
        match place {
            Place::Next if octets.len() < self.needed() => (Place::Next, 1),
            Place::Start => (Place::Start, self.marker.find(octets, 1, most)),
            _ => (Place::Astray, self.marker.find(octets, 1, most)),
        }
    }

    fn push_unit(&self, octets: &[u8], text: &mut Vec<u8>) -> Result<Held, AllocError> {
        let begin = text.len();
        text.extend_from_slice(frame_in(self, octets))?;
        randomise_if(self.randomised, Randomiser::Tm, &mut text[begin..]);
        Ok(Held {
            frames: 1,
            marked: self.marker.is_at(octets),
            cut: 0,
            refused: false,
            size: self.stride(),
        })
    }
}

// Whether a unit ended here.
fn is_next(place: Place) -> bool
    ensures { result ≡ is_next place }
{
    matches!(place, Place::Next)
}

// The octets of the frame of the unit that is here.
fn frame_in<'a>(shape: &CaduShape, octets: &'a [u8]) -> &'a [u8]
    requires { needed shape.now ≤ length octets.now }
    ensures { result.now ≡ take shape.now.len (drop (before shape.now) octets.now) }
{
    let (frame, _) = behind(octets, shape.before()).split_at(usize::from(shape.len));
    frame
}
