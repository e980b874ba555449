//! The octets of a frame, as a key of a map.
ghost use Rattle.std.specs.Prelude.{◌≡◌};
ghost use Rattle.std.specs.Cmp.{partial_equiv_from_equiv};
ghost use Rattle.std.specs.Cmp.Lexicographic.{nat_list_eq_equiv};
ghost use Rattle.std.specs.Cmp.Rules.{hashing};
ghost use Rattle.std.proofs.Common.{rules};

use std::hash::{Hash, Hasher};
use std::marker::Model;

/// Octets of a frame, which are handed to a hasher all at once: those of a slice are handed to it
/// one by one, which takes ten times as long.
#[derive(Drop)]
pub struct Octets<'a> {
    octets: &'a [u8],
}

impl<'a> Model for Octets<'a> {
    ghost use Rattle.std.specs.Prelude.{ℕ, List};

    ghost Value = { List ℕ };

    ghost view = { λ o. o.octets.now };
}

impl<'a> Octets<'a> {
    pub fn new(octets: &'a [u8]) -> Octets<'a>
        ensures { result ≡ octets.now }
    {
        Octets { octets }
    }
}

impl<'a> PartialEq for Octets<'a> {
    ghost use Rattle.std.specs.Prelude.{bytes_eq};

    ghost eq = { λ x y. bytes_eq x y };

    ghost laws = { partial_equiv_from_equiv nat_list_eq_equiv };

    fn eq(&self, other: &Self) -> bool {
        self.octets == other.octets
    }
}

impl<'a> Eq for Octets<'a> {
    ghost laws = { nat_list_eq_equiv };
}

impl<'a> Hash for Octets<'a> {
    ghost use Rattle.std.specs.Prelude.{[], ◌∷◌};

    ghost hash_input = { λ x. x ∷ [] };

    ghost respects_eq = { Prim.search (hashing, rules) };

    fn hash<H: Hasher>(&self, state: &mut H) {
        state.write(self.octets);
    }
}
