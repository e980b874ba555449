//! The octets of a packet, as a key of a map.
ghost use Rattle.std.specs.Prelude.{◌≡◌, IfOk};
ghost use Rattle.std.specs.Cmp.{partial_equiv_from_equiv};
ghost use Rattle.std.specs.Cmp.Lexicographic.{nat_list_eq_equiv};
ghost use Rattle.std.specs.Cmp.Rules.{hashing};
ghost use Rattle.std.proofs.Common.{rules};
ghost use Rattle.sl_packet.specs.Packet.{IsPacket};

use smallvec::SmallVec;
use std::alloc::{AllocError, Global};
use std::hash::{Hash, Hasher};
use std::marker::Model;

/// Packets of up to this many octets take no memory but that of the key.
const INLINE: usize = 16;

/// The octets of a packet. They are handed to a hasher all at once: those of a slice are handed to
/// it one by one, which takes ten times as long.
#[derive(Drop)]
pub struct Octets {
    octets: SmallVec<u8, INLINE>,
}

impl Model for Octets {
    ghost use Rattle.std.specs.Prelude.{ℕ, List};
    ghost use Rattle.sl_packet.specs.Packet.{IsPacket};

    ghost Value = { List ℕ };

    ghost view = { λ o. o.octets.items };

    ghost invariant = { λ o. IsPacket o.octets.items };
}

impl Octets {
    pub fn new(alloc: Global, packet: &[u8]) -> Result<Octets, AllocError>
        requires { IsPacket packet.now }
        ensures { IfOk result (λ octets. octets ≡ packet.now) }
    {
        let octets = SmallVec::from_slice(alloc, packet)?;
        Ok(Octets { octets })
    }

    pub fn as_slice(&self) -> &[u8]
        ensures octets { result.now ≡ self.now }
        ensures packet { IsPacket result.now }
    {
        self.octets.as_slice()
    }
}

impl PartialEq for Octets {
    ghost use Rattle.std.specs.Prelude.{bytes_eq};

    ghost eq = { λ x y. bytes_eq x y };

    ghost laws = { partial_equiv_from_equiv nat_list_eq_equiv };

    fn eq(&self, other: &Self) -> bool {
        self.as_slice() == other.as_slice()
    }
}

impl Eq for Octets {
    ghost laws = { nat_list_eq_equiv };
}

impl Hash for Octets {
    ghost use Rattle.std.specs.Prelude.{[], ◌∷◌};

    ghost hash_input = { λ x. x ∷ [] };

    ghost respects_eq = { Prim.search (hashing, rules) };

    fn hash<H: Hasher>(&self, state: &mut H) {
        state.write(self.as_slice());
    }
}
