//! One recording on one channel.
ghost use Rattle.std.specs.Prelude.{◌≡◌, ◌↔◌, ◌++◌, ◌∷◌, [], IfOk, IsTrue};
ghost use Rattle.sl_packet.specs.Packet.{IsPacket};
ghost use Rattle.sl_pair.specs.OnlyIn.{Packets, only_in};
ghost use Rattle.sl_pair.specs.Placed.{AreInPlace, left_in};
ghost use Rattle.sl_pair.specs.Side.{IsSide};

use crate::left::Left;
use crate::numbering::Numbering;
use crate::octets::Octets;
use crate::waiting::Waiting;
use std::alloc::{AllocError, Global};
use std::hash::BuildHasher;

/// The packets of one recording on one channel: how many came, and those that wait for their
/// counterparts.
#[derive(Drop)]
pub struct Side<S: BuildHasher> {
    numbering: Numbering,
    waiting: Waiting<S>,
}

impl<S: BuildHasher + Copy> Side<S> {
    /// No packet came.
    pub fn new(alloc: Global, hasher: S) -> Side<S>
        ensures { IsSide result [] [] }
    {
        Side {
            numbering: Numbering::new(alloc),
            waiting: Waiting::new(alloc, hasher),
        }
    }

    /// Takes the next packet of this recording: it takes away its counterpart where one waits on
    /// the other side, and else waits itself. Answers whether all is in place: false where the
    /// counterpart has another number.
    pub fn pair(
        &mut self,
        alloc: Global,
        other: &mut Side<S>,
        packet: &[u8],
    ) -> Result<bool, AllocError>
        requires { IsPacket packet.now }
        ensures { IfOk result (λ in_place. (before others : Packets)
            → IsSide self.old before others → IsSide other.old others before
            → IsSide self.new (before ++ packet.now ∷ []) others
            × IsSide other.new others (before ++ packet.now ∷ [])
            × (AreInPlace (before ++ packet.now ∷ []) others
            ↔ (AreInPlace before others × IsTrue in_place))) }
    {
        let octets = Octets::new(alloc, packet)?;
        let place = self.numbering.next(packet)?;
        match other.waiting.take(&octets) {
            Some(counterpart) => Ok(counterpart.number == place.number),
            None => {
                self.waiting.add(alloc, octets, packet, place)?;
                Ok(true)
            }
        }
    }

    /// Whether each packet of this recording has its counterpart.
    pub fn is_empty(&self) -> bool
        ensures { (packets others : Packets) → IsSide self.now packets others
            → (IsTrue result ↔ (only_in packets others ≡ [])) }
    {
        self.waiting.is_empty()
    }

    /// The packets without a counterpart, in the order in which they came.
    pub fn left(&self, alloc: Global) -> Result<Vec<Left<'_>>, AllocError>
        ensures { IfOk result (λ left. (packets others : Packets)
            → IsSide self.now packets others → left.items ≡ left_in packets others) }
    {
        let mut left = self.waiting.left(alloc)?;
        left.sort_unstable_by_key(|one| one.number());
        Ok(left)
    }
}
