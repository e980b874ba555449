//! Two recordings on one channel.
ghost use Rattle.std.specs.Prelude.{◌≡◌, ◌↔◌, ◌++◌, ◌∷◌, [], IfOk, IsTrue, OnOk};
ghost use Rattle.sl_packet.specs.Packet.{IsPacket};
ghost use Rattle.sl_pair.specs.OnlyIn.{Packets, only_in};
ghost use Rattle.sl_pair.specs.Placed.{AreInPlace, left_in};
ghost use Rattle.sl_pair.specs.Pairing.{IsChannel, in_order};

use crate::left::Left;
use crate::side::Side;
use std::alloc::{AllocError, Global};
use std::hash::BuildHasher;

/// One of the two stations that recorded a pass.
#[derive(Clone, Copy, Debug, PartialEq, Eq)]
pub enum Station {
    /// The station of the first recording.
    First,
    /// The station of the second recording.
    Second,
}

/// The packets of both recordings on one channel.
#[derive(Drop)]
pub struct Channel<S: BuildHasher> {
    first: Side<S>,
    second: Side<S>,
    // Whether each packet so far that has a counterpart has its number.
    in_place: bool,
}

impl<S: BuildHasher + Copy> Channel<S> {
    /// No packet came.
    pub fn new(alloc: Global, hasher: S) -> Channel<S>
        ensures { IsChannel result [] [] }
    {
        Channel {
            first: Side::new(alloc, hasher),
            second: Side::new(alloc, hasher),
            in_place: true,
        }
    }

    /// Takes the next packet of a station's recording.
    pub fn pair(&mut self, alloc: Global, station: Station, packet: &[u8]) -> Result<(), AllocError>
        requires { IsPacket packet.now }
        ensures { OnOk result ((own others : Packets)
            → in_order station (IsChannel self.old) own others
            → in_order station (IsChannel self.new) (own ++ packet.now ∷ []) others) }
    {
        match station {
            Station::First => {
                let in_place = self.first.pair(alloc, &mut self.second, packet)?;
                self.in_place &= in_place;
                Ok(())
            }
            Station::Second => {
                let in_place = self.second.pair(alloc, &mut self.first, packet)?;
                self.in_place &= in_place;
                Ok(())
            }
        }
    }

    /// Whether each packet so far has a counterpart.
    pub fn is_matched(&self) -> bool
        ensures { (firsts seconds : Packets) → IsChannel self.now firsts seconds
            → (IsTrue result
            ↔ ((only_in firsts seconds ≡ []) × (only_in seconds firsts ≡ []))) }
    {
        self.first.is_empty() && self.second.is_empty()
    }

    /// Whether each packet so far that has a counterpart has its number.
    pub fn is_in_place(&self) -> bool
        ensures { (firsts seconds : Packets) → IsChannel self.now firsts seconds
            → (IsTrue result ↔ AreInPlace firsts seconds) }
    {
        self.in_place
    }

    /// The packets that only a station's recording has, in its order.
    pub fn left(&self, alloc: Global, station: Station) -> Result<Vec<Left<'_>>, AllocError>
        ensures { IfOk result (λ left. (own others : Packets)
            → in_order station (IsChannel self.now) own others
            → left.items ≡ left_in own others) }
    {
        match station {
            Station::First => self.first.left(alloc),
            Station::Second => self.second.left(alloc),
        }
    }
}
