//! The numbers of packets on one channel.
ghost use Rattle.std.specs.Prelude.{◌≡◌, ◌≤◌, ◌++◌, ◌∷◌, [], IfOk, length};
ghost use Rattle.sl_packet.specs.Packet.{apid_of};
ghost use Rattle.sl_pair.specs.OnlyIn.{Packets};
ghost use Rattle.sl_pair.specs.Placed.{placed_after};
ghost use Rattle.sl_pair.specs.Side.{HasCounted, place_of};

use crate::waiting::Place;
use byteorder::{BigEndian, ByteOrder};
use std::alloc::{AllocError, Global};
use std::collections::BTreeMap;

/// How many packets came on a channel, and how many of each APID.
#[derive(Drop)]
pub struct Numbering {
    packets: u64,
    of_apid: BTreeMap<u16, u64>,
}

impl Numbering {
    /// No packet came.
    pub fn new(alloc: Global) -> Numbering
        ensures { HasCounted result [] }
    {
        Numbering {
            packets: 0,
            of_apid: BTreeMap::new(alloc),
        }
    }

    /// Counts the next packet, and answers its numbers. Beyond 2^64 - 1 packets it answers as if
    /// memory were refused.
    pub fn next(&mut self, packet: &[u8]) -> Result<Place, AllocError>
        requires { 2 ≤ length packet.now }
        ensures { IfOk result (λ place. (before : Packets) → HasCounted self.old before
            → (place ≡ place_of (placed_after before packet.now))
            × HasCounted self.new (before ++ packet.now ∷ [])) }
    {
        let apid = apid(packet);
        let place = Place {
            number: self.packets,
            apid_number: self.of_apid.get(&apid).copied().unwrap_or(0),
        };
        let packets = place.number.checked_add(1).ok_or(AllocError)?;
        let of_apid = place.apid_number.checked_add(1).ok_or(AllocError)?;
        self.of_apid.insert(apid, of_apid)?;
        self.packets = packets;
        Ok(place)
    }
}

/// The APID of a packet: the last eleven bits of its first two octets.
pub fn apid(packet: &[u8]) -> u16
    requires { 2 ≤ length packet.now }
    ensures { result ≡ apid_of packet.now }
{
    BigEndian::read_u16(packet) % 2048
}
