//! The packets that lie end to end at the front of octets.
ghost use Rattle.std.specs.Prelude.{◌≡◌, length};
ghost use Rattle.std.specs.Iterator.{item_count};
ghost use Rattle.sl_packet.specs.Packets.{packets_of, rest_of, only_idle, without_idle, GivesPacket};

use crate::idle::is_idle;
use crate::packet::first_packet;
use crate::sink::HandedOver;
use std::marker::Model;

/// An iterator over the space packets (CCSDS 133.0-B) that lie end to end at the front of octets,
/// in order, idle packets included. It ends at the first offset at which no whole packet begins.
#[derive(Debug, Drop)]
pub struct Packets<'a> {
    rest: &'a [u8],
}

impl<'a> Model for Packets<'a> {
    ghost use Rattle.std.specs.Prelude.{ℕ, List};

    // An iterator stands for the octets that are left, after the packets that it has yielded.
    ghost Value = { List ℕ };

    ghost use Rattle.sl_packet.specs.PacketsModel.{octets_left};

    ghost view = { octets_left };
}

impl<'a> Packets<'a> {
    /// The packets at the front of these octets. No packet is yielded yet, so all octets are left.
    pub fn new(octets: &'a [u8]) -> Packets<'a>
        ensures { result ≡ octets.now }
    {
        Packets { rest: octets }
    }

    /// The octets that are left, after the packets that were yielded so far. Once the iterator has
    /// ended, these octets begin with no whole packet.
    pub fn rest(&self) -> &'a [u8]
        ensures { result.now ≡ self.now }
    {
        self.rest
    }
}

impl<'a> Iterator for Packets<'a> {
    type Item = &'a [u8];

    // What a call of `next` yields, and which octets are left then.
    ghost next_gives = { GivesPacket };

    // A bound, as each iterator has one: it yields no more packets than lie at the front of the
    // octets that are left. That it yields all of these is said by `GivesPacket`.
    ghost remaining = { item_count packets_of };

    /// The packet at the front of the octets that are left. `None` exactly where no whole packet is
    /// there. In that case the call changes nothing.
    fn next(&mut self) -> Option<&'a [u8]> {
        let packet = first_packet(self.rest)?;
        self.rest = &self.rest[packet.len()..];
        Some(packet)
    }
}

/// Counts the space packets (CCSDS 133.0-B) that lie end to end at the front of the octets, as
/// [`hand_over`](crate::hand_over) counts them for a sink that accepts each packet.
#[inline(always)]
pub fn count_packets<'a>(octets: &'a [u8]) -> HandedOver<'a>
    ensures packets { result.packets ≡ length (without_idle (packets_of octets.now)) }
    ensures idle { result.idle ≡ length (only_idle (packets_of octets.now)) }
    ensures remainder { result.remainder.now ≡ rest_of octets.now }
{
    let mut counted = HandedOver {
        packets: 0,
        idle: 0,
        remainder: octets,
    };
    while let Some(packet) = first_packet(counted.remainder) {
        if is_idle(packet) {
            counted.idle += 1;
        } else {
            counted.packets += 1;
        }
        counted.remainder = &counted.remainder[packet.len()..];
    }
    counted
}
