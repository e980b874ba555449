//! What is left of a recording: the packets that have no counterpart.
ghost use Rattle.std.specs.Prelude.{◌≡◌, ◌++◌, ℕ, List, OnOk, bytes_eq, map};
ghost use Rattle.std.specs.HashMap.{get_by};
ghost use Rattle.std.specs.List.{filter};
ghost use Rattle.std.specs.Option.{option_to_list};
ghost use Rattle.sl_packet.specs.Packet.{IsPacket, apid_of};
ghost use Rattle.sl_pair.specs.Left.{placed_at};
ghost use Rattle.sl_pair.specs.Queue.{queued};
ghost use Rattle.sl_pair.specs.Runs.{count_of};
ghost use Rattle.sl_pair.specs.Waiting.{same_packet};

use crate::numbering::apid;
use crate::octets::Octets;
use crate::waiting::Place;
use sl_fields::{PacketHeader, front};
use std::alloc::AllocError;
use std::collections::{HashMap, VecDeque};
use std::hash::BuildHasher;
use std::marker::Model;

/// A packet without a counterpart in the other recording, with its numbers in its own.
#[derive(Drop)]
pub struct Left<'a> {
    octets: &'a Octets,
    place: &'a Place,
}

impl<'a> Model for Left<'a> {
    ghost use Rattle.sl_pair.specs.Placed.{Placed};
    ghost use Rattle.sl_pair.specs.Left.{placed_at};

    ghost Value = { Placed };

    ghost view = { λ l. placed_at l.octets.now l.place.now };
}

impl<'a> Left<'a> {
    /// The packet's octets, from its header on.
    pub fn packet(&self) -> &'a [u8]
        ensures octets { result.now ≡ self.now.packet }
        ensures packet { IsPacket result.now }
    {
        self.octets.as_slice()
    }

    /// The packet's APID.
    pub fn apid(&self) -> u16
        ensures { result ≡ apid_of self.now.packet }
    {
        apid(self.packet())
    }

    /// The packet's sequence count, 0 to 16383.
    pub fn count(&self) -> u16
        ensures { result ≡ count_of self.now.packet }
    {
        let (header, _) = front::<6>(self.packet());
        PacketHeader::read(header).count()
    }

    /// The packet's number among those of its channel, from 0 on.
    pub fn number(&self) -> u64
        ensures { result ≡ self.now.number }
    {
        self.place.number
    }

    /// The packet's number among those of its channel and APID, from 0 on.
    pub fn apid_number(&self) -> u64
        ensures { result ≡ self.now.apid_number }
    {
        self.place.apid_number
    }
}

/// Adds the copies at one place each.
pub fn push_places<'a, S: BuildHasher>(
    left: &mut Vec<Left<'a>>,
    places: &'a HashMap<Octets, Place, S>,
) -> Result<(), AllocError>
    ensures { OnOk result ((q : List ℕ) → filter (same_packet q) left.new.items
        ≡ filter (same_packet q) left.old.items
        ++ map (placed_at q) (option_to_list (get_by (bytes_eq q) places.now))) }
{
    for (octets, place) in places {
        left.push(Left { octets, place })?;
    }
    Ok(())
}

/// Adds the copies at the places in queues, each queue from its front on.
pub fn push_queues<'a, S: BuildHasher>(
    left: &mut Vec<Left<'a>>,
    queues: &'a HashMap<Octets, VecDeque<Place>, S>,
) -> Result<(), AllocError>
    ensures { OnOk result ((q : List ℕ) → filter (same_packet q) left.new.items
        ≡ filter (same_packet q) left.old.items ++ map (placed_at q) (queued queues.now q)) }
{
    for (octets, queue) in queues {
        push_queue(left, octets, queue)?;
    }
    Ok(())
}

// Adds the copies of one packet at the places in its queue.
fn push_queue<'a>(
    left: &mut Vec<Left<'a>>,
    octets: &'a Octets,
    queue: &'a VecDeque<Place>,
) -> Result<(), AllocError>
    ensures { OnOk result (left.new.items
        ≡ left.old.items ++ map (placed_at octets.now) queue.now.items) }
{
    for place in queue.iter() {
        left.push(Left { octets, place })?;
    }
    Ok(())
}
