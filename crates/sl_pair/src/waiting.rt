//! The packets of one recording and channel that wait for their counterparts.
ghost use Rattle.std.specs.Prelude.{◌≡◌, ◌↔◌, ◌++◌, ◌∷◌, [], ℕ, List, None, IfOk, OnOk, IsTrue, bytes_eq, drop, false, if◌then◌else◌, map};
ghost use Rattle.std.specs.HashMap.{get_by};
ghost use Rattle.std.specs.List.{filter, slice_get};
ghost use Rattle.sl_packet.specs.Packet.{IsPacket};
ghost use Rattle.sl_pair.specs.Left.{placed_at};
ghost use Rattle.sl_pair.specs.Queue.{queued};
ghost use Rattle.sl_pair.specs.Waiting.{same_packet};

use crate::left::{Left, push_places, push_queues};
use crate::octets::Octets;
use std::alloc::{AllocError, Global};
use std::collections::{HashMap, VecDeque};
use std::hash::BuildHasher;

/// The place of a packet in a recording.
#[derive(Clone, Copy, Debug)]
pub struct Place {
    /// The packet's number among those of its channel, from 0 on.
    pub number: u64,
    /// The packet's number among those of its channel and APID, from 0 on.
    pub apid_number: u64,
}

/// Packets that wait for their counterparts. Most packets have no copy that waits too, so that
/// queues are kept apart: a packet whose copies don't wait takes no memory for one.
#[derive(Drop)]
pub struct Waiting<S: BuildHasher> {
    // The place of the copy of each packet that came last.
    newest: HashMap<Octets, Place, S>,
    // Those of the copies that came before it, the oldest first.
    earlier: HashMap<Octets, VecDeque<Place>, S>,
    // A packet without a newest place has none in a queue.
    ghost earlier_have_newest: { (q : List ℕ) → get_by (bytes_eq q) newest ≡ None
        → queued earlier q ≡ [] },
}

impl<S: BuildHasher + Copy> Waiting<S> {
    ghost use Rattle.sl_pair.specs.Store.{waiting_at};

    /// No packet waits.
    pub fn new(alloc: Global, hasher: S) -> Waiting<S>
        ensures { (q : List ℕ) → waiting_at result q ≡ [] }
    {
        Waiting {
            newest: HashMap::with_hasher(alloc, hasher),
            earlier: HashMap::with_hasher(alloc, hasher),
        }
    }

    /// Whether no packet waits.
    pub fn is_empty(&self) -> bool
        ensures { IsTrue result ↔ ((q : List ℕ) → waiting_at self.now q ≡ []) }
    {
        self.newest.is_empty()
    }

    /// Adds a copy of a packet, which came last. The octets are those of the packet.
    pub fn add(
        &mut self,
        alloc: Global,
        octets: Octets,
        packet: &[u8],
        place: Place,
    ) -> Result<(), AllocError>
        requires same { octets ≡ packet.now }
        requires packet { IsPacket packet.now }
        ensures { OnOk result ((q : List ℕ) → waiting_at self.new q
            ≡ waiting_at self.old q ++ (if bytes_eq q packet.now then place ∷ [] else [])) }
    {
        let Some(before) = self.newest.insert(octets, place)? else {
            return Ok(());
        };
        push_place(alloc, &mut self.earlier, packet, before)
    }

    /// Takes the copy of a packet that came first, where one waits.
    pub fn take(&mut self, octets: &Octets) -> Option<Place>
        ensures taken { result ≡ slice_get (waiting_at self.old octets.now) 0 }
        ensures left { (q : List ℕ) → waiting_at self.new q
            ≡ (if bytes_eq q octets.now then drop 1 (waiting_at self.old q)
            else waiting_at self.old q) }
    {
        match pop_place(&mut self.earlier, octets) {
            Some(place) => Some(place),
            None => self.newest.remove(octets),
        }
    }

    /// The copies that wait. Those of one packet stand in the order in which they came.
    pub fn left(&self, alloc: Global) -> Result<Vec<Left<'_>>, AllocError>
        ensures { IfOk result (λ left. (q : List ℕ) → filter (same_packet q) left.items
            ≡ map (placed_at q) (waiting_at self.now q)) }
    {
        let queues = self.earlier.values();
        let room = queues.fold(
            self.newest.len(),
            |room, queue| room.saturating_add(queue.len()),
        );
        let mut left = Vec::with_capacity(alloc, room)?;
        push_queues(&mut left, &self.earlier)?;
        push_places(&mut left, &self.newest)?;
        Ok(left)
    }
}

// Adds a place to the end of a packet's queue.
fn push_place<S: BuildHasher>(
    alloc: Global,
    queues: &mut HashMap<Octets, VecDeque<Place>, S>,
    packet: &[u8],
    place: Place,
) -> Result<(), AllocError>
    requires { IsPacket packet.now }
    ensures pushed { OnOk result ((q : List ℕ) → queued queues.new q
        ≡ queued queues.old q ++ (if bytes_eq q packet.now then place ∷ [] else [])) }
    ensures others_stay { (q : List ℕ) → bytes_eq q packet.now ≡ false
        → queued queues.new q ≡ queued queues.old q }
{
    let octets = Octets::new(alloc, packet)?;
    let mut queue = match queues.remove(&octets) {
        Some(queue) => queue,
        None => VecDeque::new(alloc),
    };
    queue.push_back(place)?;
    queues.insert(octets, queue)?;
    Ok(())
}

// Takes the place at the front of a packet's queue. A queue without a place is given back.
fn pop_place<S: BuildHasher>(
    queues: &mut HashMap<Octets, VecDeque<Place>, S>,
    octets: &Octets,
) -> Option<Place>
    ensures popped { result ≡ slice_get (queued queues.old octets.now) 0 }
    ensures left { (q : List ℕ) → queued queues.new q
        ≡ (if bytes_eq q octets.now then drop 1 (queued queues.old q) else queued queues.old q) }
{
    if queues.is_empty() {
        return None;
    }
    let queue = queues.get_mut(octets)?;
    let place = queue.pop_front();
    if queue.is_empty() {
        queues.remove(octets);
    }
    place
}
