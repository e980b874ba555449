//! The payloads of a recording, each with the frame that has it first.
use crate::order::recording::{Payload, Recording};
use std::alloc::{AllocError, Global};
use std::hash::{BuildHasher, Hasher};

/// How many slots a payload may lie behind the one that its hash names. A payload that finds no
/// place there isn't kept, so that the time stays linear whatever the frames are.
const TRIED: usize = 64;

/// The place of no frame.
const NO_FRAME: u32 = u32::MAX;

/// A slot of the table: a part of the payload's hash, and the place of the frame that has it.
#[derive(Clone, Copy)]
struct Slot {
    tag: u32,
    place: u32,
}

/// The payloads of a recording.
#[derive(Drop)]
pub struct Payloads<'a, S> {
    hasher: S,
    recording: Recording<'a>,
    slots: Vec<Slot>,
}

/// What became of a payload that was to be kept.
#[derive(Clone, Copy)]
pub enum Kept {
    /// It is new.
    New,
    /// The frame at this place has it too.
    Known(u32),
    /// There was no room for it.
    Crowded,
}

impl<'a, S: BuildHasher + Copy> Payloads<'a, S> {
    /// No payload is kept yet of a recording with this number of frames.
    pub fn new(
        alloc: Global,
        hasher: S,
        recording: Recording<'a>,
        frames: usize,
    ) -> Result<Payloads<'a, S>, AllocError> {
        let empty = Slot {
            tag: 0,
            place: NO_FRAME,
        };
        let room = room_for(frames);
        Ok(Payloads {
            hasher,
            recording,
            slots: vec![in alloc; empty; room]?,
        })
    }

    /// Keeps the payload of the frame at a place.
    pub fn keep(&mut self, place: u32) -> Kept {
        let payload = self.recording.payload(place);
        let hash = self.hash_of(&payload);
        let Some(at) = self.find_slot(&payload, hash) else {
            return Kept::Crowded;
        };
        let Some(slot) = self.slots.get_mut(at) else {
            return Kept::Crowded;
        };
        if slot.place != NO_FRAME {
            return Kept::Known(slot.place);
        }
        *slot = Slot {
            tag: tag_of(hash),
            place,
        };
        Kept::New
    }

    /// The place of the frame that has this payload first.
    pub fn place_of(&self, payload: &Payload<'_>) -> Option<u32> {
        let at = self.find_slot(payload, self.hash_of(payload))?;
        let slot = self.slots.get(at)?;
        if slot.place == NO_FRAME {
            None
        } else {
            Some(slot.place)
        }
    }

    // The slot of a payload, or the one where it can be kept.
    fn find_slot(&self, payload: &Payload<'_>, hash: u64) -> Option<usize> {
        let tag = tag_of(hash);
        let mask = self.slots.len().wrapping_sub(1);
        for behind in 0..TRIED {
            let at = (hash as usize).wrapping_add(behind) & mask;
            let slot = self.slots.get(at)?;
            if slot.place == NO_FRAME || slot.tag == tag && self.has(slot.place, payload) {
                return Some(at);
            }
        }
        None
    }

    /// Whether the frame at a place has this payload.
    pub fn has(&self, place: u32, payload: &Payload<'_>) -> bool {
        let own = self.recording.payload(place);
        own.vc == payload.vc && own.octets == payload.octets
    }

    // The hash of a payload.
    fn hash_of(&self, payload: &Payload<'_>) -> u64 {
        let mut state = self.hasher.build_hasher();
        state.write_u8(payload.vc);
        state.write(payload.octets);
        state.finish()
    }
}

// How many slots serve these payloads: a power of two.
fn room_for(payloads: usize) -> usize {
    let wanted = payloads.saturating_add(payloads / 2);
    wanted.checked_next_power_of_two().unwrap_or(usize::MAX)
}

// The part of a hash that a slot keeps.
fn tag_of(hash: u64) -> u32 {
    u32::try_from(hash >> 32).unwrap_or(0)
}
