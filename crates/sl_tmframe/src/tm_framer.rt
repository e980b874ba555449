//! TM frames from a recording that comes in chunks.
ghost use Rattle.std.specs.Prelude.{◌≡◌, ◌+◌, ◌<◌, ◌≤◌, [], ◌++◌, length, take, IfSome, IfNone};
ghost use Rattle.std.specs.Borrow.{sem};
ghost use Rattle.std.specs.Io.BufRead.{Rests};

use crate::tm_shape::TmShape;
use arrayvec::ArrayVec;
use std::marker::Model;

/// Takes the octets of a recording in chunks, and returns each TM transfer frame (CCSDS 132.0-B)
/// that the octets complete. All frames have the managed length, and lie end to end from the
/// recording's first octet on. The framer keeps the octets of one frame at most, in an array of its
/// own, and takes no memory.
#[derive(Drop)]
pub struct TmFramer {
    // The length of a frame in octets, 32 to 2048.
    len: u16,
    // The number of octets that were taken after the last frame, fewer than a frame has.
    held: usize,
    // The octets that were taken after the last frame lie at the front. The array has 2048 octets
    // at all times: later octets overwrite earlier ones, and nothing is cleared between frames. A
    // plain array would do too. An `ArrayVec` is taken since `TcFramer` has one, of varying length.
    buffer: ArrayVec<u8, 2048>,
}

impl Model for TmFramer {
    ghost use Rattle.sl_tmframe.specs.TmFraming.{TmFraming, framing_of, IsTmFramer};

    ghost Value = { TmFraming };

    ghost view = { framing_of };

    ghost invariant = { IsTmFramer };
}

impl TmFramer {
    ghost use Rattle.sl_tmframe.specs.TmFraming.{HasTakenTm, UsesUpChunk, YieldsFrame, at_start};
    ghost use Rattle.sl_tmframe.specs.contracts.tm_framer.TmFramer.{the_row};

    /// A framer for frames of this format that has taken no octet yet.
    pub fn new(shape: &TmShape) -> TmFramer
        ensures { result ≡ at_start shape.now.len }
    {
        TmFramer {
            len: shape.len,
            held: 0,
            buffer: ArrayVec::from([0; 2048]),
        }
    }

    /// The octets that were taken after the last frame, fewer than a frame has. At the end of a
    /// recording they are its remainder.
    pub fn rest(&self) -> &[u8]
        ensures octets { result.now ≡ self.now.rest }
        ensures short { length result.now < self.now.len }
    {
        &self.buffer.as_slice()[..self.held]
    }

    /// Takes octets from the front of `chunk`, which is a chunk of the recording or what is left of
    /// one, and returns the frame that they complete together with the octets that were taken
    /// before. `chunk` is left with the octets after the frame.
    ///
    /// `None` comes exactly where `chunk` is used up before a frame is complete. All its octets are
    /// then taken, and it is left empty.
    pub fn next(&mut self, chunk: &mut &[u8]) -> Option<&[u8]>
        // The state once the returned frame isn't borrowed any more: no octet is held after a
        // frame. Without a frame the chunk was added to the octets that were held. `Rests R s P`,
        // of std's `specs/Io/BufRead.antt`, says that P holds then of what `s` points to.
        ensures* taken { sem 𝓛 (Rests the_row self.entry
            (HasTakenTm self.old chunk.old.now result)) }

        // A frame has the octets that were taken after the last frame, and then octets from the
        // front of the chunk. The other octets of the chunk are left.
        ensures frame { IfSome result (λ frame.
            YieldsFrame self.old chunk.old.now frame.now chunk.new.now) }

        // Without a frame the chunk was used up first.
        ensures used_up { IfNone result (UsesUpChunk self.old chunk.old.now chunk.new.now) }
    {
        let wanted = usize::from(self.len) - self.held;
        if chunk.len() < wanted {
            write_at(self.buffer.as_mut_slice(), self.held, chunk);
            self.held += chunk.len();
            *chunk = &[];
            return None;
        }
        let (front, behind) = chunk.split_at(wanted);
        write_at(self.buffer.as_mut_slice(), self.held, front);
        *chunk = behind;
        self.held = 0;
        Some(&self.buffer.as_slice()[..usize::from(self.len)])
    }

    /// As [`next`](TmFramer::next), with the same clauses, for a chunk that outlives the frame.
    ///
    /// No clause says where the octets of a frame lie. As the code is written, a frame that lies
    /// whole in the chunk is returned as a slice of it, and only one that lies in several chunks is
    /// copied. The program calls this one; docs/DECISIONS.md says why both are public.
    #[inline]
    pub fn next_from<'a, 'p: 'a>(&'a mut self, chunk: &mut &'p [u8]) -> Option<&'a [u8]>
        ensures* taken { sem 𝓛 (Rests the_row self.entry
            (HasTakenTm self.old chunk.old.now result)) }
        ensures frame { IfSome result (λ frame.
            YieldsFrame self.old chunk.old.now frame.now chunk.new.now) }
        ensures used_up { IfNone result (UsesUpChunk self.old chunk.old.now chunk.new.now) }
    {
        let mut octets: &'p [u8] = *chunk;
        let is_between_frames = self.held == 0;
        if is_between_frames {
            if let Some((frame, later)) = octets.split_at_checked(usize::from(self.len)) {
                *chunk = later;
                return Some(frame);
            }
        }
        // `next` is lent a copy of the caller's reference to the octets. So the caller's own
        // reference may stay in a register.
        let frame = self.next(&mut octets);
        *chunk = octets;
        frame
    }
}

// Writes these octets over those of `array` from this offset on. The octets before the offset stay,
// and so does the length of `array`.
fn write_at(array: &mut [u8], offset: usize, octets: &[u8])
    requires { offset + length octets.now ≤ length array.old }
    ensures front { take (offset + length octets.now) array.new
        ≡ take offset array.old ++ octets.now }
    ensures len { length array.new ≡ length array.old }
{
    array[offset..offset + octets.len()].copy_from_slice(octets);
}
