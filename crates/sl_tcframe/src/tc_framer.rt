//! TC frames from a recording that comes in chunks.
ghost use Rattle.std.specs.Prelude.{◌≡◌, ◌↔◌, IsTrue, ◌-◌, ◌≤◌, ◌<◌, ◌++◌, nat_lt, true, false};
ghost use Rattle.std.specs.Prelude.{length, take, drop, Some, None, IfSome, IfNone, if◌then◌else◌};
ghost use Rattle.std.specs.Borrow.{sem};
ghost use Rattle.std.specs.Io.BufRead.{Rests};
ghost use Rattle.sl_tcframe.specs.TcFrame.{is_cut, stated_frame_len};
ghost use Rattle.sl_tcframe.specs.TcFraming.{BelowLeast, IsRest, IsSplit, TakesUpToFrame};
ghost use Rattle.sl_tcframe.specs.TcFraming.{frame_front, len_by_four};

use crate::tc_shape::TcShape;
use arrayvec::ArrayVec;
use sl_fields::TcHeader;
use std::marker::Model;

/// Takes the octets of a recording in chunks, and returns each TC transfer frame (CCSDS 232.0-B)
/// that the octets complete. The framer holds at most 1024 octets, the longest frame, and allocates
/// no memory.
#[derive(Drop)]
pub struct TcFramer {
    shape: TcShape,
    // Whether `buffer` is a frame that was returned already. Then the next call of `next` clears
    // it; `next_from` may return frames of a chunk meanwhile.
    is_lent: bool,
    // The octets that were taken after the last frame, or where `is_lent` is set, the octets of the
    // frame that was returned from here.
    buffer: ArrayVec<u8, 1024>,
}

impl Model for TcFramer {
    ghost use Rattle.sl_tcframe.specs.TcFraming.{TcFraming, framing_of, IsTcFramer};

    ghost Value = { TcFraming };

    ghost view = { framing_of };

    ghost invariant = { IsTcFramer };
}

impl TcFramer {
    ghost use Rattle.sl_tcframe.specs.TcFraming.{IsStuck, HasTakenTc, StaysStuck, at_start};
    ghost use Rattle.sl_tcframe.specs.TcFraming.{YieldsFrame, YieldsNone};
    ghost use Rattle.sl_tcframe.specs.contracts.tc_framer.TcFramer.{the_row};

    /// A framer for frames of this format. No octet is taken yet.
    pub fn new(shape: &TcShape) -> TcFramer
        ensures { result ≡ at_start shape.now }
    {
        TcFramer {
            shape: *shape,
            is_lent: false,
            buffer: ArrayVec::new(),
        }
    }

    /// The octets that were taken after the last frame. There are fewer than a frame needs, or
    /// exactly four that state a length below [`TcShape::least`]. When a recording has ended, its
    /// remainder is these octets and then those that weren't taken.
    pub fn rest(&self) -> &[u8]
        ensures octets { result.now ≡ self.now.rest }
        ensures part { IsRest self.now.format result.now }
    {
        if self.is_lent {
            return &[];
        }
        self.buffer.as_slice()
    }

    /// Whether the octets in [`rest`](TcFramer::rest) state a length below [`TcShape::least`]. A
    /// framer that is stuck takes no more octets and returns no more frames. By this project's
    /// choice such a length ends a recording's frames, and no frame is searched for after it.
    pub fn stuck(&self) -> bool
        ensures { IsTrue result ↔ IsStuck self.now }
    {
        match len_if_stated(self.rest()) {
            Some(len) => len < usize::from(self.shape.least()),
            None => false,
        }
    }

    /// Takes octets from the front of `chunk`, which is a chunk of the recording or what is left of
    /// one, and returns the frame that they complete together with the octets that were taken
    /// before. `chunk` then holds the octets after the frame. The frame is one by its frame length
    /// field, and may be longer than [`TcShape::max`].
    ///
    /// `None` comes in two cases:
    ///
    /// - `chunk` is used up before a frame is complete.
    /// - The first four octets after the last frame state a length below [`TcShape::least`].
    ///   `chunk` then holds the octets after these four, and the framer takes no octet in any later
    ///   call.
    pub fn next(&mut self, chunk: &mut &[u8]) -> Option<&[u8]>
        // The state of the framer once the returned frame is no longer borrowed: `Rests R s P`, of
        // std's `specs/Io/BufRead.antt`, says that P holds then of what `s` points to.
        ensures* taken { sem 𝓛 (Rests the_row self.entry
            (HasTakenTc self.old chunk.old.now result)) }

        // A frame has the octets that were taken after the last frame, and then octets from the
        // front of the chunk.
        ensures frame { IfSome result (λ frame.
            YieldsFrame self.old chunk.old.now frame.now chunk.new.now) }
        ensures cut { IfSome result (λ frame. is_cut self.old.format frame.now ≡ true) }

        // `None` means that no frame is whole. What is left of the chunk is nothing, or what comes
        // after four octets that state a length below the least.
        ensures none { IfNone result (YieldsNone self.old chunk.old.now chunk.new.now) }

        // A framer that is stuck takes no octet and returns no frame. `cut` and `stuck`, and also
        // `stuck` of `HasTakenTc`, follow from the other clauses, from those of `rest` and from the
        // law `tc_fronts_tell_frames`; they spare callers a proof.
        ensures stuck { StaysStuck self.old chunk.old.now result chunk.new.now }
    {
        if self.is_lent {
            self.buffer.clear();
            self.is_lent = false;
        }
        if !complete(&self.shape, &mut self.buffer, chunk) {
            return None;
        }
        self.is_lent = true;
        Some(self.buffer.as_slice())
    }

    /// As [`next`](TcFramer::next), with the same clauses, for a chunk that outlives the frame.
    ///
    /// No clause says where the octets of a frame lie. As the code is written, a frame that lies
    /// whole in the chunk is returned as a slice of it, and only one that lies in several chunks is
    /// copied.
    #[inline]
    pub fn next_from<'a, 'p: 'a>(&'a mut self, chunk: &mut &'p [u8]) -> Option<&'a [u8]>
        ensures* taken { sem 𝓛 (Rests the_row self.entry
            (HasTakenTc self.old chunk.old.now result)) }
        ensures frame { IfSome result (λ frame.
            YieldsFrame self.old chunk.old.now frame.now chunk.new.now) }
        ensures cut { IfSome result (λ frame. is_cut self.old.format frame.now ≡ true) }
        ensures none { IfNone result (YieldsNone self.old chunk.old.now chunk.new.now) }
        ensures stuck { StaysStuck self.old chunk.old.now result chunk.new.now }
    {
        if self.rest().is_empty() {
            if let Some((frame, later)) = split_frame(&self.shape, *chunk) {
                *chunk = later;
                return Some(frame);
            }
        }
        // `next` is lent a copy of the caller's reference to the octets. So the caller's own
        // reference may stay in a register.
        let mut octets: &'p [u8] = *chunk;
        let frame = self.next(&mut octets);
        *chunk = octets;
        frame
    }
}

// The whole frame at the front of the octets and the octets after it. `None` where no frame is
// whole; no clause says so, since the caller then tries `next`, which is right in any case.
#[inline]
fn split_frame<'p>(shape: &TcShape, octets: &'p [u8]) -> Option<(&'p [u8], &'p [u8])>
    ensures { IfSome result (λ parts.
        IsSplit shape.now octets.now parts.0.now parts.1.now) }
{
    let len = len_if_stated(octets)?;
    if len < usize::from(shape.least()) || octets.len() < len {
        return None;
    }
    Some(octets.split_at(len))
}

// Takes octets from the front of the chunk until a frame is whole, the chunk is used up, or four
// octets state a length below the least. Answers whether a frame is whole.
fn complete(shape: &TcShape, taken: &mut ArrayVec<u8, 1024>, chunk: &mut &[u8]) -> bool
    requires { IsRest shape.now taken.old.items }
    // The octets that are taken, and those that are left of the chunk.
    ensures taken { TakesUpToFrame shape.now
        taken.old.items chunk.old.now result taken.new.items chunk.new.now }

    // Nothing is taken after a stated length below the least.
    ensures stuck { frame_front shape.now taken.old.items ≡ BelowLeast
        → (result ≡ false) × (taken.new.items ≡ taken.old.items) × (chunk.new.now ≡ chunk.old.now) }
{
    fill(taken, chunk, 4);
    let len = match len_if_stated(taken.as_slice()) {
        Some(len) => len,
        None => return false,
    };
    if len < usize::from(shape.least()) {
        return false;
    }
    fill(taken, chunk, len);
    is_whole(taken.as_slice(), len)
}

// Whether there are at least `len` octets, the length that the first four state. A function of its
// own for its proof: here `octets` is a parameter, so each octet is known to be below 256. So
// `stated_frame_len`, which reads five octets, equals `len`, which `len_if_stated` answered.
fn is_whole(octets: &[u8], len: usize) -> bool
    requires stated { len ≡ len_by_four octets.now }
    requires header { 5 ≤ len }
    ensures whole { result ≡ true
        → (len ≤ length octets.now) × (len ≡ stated_frame_len octets.now) }
    ensures part { result ≡ false → length octets.now < len }
{
    octets.len() >= len
}

// The length of the frame that begins here, as the first four octets state it. `None` where there
// are fewer than four octets.
fn len_if_stated(octets: &[u8]) -> Option<usize>
    ensures value { result
        ≡ (if nat_lt (length octets.now) 4 then None else Some (len_by_four octets.now)) }
    ensures most { IfSome result (λ len. len ≤ 1024) }
{
    let &[first, second, third, fourth] = octets.first_chunk::<4>()?;
    let header = TcHeader::read(&[first, second, third, fourth, 0]);
    Some(usize::from(header.length()) + 1)
}

// Takes octets from the front of the chunk until `taken` has `count` octets, or the chunk is used
// up. Takes none where `taken` has more already. Room is never refused, as `count` is at most 1024.
fn fill(taken: &mut ArrayVec<u8, 1024>, chunk: &mut &[u8], count: usize)
    requires { count ≤ 1024 }
    ensures taken { taken.new.items
        ≡ taken.old.items ++ take (count - length taken.old.items) chunk.old.now }
    ensures left { chunk.new.now ≡ drop (count - length taken.old.items) chunk.old.now }
{
    let wanted = count.saturating_sub(taken.len()).min(chunk.len());
    let (front, behind) = chunk.split_at(wanted);
    let _ = taken.try_extend_from_slice(front);
    *chunk = behind;
}
