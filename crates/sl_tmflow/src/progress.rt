//! What the next frame of packets does to an incomplete packet, and which first header pointer
//! agrees with that packet. In clauses this is a `Continuation`.
ghost use Rattle.std.specs.Prelude.{◌≡◌, ◌≤◌, ◌<◌, ◌+◌, ◌^◌, ◌++◌, ℕ, List, length, take, IfOk, OnErr};
ghost use Rattle.sl_packet.specs.Front.{front_of};
ghost use Rattle.sl_packet.specs.Partial.{LacksOctets, need_of};
ghost use Rattle.sl_tmframe.specs.TmFrame.{Packets, longest_field};
ghost use Rattle.sl_tmflow.specs.Delivery.{agreeing_pointer, field_continuation, front_continuation};
ghost use Rattle.sl_tmflow.specs.Progress.{CanGoOn, IsEnough, progress_continuation};

use crate::packet_octets::PacketOctets;
use sl_packet::laws::needs_tell_packets;
use sl_packet::{Need, add_part, need};
use std::alloc::AllocError;

/// What a frame of packets does to an incomplete packet.
#[derive(Clone, Copy)]
pub enum Progress {
    /// The packet ends in the frame, and has this number of octets in all.
    Ends(usize),
    /// The packet goes on past the frame.
    Continues,
    /// The packet is broken off.
    Breaks,
}

/// Adds the first octets of a data field to the octets `held` of an incomplete packet, as many as
/// the packet needs, or the whole field where the packet's length isn't known yet. Answers what the
/// frame with this field does to the packet. Where memory is refused, no octets are added.
#[inline(always)]
pub fn add_field(held: &mut Vec<u8>, field: &PacketOctets) -> Result<Progress, AllocError>
    requires held { CanGoOn held.old.items }
    requires short { length field.now.octets.now ≤ longest_field }
    // The answer is what the whole field does to the packet. A packet that ends is held whole.
    ensures continuation { IfOk result (λ progress. progress_continuation progress held.new.items
        ≡ field_continuation held.old.items (Packets field.now.first field.now.octets.now)) }
    ensures inside { IfOk result (λ progress.
        (len : ℕ) → progress ≡ Progress.Ends len → len ≤ length held.new.items) }

    // Where the packet goes on, the whole field was added. The octets that were held before stay in
    // any case.
    ensures all { IfOk result (λ progress.
        progress ≡ Progress.Continues → held.new.items ≡ held.old.items ++ field.now.octets.now) }
    ensures goes_on { IfOk result (λ progress.
        progress ≡ Progress.Continues → CanGoOn held.new.items) }
    ensures before { IfOk result (λ _.
        take (length held.old.items) held.new.items ≡ held.old.items) }
    ensures unchanged { OnErr result (held.new.items ≡ held.old.items) }
{
    let before = held.len();
    let octets = field.octets;
    let part = needed_part(held.as_slice(), octets);
    add_part(held, part)?;
    Ok(progress_in(held.as_slice(), before, field))
}

// The first octets of a data field, as many as the incomplete packet needs. These are all octets of
// the field where the packet needs more, or where its length isn't known yet.
fn needed_part<'a>(held: &[u8], field: &'a [u8]) -> &'a [u8]
    requires held { CanGoOn held.now }
    requires short { length field.now ≤ longest_field }
    ensures { IsEnough held.now field.now result.now }
{
    // For the proof alone, at no cost: the law that ties the `Need` of octets to their front.
    needs_tell_packets();
    match need(held) {
        Need::Octets(needed) if needed as usize <= field.len() => &field[..needed as usize],
        _ => field,
    }
}

// Whether the incomplete packet ends in the frame with this field, goes on past the frame or is
// broken off. `octets` are the octets from earlier frames, `before` of them, and then as many of
// the field's as are enough (`IsEnough`): the answer is the same as for the whole field.
fn progress_in(octets: &[u8], before: usize, field: &PacketOctets) -> Progress
    requires { before + length field.now.octets.now < 2 ^ 64 }
    ensures continuation { progress_continuation result octets.now ≡ front_continuation
        field.now.first before field.now.octets.now octets.now (front_of octets.now) }
    ensures inside { (len : ℕ) → result ≡ Progress.Ends len → len ≤ length octets.now }
    ensures goes_on { result ≡ Progress.Continues → CanGoOn octets.now }
{
    progress_of(need(octets), before, field)
}

/// What the frame with this data field does to an incomplete packet. `need` is what its octets
/// need: `before` octets from earlier frames, and then those of the field.
#[inline(always)]
pub fn progress_of(need: Need, before: usize, field: &PacketOctets) -> Progress
    requires { before + length field.now.octets.now < 2 ^ 64 }
    ensures continuation { (octets : List ℕ) → need ≡ need_of octets
        → progress_continuation result octets ≡ front_continuation
        field.now.first before field.now.octets.now octets (front_of octets) }
    ensures whole { (len : ℕ) → result ≡ Progress.Ends len → need ≡ Need.Whole len }
    ensures short { result ≡ Progress.Continues → LacksOctets need }
{
    let pointer = field.first.map(usize::from);
    match need {
        Need::Whole(len) if pointer == agreeing_pointer(len as usize, before, field.octets) => {
            Progress::Ends(len as usize)
        }
        Need::Header(_) | Need::Octets(_) if pointer.is_none() => Progress::Continues,
        _ => Progress::Breaks,
    }
}

// The pointer that agrees with a packet of `len` octets, where `before` of them came before the
// data field: the offset at which the packet ends, and `None` where the packet covers the field to
// its end.
fn agreeing_pointer(len: usize, before: usize, field: &[u8]) -> Option<usize>
    requires { before + length field.now < 2 ^ 64 }
    ensures { result ≡ agreeing_pointer len before field.now }
{
    if len < before + field.len() {
        // `len` is at least `before`, since the packet was incomplete before the field. No `requires`
        // says so, as the outline of a packet's octets doesn't tell it.
        Some(len.saturating_sub(before))
    } else {
        None
    }
}
