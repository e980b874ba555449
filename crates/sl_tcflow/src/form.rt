//! The normal form of delivered packets, piece by piece.
ghost use Rattle.std.specs.Prelude.{◌≡◌, ◌≢◌, ℕ, ◌+◌, ◌^◌, ◌<◌, ◌≤◌, ◌++◌, true, List, [], length};
ghost use Rattle.std.specs.Prelude.{map, vec_len, IsTrue, IsFalse, IfSome, IfNone, IfOk, IsOk, OnOk};
ghost use Rattle.std.specs.Prelude.{OnErr};
ghost use Rattle.std.specs.List.{AllByRecursion, slice_index_or};
ghost use Rattle.std.specs.Vec.{vec_capacity, vec_items};
ghost use Rattle.sl_packet.specs.Delivered.{IsDeliverable, channel_count};
ghost use Rattle.sl_tcframe.specs.AdFrame.{plain_room_of};
ghost use Rattle.sl_tcframe.specs.TcFrame.{TcFormat};
ghost use Rattle.sl_tcflow.specs.Fits.{FitsTc};
ghost use Rattle.sl_tcflow.specs.Form.{IsPlace, form_left, ns_after, piece_of, AddsPieceTc};
ghost use Rattle.sl_tcflow.specs.Form.{piece_room};
ghost use Rattle.sl_tcflow.specs.FormDelivery.{AreDeliverable};
ghost use Rattle.sl_tcflow.specs.Recording.{tc_lists};
ghost use Rattle.sl_tcflow.specs.TcNormalForm.{tc_normal_form_of};

use crate::frames::{Heading, push_packet};
use crate::segment::CHANNELS;
use sl_cop::Starts;
use sl_packet::Delivered;
use sl_tcframe::{TcShape, VcSet, push_tc_plain};
use std::alloc::AllocError;
use std::marker::Model;

/// Octets enough for any piece of a [`TcForm`]: 2 * 65,542 + 7. A packet has at most 65,542 octets.
/// Each of its frames adds at most 8 octets of its own: a header of 5, a segment header and an
/// error control field. The greatest length of a frame is at least 16, so each of its frames but
/// the last carries at least 8 octets of the packet, and the last at least 1. So a piece has at
/// most 7 octets more than twice the packet.
pub const PIECE_ROOM: usize = 131_091;

/// The normal form of delivered packets, made piece by piece: frames of CCSDS 232.0-B of type AD in
/// this project's own order (docs/normal-form.md). In clauses the form is the list of its octets
/// that are still to come.
///
/// A piece is the next octets of the form, 1 to [`PIECE_ROOM`]. In the code each piece is the
/// frames of one packet, and definitions for the proof say so; no clause of a public call does.
#[derive(Drop)]
pub struct TcForm<'d> {
    shape: TcShape,
    spacecraft: u16,
    starts: Starts,
    plain: VcSet,
    delivered: &'d Delivered,
    place: Place,
    // The packets of the place's channel.
    packets: &'d [Vec<u8>],
}

// The place of the next packet: its channel, or 4096 where no packet is left; how many packets of
// this channel come before it; and the N(S) of its first frame.
#[derive(Clone, Copy)]
struct Place {
    framed: usize,
    channel: u16,
    ns: u8,
}

impl<'d> Model for TcForm<'d> {
    ghost use Rattle.std.specs.Prelude.{ℕ, List};

    ghost Value = { List ℕ };

    ghost use Rattle.sl_tcflow.specs.FormModel.{octets_to_come, IsTcForm};

    ghost view = { octets_to_come };

    ghost invariant = { IsTcForm };
}

impl<'d> TcForm<'d> {
    /// The form of the packets of `delivered`, where those of virtual channel `v` and MAP `m` are
    /// on channel `64 * v + m`. All octets of the form are still to come. The call takes no memory.
    ///
    /// - `spacecraft` is 0 to 1023.
    /// - `starts` has the initial V(R) of each virtual channel, which is the N(S) of the virtual
    ///   channel's first frame.
    /// - `plain` has the virtual channels whose frames have no segment headers.
    /// - `delivered` has packets that frames can carry, as [`fits_tc`](crate::fits_tc) tests.
    ///
    /// Read as a recording, with these `starts` and this `plain`, the form delivers exactly these
    /// packets again, for every window of FARM-1.
    pub fn new(
        shape: TcShape,
        spacecraft: u16,
        starts: Starts,
        plain: VcSet,
        delivered: &'d Delivered,
    ) -> TcForm<'d>
        requires spacecraft { spacecraft ≤ 1023 }
        requires fits { FitsTc shape plain delivered.now.lists }
        // The whole normal form is still to come.
        ensures all { result ≡ tc_normal_form_of shape spacecraft starts plain delivered.now.lists }

        // Read as a recording with these `starts` and this `plain`, the form delivers the packets
        // again, for every window.
        ensures delivers { (w : ℕ) →
            tc_lists shape spacecraft (record { window = w; starts = starts; plain = plain }) result
            ≡ delivered.now.lists }

        // There is a list of packets for each channel. This is about the argument: it holds of
        // every store, and callers want it beside the form.
        ensures size { length delivered.now.lists ≡ channel_count }
    {
        let max = shape.max();
        // A hint to the prover: the range of the greatest length of a frame.
        prove!(16 <= max && max <= 1024);
        let start = Place {
            channel: 0,
            framed: 0,
            ns: starts.start(0),
        };
        let place = next_place(delivered, &starts, start);
        TcForm {
            shape,
            spacecraft,
            starts,
            plain,
            delivered,
            place,
            packets: delivered.list(place.channel),
        }
    }

    /// Adds the next piece to the end of `form`, and answers whether there was one. A piece has 1
    /// to [`PIECE_ROOM`] octets. `false` means that all pieces were made, and `form` is as it was.
    ///
    /// Memory is refused only where a piece is left and the capacity of `form` has no room for
    /// [`PIECE_ROOM`] octets more. The piece is then still to come, and the octets of `form` are as
    /// they were.
    pub fn next(&mut self, form: &mut Vec<u8>) -> Result<bool, AllocError>
        // The piece is the front of the octets that were still to come, and the octets after it are
        // still to come. `false` means that no octet was still to come.
        ensures piece { IfOk result (λ some. IsTrue some
            → AddsPieceTc self.old form.old.items self.new form.new.items) }
        ensures end { IfOk result (λ some. IsFalse some
            → (self.old ≡ []) × (self.new ≡ []) × (form.new.items ≡ form.old.items)) }

        // Where memory is refused, a piece is still to come, the same octets are still to come, and
        // nothing was added.
        ensures pieces { OnErr result (self.old ≢ []) }
        ensures unchanged { OnErr result
            ((self.new ≡ self.old) × (form.new.items ≡ form.old.items)) }

        // Memory is refused only where there is no room for a piece. The capacity never shrinks.
        ensures capacity { vec_capacity form.old ≤ vec_capacity form.new }
        ensures full { OnErr result (vec_capacity form.old < vec_len form.old + piece_room) }
        ensures succeeds { vec_len form.old + piece_room ≤ vec_capacity form.old → IsOk result }
    {
        let place = self.place;
        let packet = match placed_packet(self.packets, place.framed) {
            Some(packet) => packet,
            None => return Ok(false),
        };
        let plain = self.plain.has((place.channel / 64) as u8);
        let heading = Heading {
            spacecraft: self.spacecraft,
            channel: place.channel,
            plain,
            ns: place.ns,
        };
        let shape = self.shape;
        let ns = push_piece(form, &shape, heading, packet)?;
        let framed = place.framed + 1;
        if framed < self.packets.len() {
            self.place.framed = framed;
            self.place.ns = ns;
            return Ok(true);
        }
        let from = Place {
            framed,
            channel: place.channel,
            ns,
        };
        let place = next_place(self.delivered, &self.starts, from);
        self.place = place;
        self.packets = self.delivered.list(place.channel);
        Ok(true)
    }
}

// The packet at a place in a list. `None` where no packet is there.
fn placed_packet(packets: &[Vec<u8>], framed: usize) -> Option<&[u8]>
    // The packet is the one with the index `framed`.
    ensures some { IfSome result (λ packet.
        packet.now ≡ slice_index_or (map vec_items packets.now) framed []) }
    ensures inside { IfSome result (λ packet. framed < length packets.now) }
    ensures none { IfNone result (length packets.now ≤ framed) }

    // Where the packets are ones that may be delivered, it is one. The place after it is in range.
    ensures deliverable { AllByRecursion IsDeliverable (map vec_items packets.now)
        → IfSome result (λ packet. IsDeliverable packet.now) }
    ensures counted { IfSome result (λ packet. framed + 1 < 2 ^ 64) }
{
    let packet = packets.get(framed)?;
    Some(packet.as_slice())
}

// Adds the frames of a packet to the end of `form`, and answers the N(S) of the frame after them.
fn push_piece(
    form: &mut Vec<u8>,
    shape: &TcShape,
    heading: Heading,
    packet: &[u8],
) -> Result<u8, AllocError>
    requires spacecraft { heading.spacecraft ≤ 1023 }
    requires channel { heading.channel < channel_count }
    requires deliverable { IsDeliverable packet.now }
    requires short { heading.plain ≡ true → length packet.now ≤ plain_room_of shape.now }
    // The frames are the piece of the packet, of one octet or more. N(S) rises by one with each
    // frame, modulo 256.
    ensures frames { OnOk result (form.new.items ≡ form.old.items ++ piece_of
        shape.now heading.spacecraft heading.plain heading.channel heading.ns packet.now) }
    ensures next { IfOk result (λ next. next
        ≡ ns_after shape.now heading.plain heading.channel heading.ns packet.now) }
    ensures some { 0 < length (piece_of
        shape.now heading.spacecraft heading.plain heading.channel heading.ns packet.now) }
    ensures most { OnOk result (vec_len form.new ≤ vec_len form.old + piece_room) }

    // Memory is refused only where there is no room for a piece, and then nothing is added. The
    // capacity never shrinks.
    ensures unchanged { OnErr result (form.new.items ≡ form.old.items) }
    ensures capacity { vec_capacity form.old ≤ vec_capacity form.new }
    ensures full { OnErr result (vec_capacity form.old < vec_len form.old + piece_room) }
{
    let start = form.len();
    if heading.plain {
        let vc = (heading.channel / 64) as u8;
        // Where this one frame is refused, nothing was added (`unchanged` of `push_tc_plain`).
        push_tc_plain(form, shape, heading.spacecraft, vc, heading.ns, packet)?;
        return Ok(heading.ns.wrapping_add(1));
    }
    match push_packet(form, shape, heading, packet) {
        Ok(next) => Ok(next),
        Err(fault) => {
            form.truncate(start);
            Err(fault)
        }
    }
}

// The place of the first packet that is at the place `from` or after it. Channel 4096 where no
// packet is left. N(S) goes on within a virtual channel. On a later virtual channel N(S) begins
// with the initial V(R) of that virtual channel.
fn next_place(delivered: &Delivered, starts: &Starts, from: Place) -> Place
    requires channel { from.channel < channel_count }
    // The octets that are still to come are the same from either place.
    ensures left { (format : TcFormat) (spacecraft : ℕ) (plain_vcs : List ℕ)
        → form_left format spacecraft starts.now plain_vcs delivered.now.lists
        from.channel from.framed from.ns
        ≡ form_left format spacecraft starts.now plain_vcs delivered.now.lists
        result.channel result.framed result.ns }

    // The answer is the place of a packet, or the place after all packets. The lists have only
    // packets that may be delivered.
    ensures place { IsPlace delivered.now result.channel result.framed }
    ensures deliverable { AreDeliverable delivered.now.lists }
{
    if from.framed < delivered.list(from.channel).len() {
        return from;
    }
    match delivered.at_or_above(from.channel + 1) {
        Some(channel) => {
            let vc = channel / 64;
            let goes_on = vc == from.channel / 64;
            Place {
                channel,
                framed: 0,
                ns: if goes_on {
                    from.ns
                } else {
                    starts.start(vc as u8)
                },
            }
        }
        None => Place {
            channel: CHANNELS,
            framed: 0,
            ns: from.ns,
        },
    }
}
