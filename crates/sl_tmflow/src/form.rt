//! The normal form of delivered packets, made piece by piece.
ghost use Rattle.std.specs.Prelude.{◌≡◌, ◌≢◌, ◌+◌, ◌*◌, ◌<◌, ◌≤◌, ◌++◌, true, false};
ghost use Rattle.std.specs.Prelude.{[], ◌∷◌, None, Some, length};
ghost use Rattle.std.specs.Prelude.{map, take, IfOk, OnOk, OnErr, IfSome, IfNone, IsTrue, IsFalse};
ghost use Rattle.std.specs.List.{concat};
ghost use Rattle.std.specs.Vec.{vec_items, vec_len, vec_capacity};
ghost use Rattle.sl_fields.specs.Field.{octets_of};
ghost use Rattle.sl_packet.specs.Packet.{longest_packet};
ghost use Rattle.sl_tmframe.specs.PacketFrame.{field_room_of, frame_fields};
ghost use Rattle.sl_tmframe.specs.TmFrame.{longest_field};
ghost use Rattle.sl_tmflow.specs.Form.{AddsPiece, IsReserved, LacksRoom, piece_room};
ghost use Rattle.sl_tmflow.specs.Form.{octets_room, heading_after, filled_up, filled_frames, headed_frame};
ghost use Rattle.sl_tmflow.specs.Form.{frames_len, fields_in, beyond_fields};
ghost use Rattle.sl_tmflow.specs.NormalForm.{fill_of, filling, normal_form};
ghost use Rattle.sl_tmflow.specs.Recording.{tm_lists};

use crate::packet_octets::PacketOctets;
use sl_fields::{TmHeader, fecf_field};
use sl_packet::{Delivered, push_idle};
use sl_tmframe::{TmShape, push_tm};
use std::alloc::{AllocError, Global};
use std::marker::Model;

/// Room for any piece, in octets. The longest piece is 2731 frames of 32 octets with an error
/// control field, 87,392 octets in all. A packet of 65,542 octets fills their data fields of 24
/// octets, together with up to 23 octets before it. Rounded up to whole 4096 octets.
const PIECE_ROOM: usize = 90_112;

/// Room, in octets, for a data field that isn't full, 2041 octets at most, and for the idle packet
/// that fills the field up, 2048 octets at most. Rounded up likewise.
const OCTETS_ROOM: usize = 4096;

/// The normal form of delivered packets, made piece by piece: frames of CCSDS 132.0-B in this
/// project's own order (docs/normal-form.md). In clauses `left` is the list of its octets that are
/// still to come.
///
/// A piece is the next octets of the form, at least one; no clause says how many. As the code is
/// written, a piece is the frames that one packet completes, which may be the idle packet that
/// fills a virtual channel up.
#[derive(Drop)]
pub struct TmForm<'d> {
    shape: TmShape,
    delivered: &'d Delivered,
    // The header of the next frame. Its virtual channel is the one whose packets are taken now.
    heading: Heading,
    // The packets of this virtual channel that weren't taken.
    packets: &'d [Vec<u8>],
    // The octets at the end of the last taken packet that don't fill a data field: the front of the
    // next data field. The next packet starts after them.
    tail: &'d [u8],
    // Empty between pieces. The last octets of a virtual channel are filled up in it.
    octets: Vec<u8>,
}

// The values in the header of a frame, without the first header pointer.
#[derive(Clone, Copy)]
struct Heading {
    spacecraft: u16,
    vc: u8,
    // The master channel frame count, and the virtual channel frame count.
    mc_count: u8,
    vc_count: u8,
}

impl Heading {
    // The heading `frames` frames later: both counts have risen by that number, modulo 256.
    fn after(self, frames: usize) -> Heading
        ensures { result ≡ heading_after self frames }
    {
        let frames = (frames % 256) as u8;
        Heading {
            mc_count: self.mc_count.wrapping_add(frames),
            vc_count: self.vc_count.wrapping_add(frames),
            ..self
        }
    }
}

impl<'d> Model for TmForm<'d> {
    ghost use Rattle.sl_tmflow.specs.Form.{FormState};

    ghost Value = { FormState };

    ghost use Rattle.sl_tmflow.specs.FormModel.{form_state, IsTmForm};

    ghost view = { form_state };

    ghost invariant = { IsTmForm };
}

impl<'d> TmForm<'d> {
    /// The normal form of the packets on channels 0 to 7 of `delivered`, which are the virtual
    /// channels, in frames of this format. All octets of the form are still to come. `spacecraft`,
    /// the spacecraft identifier of all frames, is 0 to 1023. Packets on channels from 8 on are
    /// left out, as the clauses say: call [`fits_tm`](sl_packet::Delivered::fits_tm) first to be
    /// sure that none are lost. The `TmForm` holds no memory yet.
    pub fn new(
        alloc: Global,
        shape: &TmShape,
        spacecraft: u16,
        delivered: &'d Delivered,
    ) -> TmForm<'d>
        requires spacecraft { spacecraft ≤ 1023 }
        // All octets of the form of these packets are still to come.
        ensures left { result.left
            ≡ normal_form shape.now spacecraft (take 8 delivered.now.lists) }

        // Read as a recording, the form delivers these packets again.
        ensures delivers { tm_lists shape.now spacecraft
            (normal_form shape.now spacecraft (take 8 delivered.now.lists))
            ≡ take 8 delivered.now.lists }

        // No memory is held.
        ensures memory { result.capacity ≡ 0 }
    {
        // For the proof alone, at no cost: the range of the length of a frame.
        let _ = shape.len();
        TmForm {
            shape: *shape,
            delivered,
            heading: Heading {
                spacecraft,
                vc: 0,
                mc_count: 0,
                vc_count: 0,
            },
            packets: delivered.list(0),
            tail: &[],
            octets: Vec::new(alloc),
        }
    }

    /// Reserves memory for the next piece: 4096 octets in this `TmForm`, and 90,112 octets in the
    /// vector `form` beyond its length. Afterwards [`next`](TmForm::next) is refused no memory, as
    /// long as `form` has room for 90,112 octets more at each call.
    ///
    /// Memory is refused only where the `TmForm` or the vector lacked this room before. Nothing is
    /// added to `form` in any case, and the same octets of the normal form are still to come.
    pub fn reserve(&mut self, form: &mut Vec<u8>) -> Result<(), AllocError>
        // Afterwards this `TmForm` and the vector have room for a piece.
        ensures ready { OnOk result (IsReserved self.new) }
        ensures room { OnOk result (vec_len form.new + piece_room ≤ vec_capacity form.new) }

        // Nothing is added, and no memory is given back. Where both had room, no memory is refused.
        ensures left { self.new.left ≡ self.old.left }
        ensures form { form.new.items ≡ form.old.items }
        ensures keeps { self.old.capacity ≤ self.new.capacity }
        ensures capacity { vec_capacity form.old ≤ vec_capacity form.new }
        ensures full { OnErr result (LacksRoom self.old form.old) }
    {
        reserve_piece(&mut self.octets, form)
    }

    /// Adds the next piece to the end of `form`, and answers whether there was one. A piece has an
    /// octet at least. `false` means that the whole normal form was made before this call, and
    /// `form` is as it was.
    ///
    /// Memory is refused only where a piece is left, and only where it wasn't reserved with
    /// [`reserve`](TmForm::reserve). The piece is then still to come, and the octets of `form` are
    /// as they were.
    #[inline(always)]
    pub fn next(&mut self, form: &mut Vec<u8>) -> Result<bool, AllocError>
        // The piece is the front of the octets that were still to come, and the octets after it are
        // still to come. `false` means that no octet was still to come.
        ensures piece { IfOk result (λ some. IsTrue some
            → AddsPiece self.old.left form.old.items self.new.left form.new.items) }
        ensures end { IfOk result (λ some. IsFalse some
            → (self.old.left ≡ []) × (self.new.left ≡ []) × (form.new.items ≡ form.old.items)) }

        // Where memory is refused, which doesn't happen where it was reserved, a piece is still to
        // come, the same octets are still to come, and nothing was added.
        ensures full { OnErr result (LacksRoom self.old form.old) }
        ensures pieces { OnErr result (self.old.left ≢ []) }
        ensures unchanged { OnErr result
            ((self.new.left ≡ self.old.left) × (form.new.items ≡ form.old.items)) }

        // No memory is given back.
        ensures keeps { self.old.capacity ≤ self.new.capacity }
        ensures capacity { vec_capacity form.old ≤ vec_capacity form.new }
    {
        loop {
            // A copy, of which `form`, where octets are written, can hold no part.
            let shape = self.shape;
            let wanted = usize::from(shape.room()) - self.tail.len();
            if let Some(field) = next_field(self.packets, wanted) {
                form.reserve(PIECE_ROOM)?;
                let (frames, tail) = add_packets(form, &shape, self.heading, self.tail, &field)?;
                self.heading = self.heading.after(frames);
                self.packets = field.later;
                self.tail = tail;
                return Ok(true);
            } else if are_left(self.tail, self.packets) {
                let frames = add_last(
                    form,
                    &mut self.octets,
                    &shape,
                    self.heading,
                    self.tail,
                    self.packets,
                )?;
                self.heading = self.heading.after(frames);
                self.packets = &[];
                self.tail = &[];
                return Ok(true);
            } else if self.heading.vc < 7 {
                self.heading.vc += 1;
                self.heading.vc_count = 0;
                self.packets = self.delivered.list(u16::from(self.heading.vc));
            } else {
                return Ok(false);
            }
        }
    }
}

// Whether octets or packets are left.
fn are_left(tail: &[u8], packets: &[Vec<u8>]) -> bool
    ensures some { result ≡ true → 0 < length tail.now + length packets.now }
    ensures none { result ≡ false → length tail.now + length packets.now ≡ 0 }
{
    !tail.is_empty() || !packets.is_empty()
}

// The packets at the front of a list that fill a data field up.
#[derive(Clone, Copy)]
struct FieldPackets<'d> {
    // Those that lie in the field whole.
    inside: &'d [Vec<u8>],
    // The octets of the next packet that fill the field, and the other octets of this packet.
    head: &'d [u8],
    rest: &'d [u8],
    // The packets after it.
    later: &'d [Vec<u8>],
}

// The packets at the front of a list that have `wanted` octets or more together. `None` where all
// of them have fewer.
fn next_field(packets: &[Vec<u8>], wanted: usize) -> Option<FieldPackets<'_>>
    requires some { 0 < wanted }
    // The packets are divided.
    ensures packets { IfSome result (λ field. map vec_items packets.now
        ≡ map vec_items field.inside.now
        ++ ((field.head.now ++ field.rest.now) ∷ map vec_items field.later.now)) }
    ensures filled { IfSome result (λ field.
        length (concat (map vec_items field.inside.now)) + length field.head.now ≡ wanted) }
    ensures some { IfSome result (λ field. 0 < length field.head.now) }
    ensures none { IfNone result (length (concat (map vec_items packets.now)) < wanted) }
{
    let mut missing = wanted;
    let mut inside = 0;
    let mut left = packets;
    while let Some((packet, later)) = left.split_first() {
        if missing <= packet.len() {
            let (head, rest) = packet.as_slice().split_at(missing);
            return Some(FieldPackets {
                inside: packets.split_at(inside).0,
                head,
                rest,
                later,
            });
        }
        missing -= packet.len();
        inside += 1;
        left = later;
    }
    None
}

// Reserves memory for the next piece: for the last octets of a virtual channel, and for frames.
fn reserve_piece(octets: &mut Vec<u8>, form: &mut Vec<u8>) -> Result<(), AllocError>
    requires few { vec_len octets.old ≤ octets_room }
    ensures ready { OnOk result (octets_room ≤ vec_capacity octets.new) }
    ensures room { OnOk result (vec_len form.new + piece_room ≤ vec_capacity form.new) }
    ensures octets { octets.new.items ≡ octets.old.items }
    ensures form { form.new.items ≡ form.old.items }
    ensures keeps { vec_capacity octets.old ≤ vec_capacity octets.new }
    ensures capacity { vec_capacity form.old ≤ vec_capacity form.new }
    ensures full { OnErr result (octets_room ≤ vec_capacity octets.old
        → vec_capacity form.old < vec_len form.old + piece_room) }
{
    octets.reserve(OCTETS_ROOM - octets.len())?;
    form.reserve(PIECE_ROOM)
}

// Adds the frames that octets and then packets fill. Answers their number, and the octets beyond
// these frames. The first packet of the first frame starts after the `tail`, and no packet starts
// in the other frames.
#[inline(always)]
fn add_packets<'d>(
    form: &mut Vec<u8>,
    shape: &TmShape,
    heading: Heading,
    tail: &[u8],
    field: &FieldPackets<'d>,
) -> Result<(usize, &'d [u8]), AllocError>
    requires spacecraft { heading.spacecraft ≤ 1023 }
    requires vc { heading.vc ≤ 7 }
    requires whole { length ((tail.now ++ concat (map vec_items field.now.inside.now))
        ++ field.now.head.now) ≡ field_room_of shape.now }
    requires some { 0 < length field.now.head.now }
    requires short { length (field.now.head.now ++ field.now.rest.now) ≤ longest_packet }
    // The octets are divided into the data fields of frames, and those beyond these are answered.
    ensures frames { OnOk result (form.new.items ≡ form.old.items
        ++ filled_frames shape.now heading (Some (length tail.now))
        ((tail.now ++ concat (map vec_items field.now.inside.now))
        ++ (field.now.head.now ++ field.now.rest.now))) }
    ensures beyond { IfOk result (λ added. added.1.now ≡ beyond_fields shape.now
        ((tail.now ++ concat (map vec_items field.now.inside.now))
        ++ (field.now.head.now ++ field.now.rest.now))) }
    ensures count { IfOk result (λ added. added.0 ≡ fields_in shape.now
        ((tail.now ++ concat (map vec_items field.now.inside.now))
        ++ (field.now.head.now ++ field.now.rest.now))) }
    ensures some { IfOk result (λ added. 0 < added.0) }
    ensures few { IfOk result (λ added. length added.1.now < field_room_of shape.now) }

    // Memory is refused only where it wasn't reserved, and none is given back.
    ensures full { OnErr result (vec_capacity form.old < vec_len form.old + piece_room) }
    ensures capacity { vec_capacity form.old ≤ vec_capacity form.new }
{
    let FieldPackets {
        inside,
        head,
        rest,
        ..
    } = *field;
    // For the proof alone, at no cost: the range of the length of a data field.
    let _ = shape.room();
    push_first(form, shape, heading, tail, inside, head)?;
    // The later frames have octets of one packet alone.
    let later = PacketOctets {
        first: None,
        octets: rest,
    };
    let (frames, beyond) = push_fields(form, shape, heading.after(1), &later)?;
    Ok((frames + 1, beyond))
}

// Adds a frame whose data field is a tail of octets, packets, and the head of a packet. Its first
// packet starts after the tail.
#[inline(always)]
fn push_first(
    form: &mut Vec<u8>,
    shape: &TmShape,
    heading: Heading,
    tail: &[u8],
    inside: &[Vec<u8>],
    head: &[u8],
) -> Result<(), AllocError>
    requires spacecraft { heading.spacecraft ≤ 1023 }
    requires vc { heading.vc ≤ 7 }
    requires roomy { 0 < field_room_of shape.now }
    requires start { length tail.now < 2047 }
    requires whole { length ((tail.now ++ concat (map vec_items inside.now)) ++ head.now)
        ≡ field_room_of shape.now }
    ensures frame { OnOk result (form.new.items ≡ form.old.items
        ++ headed_frame shape.now heading (Some (length tail.now))
        ((tail.now ++ concat (map vec_items inside.now)) ++ head.now)) }

    // Memory is refused only where `form` had no room for the frame, and none is given back.
    ensures full { OnErr result (vec_capacity form.old < vec_len form.old + shape.now.len) }
    ensures capacity { vec_capacity form.old ≤ vec_capacity form.new }
{
    let begin = form.len();
    form.extend_from_slice(&frame_header(heading, tail.len() as u16))?;
    form.extend_from_slice(tail)?;
    push_all(form, inside)?;
    form.extend_from_slice(head)?;
    if !shape.fecf() {
        return Ok(());
    }
    let field = fecf_field(&form.as_slice()[begin..]);
    form.extend_from_slice(&field)?;
    Ok(())
}

// The primary header of a frame in which a packet starts, the first one at the offset `first`.
fn frame_header(heading: Heading, first: u16) -> [u8; 6]
    requires spacecraft { heading.spacecraft ≤ 1023 }
    requires vc { heading.vc ≤ 7 }
    requires first { first < 2047 }
    ensures { result ≡ octets_of 6 (frame_fields heading.spacecraft heading.vc heading.mc_count
        heading.vc_count (Some first)) }
{
    let Heading {
        spacecraft,
        vc,
        mc_count,
        vc_count,
    } = heading;
    TmHeader::of_packets(spacecraft, vc, mc_count, vc_count, first).write()
}

// Adds the octets of packets.
#[inline(always)]
fn push_all(out: &mut Vec<u8>, packets: &[Vec<u8>]) -> Result<(), AllocError>
    ensures added { OnOk result (out.new.items
        ≡ out.old.items ++ concat (map vec_items packets.now)) }
    ensures full { OnErr result (vec_capacity out.old
        < vec_len out.old + length (concat (map vec_items packets.now))) }
    ensures capacity { vec_capacity out.old ≤ vec_capacity out.new }
{
    let mut left = packets;
    while let Some((packet, later)) = left.split_first() {
        out.extend_from_slice(packet.as_slice())?;
        left = later;
    }
    Ok(())
}

// Fills the last octets of a virtual channel up by an idle packet, and adds the frames that they
// fill then. Answers the number of frames. The octets are the `tail` and those of the packets,
// which start after it.
fn add_last(
    form: &mut Vec<u8>,
    octets: &mut Vec<u8>,
    shape: &TmShape,
    heading: Heading,
    tail: &[u8],
    packets: &[Vec<u8>],
) -> Result<usize, AllocError>
    requires spacecraft { heading.spacecraft ≤ 1023 }
    requires vc { heading.vc ≤ 7 }
    requires empty { octets.old.items ≡ [] }
    requires few { length (tail.now ++ concat (map vec_items packets.now))
        < field_room_of shape.now }
    ensures frames { OnOk result (form.new.items ≡ form.old.items
        ++ filled_frames shape.now heading (Some (length tail.now))
        (filled_up shape.now (tail.now ++ concat (map vec_items packets.now)))) }
    ensures count { IfOk result (λ frames. frames ≡ fields_in shape.now
        (filled_up shape.now (tail.now ++ concat (map vec_items packets.now)))) }
    ensures empty { octets.new.items ≡ [] }

    // Memory is refused only where it wasn't reserved, and then nothing is added. None is given
    // back.
    ensures unchanged { OnErr result (form.new.items ≡ form.old.items) }
    ensures full { OnErr result (octets_room ≤ vec_capacity octets.old
        → vec_capacity form.old < vec_len form.old + piece_room) }
    ensures keeps { vec_capacity octets.old ≤ vec_capacity octets.new }
    ensures capacity { vec_capacity form.old ≤ vec_capacity form.new }
{
    let field_len = usize::from(shape.room());
    reserve_piece(octets, form)?;
    // With this memory reserved, adding isn't refused any.
    octets.extend_from_slice(tail)?;
    push_all(octets, packets)?;
    fill_up(octets, field_len)?;
    let whole = PacketOctets {
        first: Some(tail.len() as u16),
        octets: octets.as_slice(),
    };
    let (frames, _) = push_fields(form, shape, heading, &whole)?;
    octets.clear();
    Ok(frames)
}

// Adds the idle packet that fills the octets up to a multiple of `field_len`, if one is needed.
fn fill_up(octets: &mut Vec<u8>, field_len: usize) -> Result<(), AllocError>
    requires least { 24 ≤ field_len }
    requires most { field_len ≤ longest_field }
    // Where memory is refused, nothing is added, and there was no room for 2048 octets more. No
    // idle packet that is needed here is longer. No memory is given back.
    ensures octets { OnOk result (octets.new.items ≡ octets.old.items
        ++ concat (filling field_len (length octets.old.items))) }
    ensures unchanged { OnErr result (octets.new.items ≡ octets.old.items) }
    ensures full { OnErr result (vec_capacity octets.old < vec_len octets.old + 2048) }
    ensures capacity { vec_capacity octets.old ≤ vec_capacity octets.new }
{
    let fill = fill_len(field_len, octets.len());
    if fill == 0 {
        return Ok(());
    }
    push_idle(octets, fill as u32)
}

// The length of the shortest idle packet that fills `len` octets up to a multiple of `field_len`. 0
// where none is needed.
fn fill_len(field_len: usize, len: usize) -> usize
    requires least { 24 ≤ field_len }
    requires most { field_len ≤ longest_field }
    ensures value { result ≡ fill_of field_len len }
    ensures most { result ≤ 2048 }
{
    let missing = (field_len - len % field_len) % field_len;
    // An idle packet has 7 octets at least.
    if missing == 0 || missing >= 7 {
        return missing;
    }
    missing + field_len
}

// Adds a frame for each data field that the octets fill. Answers the number of frames, which takes
// no division here, and the octets beyond them, which are left out. The first packet start is that
// of the first frame, and no packet starts in the other frames. The first frame has this heading.
#[inline(always)]
fn push_fields<'a>(
    form: &mut Vec<u8>,
    shape: &TmShape,
    heading: Heading,
    packets: &PacketOctets<'a>,
) -> Result<(usize, &'a [u8]), AllocError>
    requires spacecraft { heading.spacecraft ≤ 1023 }
    requires vc { heading.vc ≤ 7 }
    requires first { IfSome packets.now.first (λ first. first < field_room_of shape.now) }
    // A frame is added for each data field that the octets fill.
    ensures frames { OnOk result (form.new.items ≡ form.old.items
        ++ filled_frames shape.now heading packets.now.first packets.now.octets.now) }
    ensures size { OnOk result (vec_len form.new
        ≡ vec_len form.old + frames_len shape.now packets.now.octets.now) }
    ensures count { IfOk result (λ added. added.0 ≡ fields_in shape.now packets.now.octets.now) }
    ensures most { IfOk result (λ added. added.0 ≤ length packets.now.octets.now) }
    ensures beyond { IfOk result (λ added. added.1.now
        ≡ beyond_fields shape.now packets.now.octets.now) }
    ensures few { IfOk result (λ added. length added.1.now < field_room_of shape.now) }

    // Memory is refused only where `form` had no room for these frames, and none is given back.
    ensures full { OnErr result (vec_capacity form.old
        < vec_len form.old + frames_len shape.now packets.now.octets.now) }
    ensures capacity { vec_capacity form.old ≤ vec_capacity form.new }
{
    let field_len = usize::from(shape.room());
    let mut heading = heading;
    let mut first = packets.first;
    let mut frames = 0;
    let mut left = packets.octets;
    while left.len() >= field_len {
        let (field, later) = left.split_at(field_len);
        let Heading {
            spacecraft,
            vc,
            mc_count,
            vc_count,
        } = heading;
        push_tm(
            form, shape, spacecraft, vc, mc_count, vc_count, first, field,
        )?;
        heading = heading.after(1);
        first = None;
        frames += 1;
        left = later;
    }
    Ok((frames, left))
}
