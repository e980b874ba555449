//! The frames of one packet in the normal form.
ghost use Rattle.std.specs.Prelude.{◌≡◌, ◌+◌, ◌*◌, ◌<◌, ◌≤◌, ◌++◌, false, length, take, drop};
ghost use Rattle.std.specs.Prelude.{vec_len, IfOk, OnOk, OnErr};
ghost use Rattle.std.specs.Vec.{vec_capacity};
ghost use Rattle.sl_packet.specs.Delivered.{channel_count};
ghost use Rattle.sl_tcframe.specs.AdFrame.{segment_room_of};
ghost use Rattle.sl_tcflow.specs.Form.{ns_after, piece_of};

use sl_fields::SegmentHeader;
use sl_tcframe::{TcShape, push_tc};
use std::alloc::AllocError;

/// What the headers of a packet's frames have in common, and the N(S) of the first frame.
#[derive(Clone, Copy)]
pub struct Heading {
    /// The spacecraft identifier, 0 to 1023.
    pub spacecraft: u16,
    /// The channel of the packet, 0 to 4095: 64 times its virtual channel plus its MAP.
    pub channel: u16,
    /// Whether the frames of the virtual channel have no segment headers.
    pub plain: bool,
    /// The N(S) of the first frame, 0 to 255.
    pub ns: u8,
}

// Adds the frames of a packet on a virtual channel with segment headers to the end of `form`.
// Answers the N(S) of the frame after them. (A packet on a virtual channel without them is one
// frame, which the caller adds itself: `heading.plain` isn't read here.)
pub fn push_packet(
    form: &mut Vec<u8>,
    shape: &TcShape,
    heading: Heading,
    packet: &[u8],
) -> Result<u8, AllocError>
    requires spacecraft { heading.spacecraft ≤ 1023 }
    requires channel { heading.channel < channel_count }
    // The frames are those of the packet, and N(S) rises by one with each, modulo 256. Each segment
    // has room for an octet of the packet at least. The frames have at most `2 * length + 7` octets
    // together (`PIECE_ROOM` in form.rt says why).
    ensures frames { OnOk result (form.new.items ≡ form.old.items
        ++ piece_of shape.now heading.spacecraft false heading.channel heading.ns packet.now) }
    ensures next { IfOk result (λ next. next
        ≡ ns_after shape.now false heading.channel heading.ns packet.now) }
    ensures room { 0 < segment_room_of shape.now }
    ensures most { OnOk result (vec_len form.new ≤ vec_len form.old + 2 * length packet.now + 7) }

    // Memory is refused only where there is no room for the frames. Some of the frames may have
    // been added then, after the octets that `form` had. The capacity never shrinks.
    ensures kept { OnErr result (take (vec_len form.old) form.new.items ≡ form.old.items) }
    ensures capacity { vec_capacity form.old ≤ vec_capacity form.new }
    ensures full { OnErr result
        (vec_capacity form.old < vec_len form.old + 2 * length packet.now + 7) }
{
    let room = usize::from(shape.room());
    let vc = (heading.channel / 64) as u8;
    let map_id = (heading.channel % 64) as u8;
    let mut ns = heading.ns;
    let mut left = packet;
    while !left.is_empty() {
        let first = left.len() == packet.len();
        let (octets, later) = split_segment(left, room);
        let header = SegmentHeader::of_segment(first, later.is_empty(), map_id);
        push_tc(form, shape, heading.spacecraft, vc, ns, header, octets)?;
        ns = ns.wrapping_add(1);
        left = later;
    }
    Ok(ns)
}

// Splits off the octets of the next segment: at most `room`. The second slice is what is left of
// the packet.
fn split_segment(left: &[u8], room: usize) -> (&[u8], &[u8])
    ensures octets { result.0.now ≡ take room left.now }
    ensures later { result.1.now ≡ drop room left.now }
{
    if left.len() <= room {
        return (left, &[]);
    }
    left.split_at(room)
}
