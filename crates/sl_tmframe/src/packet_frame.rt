//! The TM transfer frame of packets, as this project writes it.
ghost use Rattle.std.specs.Prelude.{◌≡◌, ◌+◌, ◌<◌, ◌≤◌, ◌++◌, length, IfSome, OnOk, OnErr};
ghost use Rattle.std.specs.Vec.{vec_len, vec_capacity};
ghost use Rattle.sl_fields.specs.Field.{octets_of};
ghost use Rattle.sl_tmframe.specs.PacketFrame.{packet_frame, frame_fields, field_room_of};

use crate::tm_shape::TmShape;
use sl_fields::{TmHeader, fecf_field};
use std::alloc::AllocError;

/// The first header pointer of a frame in which no packet starts (CCSDS 132.0-B).
const NONE_STARTS: u16 = 2047;

/// Adds a TM transfer frame of packets (CCSDS 132.0-B) to the end of `out`. The data field of the
/// frame has octets of packets.
///
/// - `shape` is the frame's format: its length, and whether it has a frame error control field.
/// - `spacecraft` is the spacecraft identifier, 0 to 1023.
/// - `vc` is the virtual channel identifier, 0 to 7.
/// - `mc` is the master channel frame count, 0 to 255, named as in [`TmHeader`].
/// - `vcc` is the virtual channel frame count, 0 to 255.
/// - `first` is the first packet start: the offset in the data field at which the first packet
///   starts, below [`TmShape::room`], or `None` where no packet starts in the data field.
/// - `octets` is the data field: exactly [`TmShape::room`] octets.
///
/// The frame has version 0, no operational control field, no secondary header, synchronisation flag
/// 0, packet order flag 0 and segment length identifier 3. It ends with its frame error control
/// field where the format has one.
///
/// Memory is refused only where the capacity of `out` has no room for the frame. The octets of
/// `out` are then as they were.
pub fn push_tm(
    out: &mut Vec<u8>,
    shape: &TmShape,
    spacecraft: u16,
    vc: u8,
    mc: u8,
    vcc: u8,
    first: Option<u16>,
    octets: &[u8],
) -> Result<(), AllocError>
    requires spacecraft { spacecraft ≤ 1023 }
    requires vc { vc ≤ 7 }
    requires first { IfSome first (λ first. first < field_room_of shape.now) }
    requires field { length octets.now ≡ field_room_of shape.now }
    // The frame is added.
    ensures added { OnOk result (out.new.items ≡ out.old.items
        ++ packet_frame shape.now spacecraft vc mc vcc first octets.now) }

    // Where memory is refused, nothing is added, and the capacity had no room for the frame. The
    // capacity never falls.
    ensures unchanged { OnErr result (out.new.items ≡ out.old.items) }
    ensures full { OnErr result (vec_capacity out.old < vec_len out.old + shape.now.len) }
    ensures capacity { vec_capacity out.old ≤ vec_capacity out.new }
{
    let start = out.len();
    // Memory may be refused here alone, since there is room for the whole frame afterwards.
    out.reserve(usize::from(shape.len))?;
    out.extend_from_slice(&frame_header(spacecraft, vc, mc, vcc, first))?;
    out.extend_from_slice(octets)?;
    if !shape.fecf {
        return Ok(());
    }
    let field = fecf_field(&out.as_slice()[start..]);
    out.extend_from_slice(&field)
}

// The primary header of a frame of packets. `first` is below 2046, since a data field has at most
// 2042 octets. So it can't be taken for pointer 2046 or 2047.
fn frame_header(spacecraft: u16, vc: u8, mc: u8, vcc: u8, first: Option<u16>) -> [u8; 6]
    requires spacecraft { spacecraft ≤ 1023 }
    requires vc { vc ≤ 7 }
    requires first { IfSome first (λ first. first < 2046) }
    ensures { result ≡ octets_of 6 (frame_fields spacecraft vc mc vcc first) }
{
    let pointer = first.unwrap_or(NONE_STARTS);
    TmHeader::of_packets(spacecraft, vc, mc, vcc, pointer).write()
}
