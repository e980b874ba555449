//! TC transfer frames of type AD that are written.
ghost use Rattle.std.specs.Prelude.{◌≡◌, ◌+◌, ◌<◌, ◌≤◌, ◌++◌, length, vec_len, OnOk, OnErr};
ghost use Rattle.std.specs.Vec.{vec_capacity};
ghost use Rattle.sl_fields.specs.FecfField.{fecf_len, with_fecf};
ghost use Rattle.sl_fields.specs.Field.{octets_of};
ghost use Rattle.sl_tcframe.specs.AdFrame.{ad_fields, ad_frame, ad_len, plain_room_of};
ghost use Rattle.sl_tcframe.specs.AdFrame.{segment_room_of, segment_unit};

use crate::tc_shape::TcShape;
use sl_fields::{SegmentHeader, TcHeader, fecf_field};
use std::alloc::AllocError;

/// Adds a TC transfer frame (CCSDS 232.0-B) of type AD to the end of `out`. The frame's data field
/// is the segment header `header` and then `octets`.
///
/// - `spacecraft` is 0 to 1023 and `vc` 0 to 63.
/// - `ns` is the frame sequence number N(S), 0 to 255.
/// - `octets` has 0 to [`TcShape::room`] octets.
///
/// The primary header has version 0, bypass flag 0, control command flag 0 and spare bits 0. The
/// frame ends with its error control field where the format `shape` has one.
///
/// Memory is refused only where the capacity of `out` has no room for the frame. The octets of
/// `out` then stay as they were.
pub fn push_tc(
    out: &mut Vec<u8>,
    shape: &TcShape,
    spacecraft: u16,
    vc: u8,
    ns: u8,
    header: SegmentHeader,
    octets: &[u8],
) -> Result<(), AllocError>
    requires spacecraft { spacecraft ≤ 1023 }
    requires vc { vc ≤ 63 }
    requires segment { length octets.now ≤ segment_room_of shape.now }
    // The frame is added.
    ensures added { OnOk result (out.new.items ≡ out.old.items
        ++ ad_frame shape.now spacecraft vc ns (segment_unit header octets.now)) }
    ensures len { OnOk result (vec_len out.new
        ≡ vec_len out.old + ad_len shape.now (1 + length octets.now)) }

    // Memory is refused only where `out` had no room for the frame, and then nothing is added. The
    // capacity never shrinks.
    ensures unchanged { OnErr result (out.new.items ≡ out.old.items) }
    ensures capacity { vec_capacity out.old ≤ vec_capacity out.new }
    ensures full { OnErr result (vec_capacity out.old
        < vec_len out.old + ad_len shape.now (1 + length octets.now)) }
{
    let len = frame_len(shape, 1 + octets.len());
    let front = with_segment(frame_header(spacecraft, vc, ns, len), header.write());
    push_ad(out, shape, len, &front, octets)
}

/// Adds a TC transfer frame (CCSDS 232.0-B) of type AD without a segment header to the end of
/// `out`, for a virtual channel whose frames have no segment headers. The frame's data field is
/// `octets`.
///
/// - `spacecraft` is 0 to 1023 and `vc` 0 to 63.
/// - `ns` is the frame sequence number N(S), 0 to 255.
/// - `octets` has 1 to [`TcShape::plain_room`] octets.
///
/// The primary header, the error control field and a refusal of memory are as for [`push_tc`].
pub fn push_tc_plain(
    out: &mut Vec<u8>,
    shape: &TcShape,
    spacecraft: u16,
    vc: u8,
    ns: u8,
    octets: &[u8],
) -> Result<(), AllocError>
    requires spacecraft { spacecraft ≤ 1023 }
    requires vc { vc ≤ 63 }
    requires some { 1 ≤ length octets.now }
    requires unit { length octets.now ≤ plain_room_of shape.now }
    // The frame is added.
    ensures added { OnOk result (out.new.items ≡ out.old.items
        ++ ad_frame shape.now spacecraft vc ns octets.now) }
    ensures len { OnOk result (vec_len out.new
        ≡ vec_len out.old + ad_len shape.now (length octets.now)) }

    // Memory is refused only where `out` had no room for the frame, and then nothing is added. The
    // capacity never shrinks.
    ensures unchanged { OnErr result (out.new.items ≡ out.old.items) }
    ensures capacity { vec_capacity out.old ≤ vec_capacity out.new }
    ensures full { OnErr result (vec_capacity out.old
        < vec_len out.old + ad_len shape.now (length octets.now)) }
{
    let len = frame_len(shape, octets.len());
    let header = frame_header(spacecraft, vc, ns, len);
    push_ad(out, shape, len, &header, octets)
}

// Adds a frame of type AD of `len` octets to the end of `out`: its front, which is its header and
// the segment header, if it has one, and then the other octets of its data field.
#[inline(always)]
fn push_ad(
    out: &mut Vec<u8>,
    shape: &TcShape,
    len: u16,
    front: &[u8],
    octets: &[u8],
) -> Result<(), AllocError>
    requires len { len ≡ length front.now + length octets.now + fecf_len shape.now.fecf }
    // The frame is added.
    ensures added { OnOk result (out.new.items ≡ out.old.items
        ++ with_fecf shape.now.fecf (front.now ++ octets.now)) }
    ensures len { OnOk result (vec_len out.new ≡ vec_len out.old + len) }

    // Memory is refused only where `out` had no room for the frame, and then nothing is added. The
    // capacity never shrinks.
    ensures unchanged { OnErr result (out.new.items ≡ out.old.items) }
    ensures capacity { vec_capacity out.old ≤ vec_capacity out.new }
    ensures full { OnErr result (vec_capacity out.old < vec_len out.old + len) }
{
    let start = out.len();
    out.reserve(usize::from(len))?;
    out.extend_from_slice(front)?;
    out.extend_from_slice(octets)?;
    if !shape.fecf {
        return Ok(());
    }
    let field = fecf_field(&out.as_slice()[start..]);
    out.extend_from_slice(&field)
}

// The octets of a header and of the segment header after it: one array, since an addition to a
// vector takes some ten instructions beside those for its octets.
#[inline(always)]
fn with_segment(header: [u8; 5], segment_header: [u8; 1]) -> [u8; 6]
    ensures { result ≡ header ++ segment_header }
{
    let [segment] = segment_header;
    // Copied, and not put together octet by octet, so that the header is stored as one number.
    let mut octets = [segment; 6];
    octets[..5].copy_from_slice(&header);
    octets
}

// The length of a frame whose data field, its unit, is `unit` octets long.
fn frame_len(shape: &TcShape, unit: usize) -> u16
    requires { unit ≤ 1 + segment_room_of shape.now }
    ensures value { result ≡ ad_len shape.now unit }
    ensures least { 5 ≤ result }
    ensures most { result ≤ 1024 }
{
    // Not `shape.least()`: only code that reads a field of `shape` has 16 <= max <= 1024 in its
    // proof, and `most` needs it.
    let around = if shape.fecf { 7 } else { 5 };
    around + unit as u16
}

// The octets of the header of a frame of type AD that has `len` octets in all.
fn frame_header(spacecraft: u16, vc: u8, ns: u8, len: u16) -> [u8; 5]
    requires spacecraft { spacecraft ≤ 1023 }
    requires vc { vc ≤ 63 }
    requires least { 1 ≤ len }
    requires most { len ≤ 1024 }
    ensures { result ≡ octets_of 5 (ad_fields spacecraft vc ns len) }
{
    TcHeader::of_ad(spacecraft, vc, len - 1, ns).write()
}
