//! Segments, as they are read from frames.
ghost use Rattle.std.specs.Prelude.{◌≡◌, ◌≤◌, ◌<◌, length};
ghost use Rattle.sl_tcframe.specs.TcFrame.{longest_unit};
ghost use Rattle.sl_tcflow.specs.Segment.{accepted_segment, carried_segment, map_read, segment_view};
ghost use Rattle.sl_tcflow.specs.Series.{segment_in};

use sl_cop::Verdict;
use sl_fields::{SegmentHeader, front};
use sl_tcframe::{TcContent, TcFrame};
use std::marker::Model;

/// The number of channels. Virtual channel `v` and MAP `m` have the channel `64 * v + m`, 0 to
/// 4095.
pub const CHANNELS: u16 = 4096;

/// The sequence flags (CCSDS 232.0-B) of a continuing segment.
pub const CONTINUING: u8 = 0;

/// The sequence flags of a first segment.
pub const FIRST: u8 = 1;

/// The sequence flags of a last segment.
pub const LAST: u8 = 2;

/// The sequence flags of a segment with no segmentation.
pub const WHOLE: u8 = 3;

/// A segment: the sequence flags of its segment header, 0 to 3; its MAP, 0 to 63; the channel of
/// its packets, 0 to 4095; and the octets after the header, 1018 at most. The channel is 64 times
/// the virtual channel plus the MAP. A segment on a virtual channel without segment headers has no
/// segmentation and is on MAP 0, and its octets are the whole unit, 1019 at most.
#[derive(Drop)]
pub struct Segment<'a> {
    pub flags: u8,
    pub map_id: u8,
    pub channel: u16,
    pub octets: &'a [u8],
}

impl<'a> Model for Segment<'a> {
    ghost use Rattle.sl_tcflow.specs.Segment.{SegmentView};

    ghost Value = { SegmentView };

    ghost use Rattle.sl_tcflow.specs.SegmentModel.{view_of_segment, IsSegment};

    ghost view = { view_of_segment };

    ghost invariant = { IsSegment };
}

/// The segment of the unit that a frame carries, accepted or not. `None` where the frame carries no
/// unit. `plain` says that the frame's virtual channel has no segment headers.
#[inline(always)]
pub fn carried_segment<'a>(frame: &TcFrame<'a>, plain: bool) -> Option<Segment<'a>>
    ensures { result ≡ carried_segment frame.now.vc plain frame.now.content }
{
    match frame.content() {
        TcContent::Ad { unit, .. } | TcContent::Bd { unit } => {
            Some(read_segment(frame.vc(), plain, unit))
        }
        TcContent::Unlock | TcContent::SetVr(_) => None,
    }
}

/// The segment of a frame's unit, where this verdict accepts it.
#[inline(always)]
pub fn accepted_segment<'a>(verdict: Verdict, segment: Option<Segment<'a>>) -> Option<Segment<'a>>
    ensures { result ≡ accepted_segment verdict segment.entry }
{
    match verdict {
        Verdict::Accept => segment,
        _ => None,
    }
}

/// The MAP of a frame's segment, and 0 where the frame carries none.
#[inline(always)]
pub fn map_in(segment: &Option<Segment>) -> u8
    ensures value { result ≡ map_read segment.now }
    ensures most { result ≤ 63 }
{
    match segment {
        Some(segment) => segment.map_id,
        None => 0,
    }
}

// Reads a unit of the virtual channel `vc`, 0 to 63, as a segment. The unit has 1 to 1019 octets.
#[inline(always)]
fn read_segment(vc: u8, plain: bool, unit: &[u8]) -> Segment
    requires vc { vc ≤ 63 }
    requires some { 0 < length unit.now }
    requires short { length unit.now ≤ longest_unit }
    ensures { result ≡ segment_view vc (segment_in plain unit.now) }
{
    let first = 64 * u16::from(vc);
    if plain {
        return Segment {
            flags: WHOLE,
            map_id: 0,
            channel: first,
            octets: unit,
        };
    }
    // the first octet, and the others
    let (header, octets) = front::<1>(unit);
    let header = SegmentHeader::read(header);
    Segment {
        flags: header.flags(),
        map_id: header.map(),
        channel: first + u16::from(header.map()),
        octets,
    }
}
