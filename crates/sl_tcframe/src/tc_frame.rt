//! The TC transfer frame, as it is read.
ghost use Rattle.std.specs.Prelude.{◌≡◌, ◌-◌, ◌<◌, ◌≤◌, true, length, drop, option_map, unwrap_or, IfNone, IfSome, Some};
ghost use Rattle.sl_tcframe.specs.TcFrame.{tc_header_of, command_of, content_of, early_reason, late_reason};
ghost use Rattle.sl_tcframe.specs.TcFrame.{is_cut, longest_unit, tc_parts_of, IsContent};
ghost use Rattle.sl_tcframe.specs.TcContent.{content};

use crate::tc_shape::TcShape;
use sl_fields::{TcHeader, fecf_good, front, without_fecf};
use std::marker::Model;

/// Why a TC transfer frame is skipped: the first of these reasons that holds.
#[derive(Clone, Copy, Debug, PartialEq, Eq)]
pub enum TcSkip {
    /// The format ([`TcShape`]) has a frame error control field, and the field of this frame is
    /// wrong.
    Fecf,
    /// The transfer frame version number isn't 0.
    Version,
    /// The spacecraft identifier isn't the one that frames are read for.
    Spacecraft,
    /// The frame has more octets than [`TcShape::max`].
    Long,
    /// The control command flag is 1 and the bypass flag is 0: the frame is of none of the types
    /// AD, BD and BC.
    Kind,
    /// The frame has no data field.
    Empty,
    /// The frame is of type BC, and its data field is neither Unlock nor Set V(R).
    Command,
}

/// The content of a TC transfer frame (CCSDS 232.0-B), by the type of the frame.
#[derive(Clone, Copy, Debug, PartialEq, Eq)]
pub enum TcContent<'a> {
    /// The unit of a frame of type AD. The acceptance checks of FARM-1 apply to the frame.
    Ad {
        /// Frame sequence number N(S), 0 to 255.
        ns: u8,
        /// The whole data field, 1 to 1019 octets. The unit begins with a segment header, except on
        /// a virtual channel without segment headers.
        unit: &'a [u8],
    },
    /// The unit of a frame of type BD. The frame bypasses the acceptance checks.
    Bd {
        /// The whole data field, 1 to 1019 octets. The unit begins with a segment header, except on
        /// a virtual channel without segment headers.
        unit: &'a [u8],
    },
    /// The control command Unlock, in a frame of type BC.
    Unlock,
    /// The control command Set V(R), in a frame of type BC, with the value to set, 0 to 255.
    SetVr(u8),
}

/// A TC transfer frame of CCSDS 232.0-B that was read, and so not skipped: its virtual channel and
/// its content.
#[derive(Debug, Drop)]
pub struct TcFrame<'a> {
    vc: u8,
    content: TcContent<'a>,
}

impl<'a> Model for TcFrame<'a> {
    ghost use Rattle.sl_tcframe.specs.TcFrame.{TcView};

    ghost Value = { TcView };

    ghost use Rattle.sl_tcframe.specs.TcFrameModel.{frame_view_of, IsTcFrame};

    ghost view = { frame_view_of };

    ghost invariant = { IsTcFrame };
}

impl<'a> TcFrame<'a> {
    ghost use Rattle.sl_tcframe.specs.TcFrame.{tc_frame};

    /// Reads a frame of the format `shape` and of the spacecraft `spacecraft`, or answers why the
    /// frame is skipped. `octets` are one whole frame, cut out of a recording: they have exactly
    /// the length that their own frame length field states, as [`TcShape::is_cut`] tests. Where
    /// `spacecraft` is above 1023, a number that no header holds, every frame is skipped. The unit
    /// is borrowed from `octets`.
    ///
    /// The spare bits of the header, and N(S) of types BD and BC, are ignored, by this project's
    /// choice.
    #[inline(always)]
    pub fn read(shape: &TcShape, spacecraft: u16, octets: &'a [u8]) -> Result<TcFrame<'a>, TcSkip>
        requires cut { is_cut shape.now octets.now ≡ true }
        ensures { result ≡ tc_frame shape.now spacecraft octets.now }
    {
        let (header, behind) = split_header(octets);
        let field = without_fecf(shape.fecf, behind);
        if let Some(reason) = early_skip_of(shape, &header, spacecraft, octets) {
            return Err(reason);
        }
        match content_under(&header, field) {
            Some(content) => Ok(TcFrame {
                vc: header.vc(),
                content,
            }),
            None => Err(late_skip_of(&header, field)),
        }
    }

    /// Virtual channel identifier, 0 to 63.
    pub fn vc(&self) -> u8
        ensures value { result ≡ self.now.vc }
        ensures fits { result ≤ 63 }
    {
        self.vc
    }

    /// The content of the frame. A unit has 1 to 1019 octets, and is borrowed from the octets that
    /// the frame was read from. In the clauses the function `content` takes a [`TcContent`] to the
    /// `Content` of specs/TcFrame.antt, and `IsContent` says that a unit has 1 to 1019 octets.
    pub fn content(&self) -> TcContent<'a>
        ensures value { content result ≡ self.now.content }
        ensures inside { IsContent (content result) }
    {
        self.content
    }
}

// Splits the octets of a frame after the primary header. Answers the decoded header, and the octets
// that follow it.
#[inline(always)]
fn split_header(octets: &[u8]) -> (TcHeader, &[u8])
    requires { 5 ≤ length octets.now }
    ensures header { result.0 ≡ tc_header_of octets.now }
    ensures behind { result.1.now ≡ drop 5 octets.now }
{
    let (header, behind) = front::<5>(octets);
    (TcHeader::read(header), behind)
}

// The first of the reasons up to `Long` to skip the frame `octets`, whose header is `header`, or
// `None`. The later reasons are asked only of a frame without a content: so `check` of TC frames of
// up to 64 octets takes 4 % fewer instructions.
#[inline(always)]
fn early_skip_of(
    shape: &TcShape,
    header: &TcHeader,
    spacecraft: u16,
    octets: &[u8],
) -> Option<TcSkip>
    requires header { header.now ≡ tc_header_of octets.now }
    requires cut { is_cut shape.now octets.now ≡ true }
    ensures found { IfSome result (λ reason.
        early_reason shape.now spacecraft octets.now ≡ Some reason) }
    ensures none { IfNone result (early_reason shape.now spacecraft octets.now
        ≡ late_reason header.now (tc_parts_of shape.now octets.now).field) }
{
    if shape.fecf && !fecf_good(octets) {
        return Some(TcSkip::Fecf);
    }
    if header.version() != 0 {
        return Some(TcSkip::Version);
    }
    if header.spacecraft() != spacecraft {
        return Some(TcSkip::Spacecraft);
    }
    if octets.len() > usize::from(shape.max) {
        return Some(TcSkip::Long);
    }
    None
}

// Why a frame with this header and this data field is skipped, if there is no content and none of
// the reasons up to `Long` holds.
fn late_skip_of(header: &TcHeader, field: &[u8]) -> TcSkip
    ensures { result ≡ unwrap_or (late_reason header.now field.now) TcSkip.Command }
{
    if !header.bypass() && header.command() {
        TcSkip::Kind
    } else if field.is_empty() {
        TcSkip::Empty
    } else {
        TcSkip::Command
    }
}

// The content of a data field under this header. `None` where the header's flags are those of none
// of the types AD, BD and BC; where a frame of type AD or BD has an empty data field; and where one
// of type BC has no control command in it.
#[inline(always)]
fn content_under<'a>(header: &TcHeader, field: &'a [u8]) -> Option<TcContent<'a>>
    requires { length field.now ≤ longest_unit }
    // The content is the one that `content_of` gives, and a unit has 1 to 1019 octets.
    ensures value { option_map content result ≡ content_of header.now field.now }
    ensures inside { IfSome result (λ c. IsContent (content c)) }
{
    if header.command() {
        if header.bypass() {
            control_command(field)
        } else {
            None
        }
    } else if field.is_empty() {
        None
    } else if header.bypass() {
        Some(TcContent::Bd { unit: field })
    } else {
        Some(TcContent::Ad {
            ns: header.ns(),
            unit: field,
        })
    }
}

// The control command in a data field. `None` where the data field is neither Unlock nor Set V(R).
fn control_command(field: &[u8]) -> Option<TcContent<'static>>
    ensures { option_map content result ≡ command_of field.now }
{
    match *field {
        [0x00] => Some(TcContent::Unlock),
        [0x82, 0x00, vr] => Some(TcContent::SetVr(vr)),
        _ => None,
    }
}
