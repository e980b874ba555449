//! The TM transfer frame, as it is read.
ghost use Rattle.std.specs.Prelude.{◌≡◌, ◌-◌, ◌<◌, ◌≤◌, length, take, drop, if◌then◌else◌, Some};
ghost use Rattle.std.specs.Prelude.{None};
ghost use Rattle.sl_tmframe.specs.TmFrame.{tm_header_of, content_of_field, longest_field};
ghost use Rattle.sl_tmframe.specs.TmFrame.{IsFieldInRange, skip_reason};
ghost use Rattle.sl_tmframe.specs.TmField.{as_content};

use crate::tm_shape::TmShape;
use sl_fields::{TmHeader, back, fecf_good, front, without_fecf};
use std::marker::Model;

/// Why a TM transfer frame is skipped. Where several of these reasons hold, the first one is given,
/// in the order in which they stand here.
#[derive(Clone, Copy, Debug, PartialEq, Eq)]
pub enum TmSkip {
    /// The format has a frame error control field, and the field of this frame is wrong.
    Fecf,
    /// The transfer frame version number isn't 0.
    Version,
    /// The spacecraft identifier isn't the one that frames are read for.
    Spacecraft,
}

/// The content of a TM transfer frame (CCSDS 132.0-B): what its data field carries, which is one of
/// three classes. The clauses have it as a `DataField` (specs/TmFrame.antt). The bit fields of the
/// primary header are another thing: they are in [`TmHeader`].
#[derive(Clone, Copy, Debug, PartialEq, Eq)]
pub enum TmField<'a> {
    /// Octets of packets. The secondary header flag and the synchronisation flag are 0, and the
    /// first header pointer is 2047 or an offset in the data field.
    Packets {
        /// The offset in the data field at which the first packet starts, below the length of
        /// `octets`, or `None` where no packet starts in the data field (pointer 2047).
        first: Option<u16>,
        /// The whole data field, at most 2042 octets.
        octets: &'a [u8],
    },
    /// Only idle data. The secondary header flag and the synchronisation flag are 0, and the first
    /// header pointer is 2046.
    Idle,
    /// A data field that isn't read: the secondary header flag or the synchronisation flag is 1, or
    /// the first header pointer is an offset at or past the end of the data field. Making one class
    /// of these frames, opaque frames, is this project's choice.
    Opaque,
}

/// A TM transfer frame of CCSDS 132.0-B that wasn't skipped: its virtual channel, its frame counts,
/// its operational control field and the content of its data field.
#[derive(Debug, Drop)]
pub struct TmFrame<'a> {
    header: TmHeader,
    control: Option<[u8; 4]>,
    field: TmField<'a>,
}

impl<'a> Model for TmFrame<'a> {
    ghost use Rattle.sl_tmframe.specs.TmFrame.{TmView};

    ghost Value = { TmView };

    ghost use Rattle.sl_tmframe.specs.TmFrameModel.{frame_view_of, IsTmFrame};

    ghost view = { frame_view_of };

    ghost invariant = { IsTmFrame };
}

impl<'a> TmFrame<'a> {
    ghost use Rattle.sl_tmframe.specs.TmFrame.{tm_frame};

    /// Reads a frame of this format and spacecraft, or answers why the frame is skipped. `octets`
    /// has exactly [`TmShape::len`] octets, which may be any octets. `spacecraft` is a spacecraft
    /// identifier, 0 to 1023; with a greater number every frame is skipped. The data field is
    /// borrowed from `octets`.
    ///
    /// The packet order flag, the segment length identifier and the master channel frame count are
    /// not checked, by this project's choice. The virtual channel frame count isn't checked here,
    /// but where frames of a channel are joined (`sl_tmflow`).
    #[inline(always)]
    pub fn read(shape: &TmShape, spacecraft: u16, octets: &'a [u8]) -> Result<TmFrame<'a>, TmSkip>
        requires whole { length octets.now ≡ shape.now.len }
        ensures { result ≡ tm_frame shape.now spacecraft octets.now }
    {
        // Read before the calls: once a field of `shape` is read, the proof has 32 <= len <= 2048.
        let has_fecf = shape.fecf;
        let (header, behind) = split_header(octets);
        if let Some(reason) = skip_of(shape, &header, spacecraft, octets) {
            return Err(reason);
        }
        let (field, control) = split_control(&header, without_fecf(has_fecf, behind));
        Ok(TmFrame {
            header,
            control,
            field: content_under(&header, field),
        })
    }

    /// The virtual channel identifier, 0 to 7.
    pub fn vc(&self) -> u8
        ensures value { result ≡ self.now.vc }
        ensures fits { result ≤ 7 }
    {
        self.header.vc()
    }

    /// The master channel frame count, 0 to 255, which is `mc` in the header.
    pub fn mc_count(&self) -> u8
        ensures { result ≡ self.now.mc_count }
    {
        self.header.mc()
    }

    /// The virtual channel frame count, 0 to 255, which is `vcc` in the header.
    pub fn vc_count(&self) -> u8
        ensures { result ≡ self.now.vc_count }
    {
        self.header.vcc()
    }

    /// The four octets of the operational control field, or `None` where the frame doesn't have
    /// this field. Frames with only idle data and opaque frames may have the field too.
    pub fn control(&self) -> Option<[u8; 4]>
        ensures { result ≡ self.now.control }
    {
        self.control
    }

    /// The content of the frame. The offset of the first packet start, if there is one, is below
    /// the length of the data field, and this length is at most 2042. In the clauses `as_content`
    /// takes the content to a `DataField`.
    pub fn field(&self) -> TmField<'a>
        ensures value { as_content result ≡ self.now.field }
        ensures inside { IsFieldInRange (as_content result) }
    {
        self.field
    }
}

// Reads the primary header, and answers the octets after the header too.
#[inline(always)]
fn split_header(octets: &[u8]) -> (TmHeader, &[u8])
    requires { 6 ≤ length octets.now }
    ensures header { result.0 ≡ tm_header_of octets.now }
    ensures behind { result.1.now ≡ drop 6 octets.now }
{
    let (header, behind) = front::<6>(octets);
    (TmHeader::read(header), behind)
}

// The first reason to skip the frame with these octets, and `None` where no reason holds. `header`
// is the header at the front of the octets.
#[inline(always)]
fn skip_of(shape: &TmShape, header: &TmHeader, spacecraft: u16, octets: &[u8]) -> Option<TmSkip>
    requires frame { length octets.now ≡ shape.now.len }
    requires header { header.now ≡ tm_header_of octets.now }
    ensures { result ≡ skip_reason shape.now spacecraft octets.now }
{
    if shape.fecf && !fecf_good(octets) {
        return Some(TmSkip::Fecf);
    }
    if header.version() != 0 {
        return Some(TmSkip::Version);
    }
    if header.spacecraft() != spacecraft {
        return Some(TmSkip::Spacecraft);
    }
    None
}

// Splits the octets between the header and the frame error control field into the data field and
// the operational control field. The second is there where the header says so.
#[inline(always)]
fn split_control<'a>(header: &TmHeader, between: &'a [u8]) -> (&'a [u8], Option<[u8; 4]>)
    requires { 4 ≤ length between.now }
    ensures field { result.0.now
        ≡ take (length between.now - (if header.now.control then 4 else 0)) between.now }
    ensures control { result.1
        ≡ (if header.now.control then Some (drop (length between.now - 4) between.now) else None) }
{
    if !header.control() {
        return (between, None);
    }
    let (field, control) = back::<4>(between);
    (field, Some(*control))
}

// The content of a data field with the octets `field`, in a frame with this header.
#[inline(always)]
fn content_under<'a>(header: &TmHeader, field: &'a [u8]) -> TmField<'a>
    requires { length field.now ≤ longest_field }
    ensures class { as_content result ≡ content_of_field header.now field.now }
    ensures inside { IsFieldInRange (as_content result) }
{
    if header.secondary() || header.sync() {
        return TmField::Opaque;
    }
    // The pointers 2046 and 2047 are no offsets, but have these two meanings (CCSDS 132.0-B).
    match header.first() {
        2046 => TmField::Idle,
        2047 => TmField::Packets {
            first: None,
            octets: field,
        },
        first if usize::from(first) < field.len() => TmField::Packets {
            first: Some(first),
            octets: field,
        },
        _ => TmField::Opaque,
    }
}
