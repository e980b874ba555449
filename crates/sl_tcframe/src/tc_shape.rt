//! The managed format of TC transfer frames.
ghost use Rattle.std.specs.Prelude.{◌≡◌, ◌+◌, ◌≤◌};
ghost use Rattle.sl_tcframe.specs.AdFrame.{plain_room_of, segment_room_of};
ghost use Rattle.sl_tcframe.specs.TcFrame.{is_cut, least_of};

use sl_fields::{ShapeFault, TcHeader};
use std::marker::Model;

/// The managed format of a physical channel's TC transfer frames (CCSDS 232.0-B): the greatest
/// length of a frame, and whether each frame ends with a frame error control field.
#[derive(Clone, Copy, Debug, PartialEq, Eq)]
pub struct TcShape {
    pub(crate) max: u16,
    pub(crate) fecf: bool,
}

impl Model for TcShape {
    ghost use Rattle.sl_tcframe.specs.TcFrame.{TcFormat};

    ghost Value = { TcFormat };

    ghost use Rattle.sl_tcframe.specs.TcShapeModel.{format_of, inside_of, IsTcShape};

    ghost view = { format_of };

    ghost invariant = { IsTcShape };

    ghost inverse = { inside_of };
}

impl TcShape {
    ghost use Rattle.sl_tcframe.specs.TcFrame.{TcFormat};
    ghost use Rattle.sl_tcframe.specs.TcShape.{tc_shape};

    /// The format with this greatest length, 16 to 1024 octets, and a frame error control field
    /// where `fecf` is set. Any other greatest length is refused with `TcLength`. The bound of 1024
    /// is that of CCSDS 232.0-B; the bound of 16 is this project's choice.
    pub fn new(max: u16, fecf: bool) -> Result<TcShape, ShapeFault>
        ensures { let format : TcFormat = record { max = max; fecf = fecf } in
            result ≡ tc_shape format }
    {
        if max < 16 || max > 1024 {
            return Err(ShapeFault::TcLength);
        }
        Ok(TcShape { max, fecf })
    }

    /// The greatest length of a frame in octets, 16 to 1024.
    pub fn max(&self) -> u16
        ensures value { result ≡ self.now.max }
        ensures least { 16 ≤ result }
        ensures most { result ≤ 1024 }
    {
        self.max
    }

    /// Whether a frame ends with a frame error control field.
    pub fn fecf(&self) -> bool
        ensures { result ≡ self.now.fecf }
    {
        self.fecf
    }

    /// The least length of a frame in octets, that of a frame without a data field: 7 with a frame
    /// error control field, and 5 without.
    pub fn least(&self) -> u16
        ensures value { result ≡ least_of self.now }
        ensures most { result ≤ 7 }
    {
        if self.fecf { 7 } else { 5 }
    }

    /// The greatest number of octets that a frame carries after a segment header, 8 to 1018: all
    /// but the five octets of the primary header, the one of the segment header, and the two of the
    /// error control field where there is one. The room of a TM format is that of a whole data
    /// field, which is [`plain_room`](TcShape::plain_room) here.
    pub fn room(&self) -> u16
        ensures value { result ≡ segment_room_of self.now }
        ensures least { 8 ≤ result }
        ensures most { result ≤ 1018 }
    {
        if self.fecf {
            self.max - 8
        } else {
            self.max - 6
        }
    }

    /// The greatest number of octets that a frame without a segment header carries, 9 to 1019: the
    /// greatest length of a data field.
    pub fn plain_room(&self) -> u16
        ensures value { result ≡ plain_room_of self.now }
        ensures least { 9 ≤ result }
        ensures most { result ≤ 1019 }
    {
        self.room() + 1
    }

    /// Whether the octets are one frame as the delimiting cuts it out of a recording, and so may be
    /// read: there are at least [`least`](TcShape::least) of them, and exactly as many as their
    /// frame length field states. There may be more than [`max`](TcShape::max). The laws call such
    /// octets one frame by their frame length field.
    pub fn is_cut(&self, octets: &[u8]) -> bool
        ensures { result ≡ is_cut self.now octets.now }
    {
        match octets.split_first_chunk::<5>() {
            Some((header, _)) => {
                let stated = usize::from(TcHeader::read(header).length()) + 1;
                octets.len() >= usize::from(self.least()) && octets.len() == stated
            }
            None => false,
        }
    }
}
