//! The managed format of TM transfer frames.
ghost use Rattle.std.specs.Prelude.{◌≡◌, ◌≤◌};
ghost use Rattle.sl_tmframe.specs.PacketFrame.{field_room_of};

use sl_fields::ShapeFault;
use std::marker::Model;

/// The managed format of a physical channel's TM transfer frames (CCSDS 132.0-B): the length of all
/// frames, 32 to 2048 octets, and whether each frame ends with a frame error control field. A frame
/// itself states neither.
#[derive(Clone, Copy, Debug, PartialEq, Eq)]
pub struct TmShape {
    pub(crate) len: u16,
    pub(crate) fecf: bool,
}

impl Model for TmShape {
    ghost use Rattle.sl_tmframe.specs.TmFrame.{TmFormat};

    ghost Value = { TmFormat };

    ghost use Rattle.sl_tmframe.specs.TmShapeModel.{format_of, inside_of, IsTmShape};

    ghost view = { format_of };

    ghost invariant = { IsTmShape };

    ghost inverse = { inside_of };
}

impl TmShape {
    ghost use Rattle.sl_tmframe.specs.TmFrame.{TmFormat};
    ghost use Rattle.sl_tmframe.specs.TmShape.{tm_shape};

    /// The format of frames that have `len` octets, 32 to 2048, and end with a frame error control
    /// field where `fecf` is set. Any other length is refused with [`ShapeFault::TmLength`]. Both
    /// bounds are this project's choice. From 2048 follow the 2042 octets of the longest data field
    /// and the size of a framer's array.
    pub fn new(len: u16, fecf: bool) -> Result<TmShape, ShapeFault>
        ensures { let format : TmFormat = record { len = len; fecf = fecf } in
            result ≡ tm_shape format }
    {
        if len < 32 || len > 2048 {
            return Err(ShapeFault::TmLength);
        }
        Ok(TmShape { len, fecf })
    }

    /// The length of a frame in octets, 32 to 2048.
    pub fn len(&self) -> u16
        ensures value { result ≡ self.now.len }
        ensures least { 32 ≤ result }
        ensures most { result ≤ 2048 }
    {
        self.len
    }

    /// Whether a frame ends with a frame error control field.
    pub fn fecf(&self) -> bool
        ensures { result ≡ self.now.fecf }
    {
        self.fecf
    }

    /// The length in octets of the data field of a frame without an operational control field, 24
    /// to 2042. These are the octets of a frame without the 6 of the primary header and, where the
    /// format has the field, the 2 of the frame error control field.
    pub fn room(&self) -> u16
        ensures value { result ≡ field_room_of self.now }
        ensures least { 24 ≤ result }
        ensures most { result ≤ 2042 }
    {
        if self.fecf {
            self.len - 8
        } else {
            self.len - 6
        }
    }
}
