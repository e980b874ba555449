//! The managed parameters of a link.
ghost use Rattle.std.specs.Prelude.{◌≡◌, ◌≤◌, [], replicate};
ghost use Rattle.sl_engine.specs.Link.Managed.{Parameters};

use sl_cop::{Starts, Window};
use sl_tcframe::{TcShape, VcSet};
use sl_tmframe::TmShape;
use std::marker::Model;
use thiserror::Error;

/// Which managed parameter is refused.
#[derive(Clone, Copy, Debug, PartialEq, Eq, Error)]
pub enum ManagedFault {
    /// The spacecraft identifier is over 1023.
    #[error("spacecraft")]
    Spacecraft,
    /// The TM frame length is outside 32 to 2048 octets.
    #[error("tm length")]
    TmLength,
    /// The greatest TC frame length is outside 16 to 1024 octets.
    #[error("tc length")]
    TcLength,
    /// The FARM-1 window is 0 or odd.
    #[error("window")]
    Window,
    /// The greatest number of octets that may be read is 0.
    #[error("limit")]
    Limit,
}

/// The managed parameters of a link: what both of its ends have agreed upon.
#[derive(Clone, Copy, Debug, PartialEq, Eq)]
pub struct Managed {
    pub(crate) spacecraft: u16,
    pub(crate) tm: TmShape,
    pub(crate) tc: TcShape,
    pub(crate) window: Window,
    pub(crate) starts: Starts,
    pub(crate) plain: VcSet,
    pub(crate) max_octets: u64,
}

impl Model for Managed {
    ghost use Rattle.sl_engine.specs.Link.Managed.{Parameters};
    ghost use Rattle.sl_engine.specs.Link.ManagedModel.{parameters_of, inside_of, IsManaged};

    ghost Value = { Parameters };

    ghost view = { parameters_of };

    ghost invariant = { IsManaged };

    ghost inverse = { inside_of };
}

impl Managed {
    ghost use Rattle.sl_engine.specs.Link.Managed.{AreAccepted, managed_of};

    /// The parameters, or the first of them that is refused:
    ///
    /// - `spacecraft`, the spacecraft identifier, 0 to 1023;
    /// - `tm_length`, the octets of each TM frame (CCSDS 132.0-B), 32 to 2048, and `tm_fecf`,
    ///   whether the last two of them are a frame error control field;
    /// - `tc_max`, the octets of the longest TC frame (CCSDS 232.0-B), 16 to 1024, and `tc_fecf`,
    ///   whether the last two octets of each TC frame are a frame error control field;
    /// - `window`, the width of FARM-1's sliding window (CCSDS 232.1-B) in frames, even, 2 to 254;
    /// - `vr`, V(R) of each virtual channel of TC frames before its first frame, 0 to 255;
    /// - `max_octets`, how many octets of a recording may be read, 1 or more.
    ///
    /// The frames of each virtual channel of TC frames have segment headers, unless
    /// [`Managed::with_plain`] follows.
    pub fn new(
        spacecraft: u16,
        tm_length: u16,
        tm_fecf: bool,
        tc_max: u16,
        tc_fecf: bool,
        window: u8,
        vr: u8,
        max_octets: u64,
    ) -> Result<Managed, ManagedFault>
        ensures { let parameters : Parameters = record {
          spacecraft = spacecraft;
          tm_length = tm_length;
          tm_fecf = tm_fecf;
          tc_max = tc_max;
          tc_fecf = tc_fecf;
          window = window;
          starts = replicate 64 vr;
          plain = [];
          max_octets = max_octets;
        } in result ≡ managed_of parameters }
    {
        if spacecraft > 1023 {
            return Err(ManagedFault::Spacecraft);
        }
        let tm = match TmShape::new(tm_length, tm_fecf) {
            Ok(shape) => shape,
            Err(_) => return Err(ManagedFault::TmLength),
        };
        let tc = match TcShape::new(tc_max, tc_fecf) {
            Ok(shape) => shape,
            Err(_) => return Err(ManagedFault::TcLength),
        };
        let window = match Window::new(window) {
            Some(window) => window,
            None => return Err(ManagedFault::Window),
        };
        if max_octets == 0 {
            return Err(ManagedFault::Limit);
        }
        Ok(Managed {
            spacecraft,
            tm,
            tc,
            window,
            starts: Starts::all(vr),
            plain: VcSet::new(),
            max_octets,
        })
    }

    /// The spacecraft identifier, 0 to 1023.
    ///
    /// Two clauses aren't about this value. They say what holds of every `Managed`, so that callers
    /// can use the laws. Those on normal forms ([`laws`](crate::laws)) want that no parameter is
    /// refused, and that the initial V(R) of each virtual channel is one octet. Some of those on
    /// FARM-1's runs (`sl_cop::laws`) and on the order of frames (`sl_tcflow::laws`) want a window
    /// that isn't too wide: a width of 254 is enough for all of them.
    pub fn spacecraft(&self) -> u16
        ensures value { result ≡ self.now.spacecraft }
        ensures accepted { AreAccepted self.now }
        ensures window { self.now.window ≤ 254 }
    {
        // For the proof alone, at no cost: every `Window` has a width of 254 at most.
        let _ = self.window.width();
        self.spacecraft
    }

    /// Whether TM frames have a frame error control field.
    pub fn tm_fecf(&self) -> bool
        ensures { result ≡ self.now.tm_fecf }
    {
        self.tm.fecf()
    }

    /// Whether TC frames have a frame error control field.
    pub fn tc_fecf(&self) -> bool
        ensures { result ≡ self.now.tc_fecf }
    {
        self.tc.fecf()
    }

    /// These parameters, with `plain` as the virtual channels of TC frames whose frames have no
    /// segment headers.
    pub fn with_plain(self, plain: VcSet) -> Managed
        ensures { result ≡ record self { plain = plain } }
    {
        Managed { plain, ..self }
    }

    /// These parameters, with the V(R) of `starts` for each virtual channel of TC frames before its
    /// first frame.
    pub fn with_starts(self, starts: Starts) -> Managed
        ensures { result ≡ record self { starts = starts } }
    {
        Managed { starts, ..self }
    }
}
