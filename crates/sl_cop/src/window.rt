//! The sliding window of FARM-1.
ghost use Rattle.std.specs.Prelude.{◌≡◌, ◌≤◌, SomeIff};
ghost use Rattle.sl_cop.specs.Farm.{IsWidth};

use std::marker::Model;

/// The sliding window of CCSDS 232.1-B, given by its width W: even, 2 to 254. The positive part and
/// the negative part have half the width each (PW and NW).
#[derive(Clone, Copy, Debug, PartialEq, Eq)]
pub struct Window {
    pub(crate) width: u8,
}

impl Model for Window {
    ghost use Rattle.std.specs.Prelude.{ℕ};

    ghost Value = { ℕ };

    ghost use Rattle.sl_cop.specs.FarmModel.{window_width, window_of, IsWindow};

    ghost view = { window_width };

    ghost invariant = { IsWindow };

    ghost inverse = { window_of };
}

impl Window {
    /// The window of the width `w`, even, 2 to 254. `None` exactly where `w` is 0 or odd.
    pub fn new(w: u8) -> Option<Window>
        ensures { SomeIff result (IsWidth w) w }
    {
        if w == 0 || w % 2 == 1 {
            return None;
        }
        Some(Window { width: w })
    }

    /// The width W: even, 2 to 254.
    pub fn width(&self) -> u8
        ensures value { result ≡ self.now }
        ensures width { IsWidth self.now }
        ensures most { self.now ≤ 254 }
    {
        self.width
    }
}
