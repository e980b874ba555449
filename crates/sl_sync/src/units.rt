//! The units of a file: what tells where one begins and what it holds.
ghost use Rattle.std.specs.Prelude.{◌≡◌, ◌++◌, ◌≤◌, true, length, OnOk, IfOk};
ghost use Rattle.std.specs.List.{concat};
ghost use Rattle.sl_sync.specs.Held.{Holds};
ghost use Rattle.sl_sync.specs.Units.{AreStray, Rule};

use std::alloc::AllocError;

/// What came before a place of a file.
#[derive(Clone, Copy)]
pub enum Place {
    /// No unit.
    Start,
    /// A unit that ends here, perhaps with octets behind it of one that the file's end cuts.
    Next,
    /// A unit, and octets that belong to none.
    Astray,
}

/// What is counted of a unit.
#[derive(Clone, Copy, Drop)]
pub struct Held {
    /// Its frames.
    pub frames: u64,
    /// Whether its own marker is there.
    pub marked: bool,
    /// The octets of a frame that it hasn't whole.
    pub cut: u64,
    /// Whether its last code block is followed by one that is refused.
    pub refused: bool,
    /// Its octets.
    pub size: usize,
}

/// Units of one sort.
pub trait Units {
    /// What tells them.
    ghost rule: { Self → Rule };

    /// How many octets show what a unit is that begins with the first of them.
    fn ahead(&self) -> usize
        ensures { result ≡ (rule self.now).ahead };

    /// Whether a unit begins here.
    fn begins(&self, place: Place, octets: &[u8]) -> bool
        ensures { result ≡ (rule self.now).begins place octets.now };

    /// Where no unit begins: the place behind this octet, and how many octets from it on are stray
    /// and have the same place behind them, `most` at most. It may stop before it has found all.
    fn stray(&self, place: Place, octets: &[u8], most: usize) -> (Place, usize)
        requires { (1 ≤ most) × (most ≤ length octets.now) }
        ensures { AreStray (rule self.now) place octets.now most result.0 result.1 };

    /// Adds the frames of the unit that begins here to `text`, and counts what it holds.
    fn push_unit(&self, octets: &[u8], text: &mut Vec<u8>) -> Result<Held, AllocError>
        requires { (place : Place) × ((rule self.now).begins place octets.now ≡ true) }
        ensures added { OnOk result (text.new.items
            ≡ text.old.items ++ concat ((rule self.now).content octets.now).frames) }
        ensures held { IfOk result (Holds ((rule self.now).content octets.now)
            ((rule self.now).size octets.now)) };
}
