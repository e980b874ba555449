//! Communications link transmission units.
ghost use Rattle.std.specs.Prelude.{◌≤◌};

/// The shape of communications link transmission units (CLTUs, CCSDS 231.0-B): a start sequence,
/// code blocks with the parity of the BCH code, and a tail sequence. Other octets may lie between
/// them.
#[derive(Drop)]
pub struct CltuShape {
    /// How many of the 16 bits of the start sequence may be wrong, 4 at most, and of the 64 bits of
    /// the tail sequence.
    pub errors: u32,
    /// Whether the data of the code blocks has the sequence of the randomiser on it.
    pub randomised: bool,
    ghost few: { errors ≤ 4 },
}
