//! A set of virtual channels.
ghost use Rattle.std.specs.Prelude.{◌≡◌, ℕ, ◌≤◌, List, [], IfSome, Some};
ghost use Rattle.std.specs.Fmt.{decimal};
ghost use Rattle.sl_tcframe.specs.VcSet.{AreRising, Lists, has_vc, with_vc};

use sl_fields::read_decimal;
use std::marker::Model;

/// A set of TC virtual channels of CCSDS 232.0-B, by their identifiers, 0 to 63. In clauses a set
/// is the list of its identifiers, which rise strictly: a clause `numbers` says this to callers.
#[derive(Clone, Copy, Debug, PartialEq, Eq)]
pub struct VcSet {
    flags: [bool; 64],
}

impl Model for VcSet {
    ghost use Rattle.std.specs.Prelude.{ℕ, List};

    ghost Value = { List ℕ };

    ghost use Rattle.sl_tcframe.specs.VcSetModel.{vcs_of, inside_of, IsVcSet};

    ghost view = { vcs_of };

    ghost invariant = { IsVcSet };

    ghost inverse = { inside_of };

    ghost use Rattle.std.proofs.Common.{ap};
    ghost use Rattle.sl_tcframe.specs.VcSetBack.{flags_back};

    ghost inverse_ok = { λ s has_64.
        ap (λ flags. record { flags = flags }) (flags_back s.flags has_64) };
}

impl VcSet {
    /// The empty set.
    pub fn new() -> VcSet
        ensures { result ≡ [] }
    {
        VcSet { flags: [false; 64] }
    }

    /// The set with the virtual channel `vc`, 0 to 63, added. A set that has `vc` already stays the
    /// same.
    pub fn with(&self, vc: u8) -> VcSet
        requires { vc ≤ 63 }
        ensures value { result ≡ with_vc self.now vc }
        ensures numbers { AreRising 0 result }
    {
        let mut flags = self.flags;
        flags[usize::from(vc)] = true;
        VcSet { flags }
    }

    /// Whether the virtual channel `vc`, 0 to 63, is in the set.
    pub fn has(&self, vc: u8) -> bool
        requires { vc ≤ 63 }
        ensures value { result ≡ has_vc self.now vc }
        ensures numbers { AreRising 0 self.now }
    {
        self.flags[usize::from(vc)]
    }

    /// Reads the set that the text lists: one or more virtual channels, 0 to 63, which rise
    /// strictly, in decimal without leading zeros and joined by single commas, as `0,5,63`. This
    /// form is this project's choice. `None` for any other text, the empty text included.
    pub fn read(text: &str) -> Option<VcSet>
        // The text lists the set that is read, and each set that the text lists is read.
        ensures listed { IfSome result (λ vcs. Lists 0 text.now vcs) }
        ensures every { (vcs : List ℕ) → Lists 0 text.now vcs → result ≡ Some vcs }

        // The numbers of the set are 0 to 63 and rise strictly.
        ensures numbers { IfSome result (AreRising 0) }
    {
        read_from(text, 0)
    }
}

// Reads the set that the text lists, with virtual channels from `least` to 63. `None` where the
// text lists no such set.
fn read_from(text: &str, least: u8) -> Option<VcSet>
    ensures listed { IfSome result (λ vcs. Lists least text.now vcs) }
    ensures every { (vcs : List ℕ) → Lists least text.now vcs → result ≡ Some vcs }
{
    match text.split_once(',') {
        Some((first, rest)) => {
            let vc = read_vc(first, least)?;
            let above = read_from(rest, vc + 1)?;
            Some(above.with(vc))
        }
        None => {
            let vc = read_vc(text, least)?;
            Some(VcSet::new().with(vc))
        }
    }
}

// Reads a virtual channel, `least` to 63, in decimal without leading zeros. `None` for any other
// text.
fn read_vc(text: &str, least: u8) -> Option<u8>
    ensures number { IfSome result (λ vc. (least ≤ vc) × (vc ≤ 63) × (text.now ≡ decimal vc)) }
    ensures every { (vc : ℕ) → least ≤ vc → vc ≤ 63 → text.now ≡ decimal vc → result ≡ Some vc }
{
    let vc = read_decimal(text)?;
    if least <= vc && vc <= 63 {
        Some(vc)
    } else {
        None
    }
}
