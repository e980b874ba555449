//! The initial V(R) of FARM-1 on each virtual channel.
ghost use Rattle.std.specs.Prelude.{◌≡◌, ◌≤◌, ℕ, List, IfSome, Some, replicate, slice_index_or};
ghost use Rattle.std.specs.Prelude.{slice_set};
ghost use Rattle.sl_cop.specs.Starts.{AreNamed, AreStarts, IsItem, Item, Lists, item_text};
ghost use Rattle.sl_cop.specs.Starts.{starts_over};

use sl_fields::read_decimal;
use std::marker::Model;

/// The initial V(R) of FARM-1 on each of the 64 virtual channels of TC frames: the receiver frame
/// sequence number of CCSDS 232.1-B before the first frame. In clauses this is a list of 64
/// numbers, 0 to 255, by virtual channel identifier.
///
/// A separate managed value for each virtual channel is this project's choice.
#[derive(Clone, Copy, Debug, PartialEq, Eq)]
pub struct Starts {
    vrs: [u8; 64],
}

impl Model for Starts {
    ghost use Rattle.std.specs.Prelude.{ℕ, List};

    ghost Value = { List ℕ };

    ghost use Rattle.sl_cop.specs.StartsModel.{vrs_of, inside_of, IsStarts};

    ghost view = { vrs_of };

    ghost invariant = { IsStarts };

    ghost inverse = { inside_of };
}

impl Starts {
    /// The initial V(R) `vr`, 0 to 255, for all virtual channels.
    pub fn all(vr: u8) -> Starts
        ensures value { result ≡ replicate 64 vr }
        ensures octets { AreStarts result }
    {
        Starts { vrs: [vr; 64] }
    }

    /// The same values with the initial V(R) `vr`, 0 to 255, for the virtual channel `vc`, 0 to 63.
    /// The other virtual channels keep their values.
    pub fn with(&self, vc: u8, vr: u8) -> Starts
        requires { vc ≤ 63 }
        ensures value { result ≡ slice_set self.now vc vr }
        ensures octets { AreStarts result }
    {
        let mut vrs = self.vrs;
        vrs[usize::from(vc)] = vr;
        Starts { vrs }
    }

    /// The initial V(R), 0 to 255, of the virtual channel `vc`, 0 to 63.
    pub fn start(&self, vc: u8) -> u8
        requires { vc ≤ 63 }
        ensures value { result ≡ slice_index_or self.now vc 0 }
        ensures octets { AreStarts self.now }
    {
        self.vrs[usize::from(vc)]
    }

    /// The values after the changes that the text lists. Each virtual channel that the text doesn't
    /// name keeps its value.
    ///
    /// The text is one or more items `v:x`, joined by single commas, as `0:0,63:255`: a virtual
    /// channel `v`, 0 to 63, and its initial V(R) `x`, 0 to 255, both in decimal without leading
    /// zeros. The virtual channels rise strictly. This form is this project's choice. `None` for
    /// any other text, the empty text included.
    pub fn read(&self, text: &str) -> Option<Starts>
        // A text that is read has this form. The answer has the values of its items, and the same
        // values as before elsewhere.
        ensures listed { IfSome result (λ starts. AreNamed 0 text.now self.now starts) }
        // Each text of this form is read.
        ensures every { (items : List Item) → Lists 0 text.now items → result
            ≡ Some (starts_over self.now items) }
        // Each of the 64 values is 0 to 255.
        ensures octets { IfSome result AreStarts }
    {
        read_from(self, text, 0)
    }
}

// The values after the changes that the text lists. `Starts::read` says which form the text has.
// `None` also where the text names a virtual channel below `least`.
fn read_from(starts: &Starts, text: &str, least: u8) -> Option<Starts>
    ensures listed { IfSome result (λ named. AreNamed least text.now starts.now named) }
    ensures every { (items : List Item) → Lists least text.now items → result
        ≡ Some (starts_over starts.now items) }
    ensures octets { IfSome result AreStarts }
{
    match text.split_once(',') {
        Some((first, rest)) => {
            let (vc, vr) = read_item(first, least)?;
            // The items of the rest name virtual channels above `vc`.
            let above = read_from(starts, rest, vc + 1)?;
            Some(above.with(vc, vr))
        }
        None => {
            let (vc, vr) = read_item(text, least)?;
            Some(starts.with(vc, vr))
        }
    }
}

// Reads an item: a virtual channel, `least` to 63, and its initial V(R), 0 to 255, both in decimal
// without leading zeros, with a colon between them. `None` for any other text.
fn read_item(text: &str, least: u8) -> Option<(u8, u8)>
    ensures item { IfSome result (λ p. let item : Item = record { vc = p.0; vr = p.1 } in
        IsItem least item × (text.now ≡ item_text item)) }
    ensures every { (item : Item) → IsItem least item → text.now ≡ item_text item → result
        ≡ Some (item.vc, item.vr) }
{
    let (vc, vr) = text.split_once(':')?;
    let vc = read_decimal(vc)?;
    let vr = read_decimal(vr)?;
    if least <= vc && vc <= 63 {
        Some((vc, vr))
    } else {
        None
    }
}
