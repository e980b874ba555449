//! The frames of a window of a file.
ghost use Rattle.std.specs.Prelude.{◌≡◌, ◌⊎◌, ◌<◌, ◌≤◌, ◌+◌, [], true, false, length, drop, IfOk};
ghost use Rattle.sl_sync.specs.Units.{IsSound};
ghost use Rattle.sl_sync.specs.Window.{Cuts};

use crate::ends::behind;
use crate::totals::Totals;
use crate::units::{Place, Units};
use std::alloc::AllocError;

/// How far a window was cut into its parts.
#[derive(Drop, Clone, Copy)]
pub struct Cut {
    /// How many octets of the window are done with.
    pub done: usize,
    /// The place behind them.
    pub place: Place,
    /// What is counted so far.
    pub totals: Totals,
}

/// Adds to `text` the frames of the units that begin in a window, as far as that is seen in it: up
/// to its end where the file ends with it, and else while enough octets are ahead.
pub fn push_frames<U: Units>(
    units: &U,
    window: &[u8],
    ended: bool,
    from: (Place, Totals),
    text: &mut Vec<u8>,
) -> Result<Cut, AllocError>
    requires { IsSound (U.rule units.now) }
    ensures cut { IfOk result (λ c. Cuts (U.rule units.now) ended from.0 window.now c.place
        (drop c.done window.now) text.old.items text.new.items from.1 c.totals) }
    ensures inside { IfOk result (λ c. c.done ≤ length window.now) }
    ensures all { IfOk result (λ c. ended ≡ true → c.done ≡ length window.now) }
{
    let ahead = units.ahead();
    let mut place = from.0;
    let mut totals = from.1;
    let mut rest = window;
    'parts: while is_seen(rest, ended, ahead) {
        if units.begins(place, rest) {
            let held = units.push_unit(rest, text)?;
            totals = totals.with_unit(held);
            rest = behind(rest, held.size);
            place = Place::Next;
        } else {
            let (next, count) = units.stray(place, rest, seen(rest, ended, ahead));
            place = next;
            totals = totals.with_stray(place, count);
            rest = behind(rest, count);
        }
    }
    Ok(Cut {
        done: window.len() - rest.len(),
        place,
        totals,
    })
}

// Whether there are octets, and what the first of them is can be seen.
fn is_seen(octets: &[u8], ended: bool, ahead: usize) -> bool
    ensures seen { result ≡ true → (0 < length octets.now)
        × ((ended ≡ true) ⊎ (ahead ≤ length octets.now)) }
    ensures all { result ≡ false → ended ≡ true → octets.now ≡ [] }
{
    !octets.is_empty() && (ended || octets.len() >= ahead)
}

// Of how many octets it can be seen what they are.
fn seen(octets: &[u8], ended: bool, ahead: usize) -> usize
    requires some { 1 ≤ length octets.now }
    requires far { (1 ≤ ahead) × ((ended ≡ true) ⊎ (ahead ≤ length octets.now)) }
    ensures inside { (1 ≤ result) × (result ≤ length octets.now) }
    ensures each { (ended ≡ true) ⊎ (result + ahead ≡ length octets.now + 1) }
{
    if ended {
        octets.len()
    } else {
        octets.len() - ahead + 1
    }
}
