//! What is kept of a file while it is read.
ghost use Rattle.std.specs.Prelude.{◌≡◌, ◌≤◌, drop, length, OnOk};

use crate::totals::Totals;
use crate::units::{Place, Units};
use crate::window::push_frames;
use std::alloc::{AllocError, Global};
use std::mem;

/// What is kept of a file while it is read.
#[derive(Drop)]
pub struct Kept {
    /// The octets at the end of what was read whose units aren't known yet.
    pub window: Vec<u8>,
    /// The frames that aren't written yet.
    pub text: Vec<u8>,
    /// The place at which the window begins.
    pub place: Place,
    /// What is counted before it.
    pub totals: Totals,
    // Room for the next window.
    spare: Vec<u8>,
}

impl Kept {
    ghost use Rattle.sl_sync.specs.Reading.{CutsChunk, IsAtStart};
    ghost use Rattle.sl_sync.specs.Units.{IsSound};

    /// Nothing, at the beginning of a file.
    pub fn new(alloc: Global) -> Kept
        ensures { IsAtStart result }
    {
        Kept {
            window: Vec::new(alloc),
            text: Vec::new(alloc),
            place: Place::Start,
            totals: Totals::none(),
            spare: Vec::new(alloc),
        }
    }

    /// Takes a chunk, with which the file may end. The frames of the units that are known then, and
    /// no earlier ones, wait to be written.
    pub fn cut<U: Units>(&mut self, units: &U, chunk: &[u8], ended: bool) -> Result<(), AllocError>
        requires { IsSound (U.rule units.now) }
        ensures { OnOk result (CutsChunk (U.rule units.now) ended chunk.now self.old self.new) }
    {
        self.window.extend_from_slice(chunk)?;
        self.text.clear();
        let from = (self.place, self.totals);
        let cut = push_frames(units, self.window.as_slice(), ended, from, &mut self.text)?;
        self.place = cut.place;
        self.totals = cut.totals;
        drop_front(&mut self.window, &mut self.spare, cut.done)
    }
}

// Takes octets away from the front; `spare` is room for those that are kept.
fn drop_front(window: &mut Vec<u8>, spare: &mut Vec<u8>, count: usize) -> Result<(), AllocError>
    requires { count ≤ length window.old.items }
    ensures { OnOk result (window.new.items ≡ drop count window.old.items) }
{
    spare.clear();
    spare.extend_from_slice(&window[count..])?;
    mem::swap(window, spare);
    Ok(())
}
