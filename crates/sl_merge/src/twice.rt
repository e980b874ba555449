//! Frames that would stand twice in a merge.
ghost use Rattle.std.specs.Prelude.{◌≡◌, ◌+◌, ◌||◌, List, IfOk};
ghost use Rattle.std.specs.List.{list_any};
ghost use Rattle.sl_merge.specs.Fates.{Fated};
ghost use Rattle.sl_merge.specs.Merge.{is_none_twice, stands_twice};
ghost use Rattle.sl_merge.specs.Twice.{HasSeconds, HasTimes, is_excused, times_after};

use crate::item::Item;
use crate::octets::Octets;
use sl_tmframe::TmShape;
use std::alloc::{AllocError, Global};
use std::collections::{HashMap, HashSet};
use std::hash::BuildHasher;

// How often a payload comes among the frames of each recording that stand, 255 for more.
#[derive(Clone, Copy)]
struct Times {
    first: u8,
    second: u8,
}

/// A payload that didn't come.
const NO_TIMES: Times = Times {
    first: 0,
    second: 0,
};

impl Times {
    // The numbers after a frame with the payload.
    fn after(self, item: &Item) -> Times
        ensures { result ≡ times_after self item.now }
    {
        let fate = item.fate();
        let turned = fate.turned();
        Times {
            first: self
                .first
                .saturating_add(u8::from(fate.stands() && fate.is_of_first())),
            second: self
                .second
                .saturating_add(u8::from(turned.stands() && turned.is_of_first())),
        }
    }
}

/// Whether no octets stand both as a frame of the first recording alone and as one of the second
/// alone, but for payloads that come twice in a recording.
pub fn is_none_twice<S: BuildHasher + Copy>(
    alloc: Global,
    hasher: S,
    shape: &TmShape,
    items: &[Item],
) -> Result<bool, AllocError>
    ensures { IfOk result (λ is_none. is_none ≡ is_none_twice shape.now items.now) }
{
    let seconds = seconds_alone(alloc, hasher, items)?;
    // Most channels have no such frame, and need no map of payloads.
    if !has_suspect(items, &seconds) {
        return Ok(true);
    }
    let times = payload_times(alloc, hasher, shape, items)?;
    Ok(are_excused(shape, items, &seconds, &times))
}

// The frames of the second recording alone that stand.
fn seconds_alone<'a, S: BuildHasher + Copy>(
    alloc: Global,
    hasher: S,
    items: &[Item<'a>],
) -> Result<HashSet<Octets<'a>, S>, AllocError>
    ensures { IfOk result (λ seconds. HasSeconds seconds items.now) }
{
    let mut seconds = HashSet::with_hasher(alloc, hasher);
    for item in items {
        if !item.fate().turned().is_first_alone() {
            continue;
        }
        seconds.insert(Octets::new(item.frame()))?;
    }
    Ok(seconds)
}

// Whether a frame stands as one of each recording alone.
fn has_suspect<'a, S: BuildHasher + Copy>(
    items: &[Item<'a>],
    seconds: &HashSet<Octets<'a>, S>,
) -> bool
    requires { HasSeconds seconds.now items.now }
    ensures { result ≡ list_any (stands_twice items.now) items.now }
{
    for item in items {
        if item.fate().is_first_alone() && seconds.contains(&Octets::new(item.frame())) {
            return true;
        }
    }
    false
}

// How often each payload comes.
fn payload_times<'a, S: BuildHasher + Copy>(
    alloc: Global,
    hasher: S,
    shape: &TmShape,
    items: &[Item<'a>],
) -> Result<HashMap<Octets<'a>, Times, S>, AllocError>
    ensures { IfOk result (λ times. HasTimes shape.now times items.now) }
{
    let mut times = HashMap::with_hasher(alloc, hasher);
    for item in items {
        let payload = Octets::new(item.payload(shape));
        let before = times.get(&payload).copied().unwrap_or(NO_TIMES);
        times.insert(payload, before.after(item))?;
    }
    Ok(times)
}

// Whether each frame that stands twice has a payload that comes twice.
fn are_excused<'a, S: BuildHasher + Copy>(
    shape: &TmShape,
    items: &[Item<'a>],
    seconds: &HashSet<Octets<'a>, S>,
    times: &HashMap<Octets<'a>, Times, S>,
) -> bool
    requires seconds { HasSeconds seconds.now items.now }
    requires times { HasTimes shape.now times.now items.now }
    ensures { result ≡ is_none_twice shape.now items.now }
{
    for item in items {
        if !is_excused(shape, item, seconds, times) {
            return false;
        }
    }
    true
}

// Whether a frame doesn't stand twice, or has a payload that comes twice.
fn is_excused<'a, S: BuildHasher + Copy>(
    shape: &TmShape,
    item: &Item<'a>,
    seconds: &HashSet<Octets<'a>, S>,
    times: &HashMap<Octets<'a>, Times, S>,
) -> bool
    ensures { (items : List Fated) → HasSeconds seconds.now items
        → HasTimes shape.now times.now items → result ≡ is_excused shape.now items item.now }
{
    if !item.fate().is_first_alone() || !seconds.contains(&Octets::new(item.frame())) {
        return true;
    }
    let payload = Octets::new(item.payload(shape));
    let times = times.get(&payload).copied().unwrap_or(NO_TIMES);
    times.first >= 2 || times.second >= 2
}
