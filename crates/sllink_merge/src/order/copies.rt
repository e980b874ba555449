//! Frames without error control field of which one is a damaged copy of the other.
use crate::order::numbers::Both;
use sl_merge::Fate;

/// Among how many of the frames that only the other recording has a copy is looked for.
const RECENT: usize = 8;

/// The places of the last frames that only one recording has.
#[derive(Drop)]
struct Recent {
    places: [Option<u32>; RECENT],
    next: usize,
}

impl Recent {
    fn new() -> Recent {
        Recent {
            places: [None; RECENT],
            next: 0,
        }
    }

    // Adds the place of a frame.
    fn add(&mut self, place: u32) {
        if let Some(oldest) = self.places.get_mut(self.next) {
            *oldest = Some(place);
        }
        self.next = self.next.wrapping_add(1) % RECENT;
    }
}

/// How many frames of one recording alone stand near one of the other recording alone that is
/// nearly equal: the header of one of them is damaged. Frames with an error control field are none,
/// and neither are idle frames, which are nearly equal anyway.
pub fn count_copies(both: &Both<'_>, fates: &[Fate]) -> u64 {
    if both.one.fecf() {
        return 0;
    }
    let mut copies = 0u64;
    let mut firsts = Recent::new();
    let mut seconds = Recent::new();
    let mut first = 0u32;
    let mut second = 0u32;
    for fate in fates {
        if *fate == Fate::First {
            let found = seconds
                .places
                .iter()
                .flatten()
                .any(|place| are_copies(both, first, *place));
            copies = copies.saturating_add(u64::from(found));
            firsts.add(first);
        }
        if *fate == Fate::Second {
            let found = firsts
                .places
                .iter()
                .flatten()
                .any(|place| are_copies(both, *place, second));
            copies = copies.saturating_add(u64::from(found));
            seconds.add(second);
        }
        if fate.is_of_first() {
            first = first.saturating_add(1);
        }
        if fate.turned().is_of_first() {
            second = second.saturating_add(1);
        }
    }
    copies
}

// Whether one of two frames may be a damaged copy of the other one.
fn are_copies(both: &Both<'_>, first: u32, second: u32) -> bool {
    let are_idle = both.one.is_idle(first) && both.other.is_idle(second);
    !are_idle && both.are_copies(first, second)
}
