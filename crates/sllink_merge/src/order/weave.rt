//! One order of all channels.
use crate::order::lanes::Frames;
use crate::order::seen::Seen;
use sl_merge::Fate;
use std::alloc::{AllocError, Global};

/// What isn't in order yet: the frames of both recordings, and the fates of the channels.
#[derive(Drop)]
struct Loom<'a> {
    firsts: &'a [Seen],
    seconds: &'a [Seen],
    lanes: &'a [Vec<Fate>],
    // How many of a channel's fates are in order.
    passed: [usize; 8],
}

/// One order of all frames that keeps each recording's and each channel's; where these leave it
/// open, by the positions, else the first recording's frame first. `None` where
/// there is no such order.
pub fn weave(
    alloc: Global,
    frames: &Frames,
    lanes: &[Vec<Fate>],
) -> Result<Option<Vec<Fate>>, AllocError> {
    let count = frames.firsts.len().saturating_add(frames.seconds.len());
    let mut fates = Vec::with_capacity(alloc, count)?;
    let mut loom = Loom {
        firsts: &frames.firsts,
        seconds: &frames.seconds,
        lanes,
        passed: [0; 8],
    };
    for _ in 0..count {
        let Some(fate) = loom.next_fate() else {
            break;
        };
        fates.push(fate)?;
        loom.pass(fate);
    }
    if loom.firsts.is_empty() && loom.seconds.is_empty() {
        Ok(Some(fates))
    } else {
        Ok(None)
    }
}

impl<'a> Loom<'a> {
    // The fate of the frame that comes next.
    fn next_fate(&self) -> Option<Fate> {
        let first = self.firsts.first();
        let second = self.seconds.first();
        if first.is_some_and(|seen| !seen.stands()) {
            return Some(Fate::FirstLeftOut);
        }
        if second.is_some_and(|seen| !seen.stands()) {
            return Some(Fate::SecondLeftOut);
        }
        let one = first.and_then(|seen| self.fate_of(seen, Fate::First, second));
        let other = second.and_then(|seen| self.fate_of(seen, Fate::Second, first));
        match (one, other) {
            (Some(Fate::First), Some(Fate::Second)) if self.is_second_sooner() => other,
            (Some(_), _) => one,
            (None, _) => other,
        }
    }

    // The fate of a recording's next frame, where it is the next one of its channel too. `alone` is
    // its fate where only its recording has it, and `counterpart` the other recording's next frame.
    fn fate_of(&self, seen: &Seen, alone: Fate, counterpart: Option<&Seen>) -> Option<Fate> {
        let channel = usize::from(seen.vc);
        let passed = self.passed.get(channel)?;
        match self.lanes.get(channel)?.get(*passed) {
            Some(Fate::Both) if counterpart.is_some_and(|other| other.vc == seen.vc) => {
                Some(Fate::Both)
            }
            Some(fate) if *fate == alone => Some(alone),
            _ => None,
        }
    }

    // Whether the second recording's next frame comes sooner than the first one's, by the positions.
    fn is_second_sooner(&self) -> bool {
        match (self.firsts.first(), self.seconds.first()) {
            (Some(first), Some(second)) => {
                (second.bracket, second.position) < (first.bracket, first.position)
            }
            _ => false,
        }
    }

    // Goes on behind the frames that a fate takes.
    fn pass(&mut self, fate: Fate) {
        let stands = fate.stands();
        if fate.is_of_first() {
            if let Some((seen, later)) = self.firsts.split_first() {
                self.firsts = later;
                self.reach(seen, stands);
            }
        }
        if fate.turned().is_of_first() {
            if let Some((seen, later)) = self.seconds.split_first() {
                self.seconds = later;
                self.reach(seen, stands && fate != Fate::Both);
            }
        }
    }

    // Goes on behind a frame of a channel, where it stands.
    fn reach(&mut self, seen: &Seen, stands: bool) {
        if !stands {
            return;
        }
        if let Some(passed) = self.passed.get_mut(usize::from(seen.vc)) {
            *passed = passed.saturating_add(1);
        }
    }
}
