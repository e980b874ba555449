//! The frames of one channel, from one place of one order to the next.
use crate::order::marks::{Ends, Mark, behind, count_in, front};
use crate::order::stretch::Stretch;
use crate::order::taken::{last_count, push_times};
use sl_merge::Fate;
use std::alloc::AllocError;

/// The frames of a channel that are next in both recordings, by their brackets.
#[derive(Clone, Copy)]
pub enum Group {
    /// There are none.
    End,
    /// An anchor.
    Anchor,
    /// Frames of the first recording alone.
    Firsts(usize),
    /// Frames of the second recording alone.
    Seconds(usize),
    /// Frames of both.
    Mixed(usize, usize),
}

/// The frames of a channel that aren't in order yet.
#[derive(Clone, Copy)]
pub struct Channel<'a> {
    firsts: &'a [Mark],
    seconds: &'a [Mark],
    // The count of the frame before them.
    left: Option<u8>,
    // Whether a frame before them is in both recordings.
    met: bool,
    // The bracket of the channel's last anchor.
    last_anchor: u32,
}

impl<'a> Channel<'a> {
    /// All frames of a channel.
    pub fn new(firsts: &'a [Mark], seconds: &'a [Mark]) -> Channel<'a> {
        Channel {
            firsts,
            seconds,
            left: None,
            met: false,
            last_anchor: last_anchor(firsts),
        }
    }

    /// The frames of both that come next, as far as nothing but the counts shows their order.
    pub fn mixed(&self) -> Stretch<'a> {
        let mut firsts = 0usize;
        let mut seconds = 0usize;
        let mut rest = *self;
        for _ in 0..u64::MAX {
            let Group::Mixed(first, second) = rest.group() else {
                break;
            };
            firsts = firsts.saturating_add(first);
            seconds = seconds.saturating_add(second);
            rest.firsts = behind(rest.firsts, first);
            rest.seconds = behind(rest.seconds, second);
        }
        Stretch {
            firsts: front(self.firsts, firsts),
            seconds: front(self.seconds, seconds),
            ends: Ends {
                left: self.left,
                right: rest.next_count(),
            },
        }
    }

    /// Whether a frame before these and one behind them is in both recordings.
    pub fn is_between(&self, stretch: &Stretch<'_>) -> bool {
        match stretch.firsts.first() {
            Some(mark) => self.met && mark.bracket < self.last_anchor,
            None => false,
        }
    }

    /// Goes on behind frames that were put in an order.
    pub fn pass(&mut self, stretch: &Stretch<'_>, order: &[Fate]) {
        self.left = last_count(stretch, order);
        self.met = self.met || order.contains(&Fate::Both);
        self.firsts = behind(self.firsts, stretch.firsts.len());
        self.seconds = behind(self.seconds, stretch.seconds.len());
    }

    /// Goes on behind the frames that come next where they have one order, with their fates added
    /// to `fates`. Answers whether there were any.
    pub fn pass_group(&mut self, fates: &mut Vec<Fate>) -> Result<bool, AllocError> {
        match self.group() {
            Group::End | Group::Mixed(..) => return Ok(false),
            Group::Anchor => {
                fates.push(Fate::Both)?;
                self.met = true;
                self.pass_firsts(1);
                self.seconds = behind(self.seconds, 1);
            }
            Group::Firsts(count) => {
                push_times(fates, Fate::First, count)?;
                self.pass_firsts(count);
            }
            Group::Seconds(count) => {
                push_times(fates, Fate::Second, count)?;
                self.pass_seconds(count);
            }
        }
        Ok(true)
    }

    // Goes on behind frames of the first recording.
    fn pass_firsts(&mut self, count: usize) {
        self.left = front(self.firsts, count).last().map(|mark| mark.count);
        self.firsts = behind(self.firsts, count);
    }

    // Goes on behind frames of the second recording.
    fn pass_seconds(&mut self, count: usize) {
        self.left = front(self.seconds, count).last().map(|mark| mark.count);
        self.seconds = behind(self.seconds, count);
    }

    // The frames that come next.
    fn group(&self) -> Group {
        let bracket = match (self.firsts.first(), self.seconds.first()) {
            (None, None) => return Group::End,
            (Some(first), None) => first.bracket,
            (None, Some(second)) => second.bracket,
            (Some(first), Some(second)) => first.bracket.min(second.bracket),
        };
        if bracket % 2 == 1 {
            return Group::Anchor;
        }
        match (
            count_in(self.firsts, bracket),
            count_in(self.seconds, bracket),
        ) {
            (first, 0) => Group::Firsts(first),
            (0, second) => Group::Seconds(second),
            (first, second) => Group::Mixed(first, second),
        }
    }

    // The count of the frame that comes next, where it is known which one.
    fn next_count(&self) -> Option<u8> {
        let mark = match self.group() {
            Group::Anchor | Group::Firsts(_) => self.firsts.first(),
            Group::Seconds(_) => self.seconds.first(),
            Group::End | Group::Mixed(..) => None,
        };
        mark.map(|mark| mark.count)
    }
}

// The bracket of the last anchor, and 0 where there is none.
fn last_anchor(marks: &[Mark]) -> u32 {
    let mut last = 0;
    for mark in marks {
        if mark.bracket % 2 == 1 {
            last = mark.bracket;
        }
    }
    last
}
