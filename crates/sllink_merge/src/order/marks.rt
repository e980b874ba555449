//! The frames of one channel, and the distances that their counts tell.
use crate::order::seen::Seen;
use std::alloc::{AllocError, Global};

/// A frame of a recording on one channel.
#[derive(Clone, Copy)]
pub struct Mark {
    /// Its place in the recording.
    pub place: u32,
    /// Twice the number of anchors before it, of all channels, and one more for an anchor.
    pub bracket: u32,
    /// How far it is behind the anchor before it.
    pub position: u32,
    /// Its virtual channel frame count.
    pub count: u8,
}

/// The counts of the frames around some frames, where there are any.
#[derive(Clone, Copy)]
pub struct Ends {
    pub left: Option<u8>,
    pub right: Option<u8>,
}

/// The frames of a channel that stand.
pub fn marks_on(alloc: Global, frames: &[Seen], vc: u8) -> Result<Vec<Mark>, AllocError> {
    let mut marks = Vec::new(alloc);
    let mut place = 0u32;
    for seen in frames {
        if seen.vc == vc && seen.stands() {
            marks.push(Mark {
                place,
                bracket: seen.bracket,
                position: seen.position,
                count: seen.count,
            })?;
        }
        place = place.saturating_add(1);
    }
    Ok(marks)
}

/// How many frames later another count comes, 1 to 256.
pub fn step(one: u8, other: u8) -> u16 {
    u16::from(other.wrapping_sub(one).wrapping_sub(1)) + 1
}

/// How far the frame after some frames is from the one before them, by the counts.
pub fn width(marks: &[Mark], left: u8, right: u8) -> i64 {
    let mut last = left;
    let mut width = 0i64;
    for mark in marks {
        width = width.wrapping_add(i64::from(step(last, mark.count)));
        last = mark.count;
    }
    width.wrapping_add(i64::from(step(last, right)))
}

/// How many frames at the front have this bracket.
pub fn count_in(marks: &[Mark], bracket: u32) -> usize {
    marks
        .iter()
        .take_while(|mark| mark.bracket == bracket)
        .count()
}

/// The frames at the front.
pub fn front(marks: &[Mark], count: usize) -> &[Mark] {
    marks.get(..count).unwrap_or(marks)
}

/// The frames behind those at the front.
pub fn behind(marks: &[Mark], count: usize) -> &[Mark] {
    marks.get(count..).unwrap_or(&[])
}

/// A place at which frames that came after it are pushed on by a number: those lost in an outage.
#[derive(Clone, Copy)]
pub struct Outage {
    /// How many of the frames came before it.
    pub before: usize,
    /// How many frames were lost beyond what the counts tell.
    pub lost: i64,
}

/// No outage.
pub const NO_OUTAGE: Outage = Outage { before: 0, lost: 0 };

/// Frames of one channel, numbered by their counts.
#[derive(Clone, Copy)]
pub struct Numbered<'a> {
    marks: &'a [Mark],
    number: i64,
    passed: usize,
    outage: Outage,
}

impl<'a> Numbered<'a> {
    /// Numbers frames from the first one's number on, as if there were no outage.
    pub fn new(marks: &'a [Mark], first: i64, outage: Outage) -> Numbered<'a> {
        let mut numbered = Numbered {
            marks,
            number: first,
            passed: 0,
            outage,
        };
        numbered.cross();
        numbered
    }

    /// The next frame, and its number.
    pub fn next_frame(&self) -> Option<(Mark, i64)> {
        let mark = self.marks.first()?;
        Some((*mark, self.number))
    }

    /// Goes on behind the next frame.
    pub fn pass(&mut self) {
        let Some((mark, later)) = self.marks.split_first() else {
            return;
        };
        if let Some(next) = later.first() {
            let distance = i64::from(step(mark.count, next.count));
            self.number = self.number.wrapping_add(distance);
        }
        self.marks = later;
        self.passed = self.passed.saturating_add(1);
        self.cross();
    }

    // Pushes the number on where the outage was.
    fn cross(&mut self) {
        if self.passed == self.outage.before {
            self.number = self.number.wrapping_add(self.outage.lost);
        }
    }
}
