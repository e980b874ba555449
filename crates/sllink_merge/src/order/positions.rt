//! Where frames stand between two anchors, by the master channel frame counts.
use crate::order::lanes::Frames;
use crate::order::marks::step;
use crate::order::seen::{Role, Seen};
use std::alloc::{AllocError, Global};

/// The frames of a recording between two anchors.
#[derive(Clone, Copy)]
struct Reach {
    /// How far the anchor behind them is from the one before them, by the counts.
    width: u32,
    /// Where the widest gap is, in which an outage is the likeliest: how far it is from the anchor
    /// before.
    gap: u32,
    /// The step of this gap.
    step: u32,
}

/// Gives all frames their positions: how far they are behind the anchor before them. Where the
/// recordings don't agree on how far two anchors are apart, the one that says less is taken to have
/// had an outage in its widest gap. Before the first anchor frames are placed from it back. With
/// `parts` the one with the widest gap before the first anchor, or behind the last one, had an outage
/// there, during which the other has all its frames.
pub fn set_positions(alloc: Global, frames: &mut Frames, parts: bool) -> Result<(), AllocError> {
    let firsts = reaches(alloc, &mut frames.firsts)?;
    let seconds = reaches(alloc, &mut frames.seconds)?;
    align(&mut frames.firsts, &firsts, &seconds);
    align(&mut frames.seconds, &seconds, &firsts);
    if parts {
        part_ends(&mut frames.firsts, &firsts, &seconds);
        part_ends(&mut frames.seconds, &seconds, &firsts);
    }
    Ok(())
}

// Places frames by the counts alone, and answers how far they reach before, between and behind the
// anchors.
fn reaches(alloc: Global, frames: &mut [Seen]) -> Result<Vec<Reach>, AllocError> {
    let mut reaches = Vec::new(alloc);
    let mut reach = NONE;
    let mut last = None;
    for seen in frames.iter_mut() {
        if seen.stands() {
            reach = reach.with(last, seen.mc_count);
            last = Some(seen.mc_count);
            seen.position = reach.width;
            if seen.role == Role::Anchor {
                reaches.push(reach)?;
                reach = NONE;
            }
        }
    }
    reaches.push(reach)?;
    Ok(reaches)
}

/// No frame.
const NONE: Reach = Reach {
    width: 0,
    gap: 0,
    step: 0,
};

impl Reach {
    // The position of a frame before the first anchor, where one before an outage comes first of all.
    fn parted_front(&self, other: &Reach, position: u32) -> u32 {
        let lost = other.width.saturating_sub(self.width);
        if self.step > other.step && position <= self.gap.saturating_add(lost) {
            0
        } else {
            position.saturating_add(1)
        }
    }

    // With one more frame.
    fn with(self, last: Option<u8>, mc_count: u8) -> Reach {
        let step = match last {
            Some(last) => u32::from(step(last, mc_count)),
            None => 0,
        };
        let width = self.width.saturating_add(step);
        if step > self.step {
            Reach {
                width,
                gap: self.width,
                step,
            }
        } else {
            Reach { width, ..self }
        }
    }
}

// Pushes on the frames of a recording that lie behind an outage and before an anchor.
fn align(frames: &mut [Seen], own: &[Reach], others: &[Reach]) {
    let anchors = own.len().saturating_sub(1);
    for seen in frames.iter_mut() {
        let at = (seen.bracket / 2) as usize;
        if let (Some(reach), Some(other)) = (own.get(at), others.get(at)) {
            if at < anchors && (at == 0 || seen.position > reach.gap) {
                let lost = other.width.saturating_sub(reach.width);
                seen.position = seen.position.saturating_add(lost);
            }
        }
    }
}

// Parts the frames of a recording that lie before or behind an outage at either end from the other
// recording's.
fn part_ends(frames: &mut [Seen], own: &[Reach], others: &[Reach]) {
    let anchors = own.len().saturating_sub(1);
    for seen in frames.iter_mut() {
        let at = (seen.bracket / 2) as usize;
        if let (Some(reach), Some(other)) = (own.get(at), others.get(at)) {
            if at == 0 {
                seen.position = reach.parted_front(other, seen.position);
            } else if at == anchors && reach.step > other.step && seen.position > reach.gap {
                seen.position = seen.position.saturating_add(other.width).saturating_add(1);
            }
        }
    }
}
