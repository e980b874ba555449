//! The orders of all channels.
use crate::order::channel::Channel;
use crate::order::choice::{Care, Choice, choose, is_idle};
use crate::order::marks::{Mark, marks_on};
use crate::order::misplaced::leave_misplaced;
use crate::order::numbers::Both;
use crate::order::seen::{Role, Seen};
use crate::order::stretch::{Stretch, order_stretch};
use crate::order::taken::Left;
use sl_merge::Fate;
use std::alloc::{AllocError, Global};

/// Virtual channels have the numbers 0 to 7.
const CHANNELS: u8 = 8;

/// The frames of both recordings.
#[derive(Drop)]
pub struct Frames {
    pub firsts: Vec<Seen>,
    pub seconds: Vec<Seen>,
}

impl Frames {
    /// Leaves no frame out but those that are skipped or repeats.
    pub fn put_back(&mut self) {
        put_back(&mut self.firsts);
        put_back(&mut self.seconds);
    }
}

fn put_back(frames: &mut [Seen]) {
    for seen in frames.iter_mut() {
        if seen.role == Role::LeftOut {
            seen.role = Role::Stands;
        }
    }
}

/// For how many stretches something was chosen.
#[derive(Clone, Copy)]
pub struct Choices {
    pub idle: u64,
    pub outages: u64,
    pub orders: u64,
    pub frames: u64,
}

impl Choices {
    /// Nothing was chosen.
    pub fn none() -> Choices {
        Choices {
            idle: 0,
            outages: 0,
            orders: 0,
            frames: 0,
        }
    }

    // Counts what was chosen for a stretch.
    fn count(&mut self, choice: Choice) {
        match choice {
            Choice::Nothing => {}
            Choice::Idle => self.idle = self.idle.saturating_add(1),
            Choice::Outage => self.outages = self.outages.saturating_add(1),
            Choice::Order => self.orders = self.orders.saturating_add(1),
            Choice::Frames => self.frames = self.frames.saturating_add(1),
        }
    }
}

/// Puts the frames of each channel in order: a lane a channel, with the fates of its frames that
/// stand. The others are marked in `frames`.
pub fn order_lanes(
    alloc: Global,
    both: &Both<'_>,
    frames: &mut Frames,
    care: Care,
    choices: &mut Choices,
) -> Result<Vec<Vec<Fate>>, AllocError> {
    let mut lanes = Vec::new(alloc);
    for vc in 0..CHANNELS {
        lanes.push(order_lane(alloc, both, frames, vc, care, choices)?)?;
    }
    Ok(lanes)
}

// The lane of a channel.
fn order_lane(
    alloc: Global,
    both: &Both<'_>,
    frames: &mut Frames,
    vc: u8,
    care: Care,
    choices: &mut Choices,
) -> Result<Vec<Fate>, AllocError> {
    let firsts = marks_on(alloc, &frames.firsts, vc)?;
    let seconds = marks_on(alloc, &frames.seconds, vc)?;
    let order = order_marks(alloc, both, (&firsts, &seconds), care, choices)?;
    lane_of(alloc, frames, (&firsts, &seconds), order.as_slice())
}

// The fates of the frames of a channel, with those left out that are amid a run of the other
// recording.
fn order_marks(
    alloc: Global,
    both: &Both<'_>,
    (firsts, seconds): (&[Mark], &[Mark]),
    care: Care,
    choices: &mut Choices,
) -> Result<Vec<Fate>, AllocError> {
    let mut channel = Channel::new(firsts, seconds);
    let mut order = order_channel(alloc, both, &mut channel, care, choices)?;
    if !both.one.fecf() {
        let left = leave_misplaced(alloc, firsts, seconds, order.as_mut_slice())?;
        choices.frames = choices.frames.saturating_add(left);
    }
    Ok(order)
}

// The fates of the frames of a channel.
fn order_channel(
    alloc: Global,
    both: &Both<'_>,
    channel: &mut Channel<'_>,
    care: Care,
    choices: &mut Choices,
) -> Result<Vec<Fate>, AllocError> {
    let mut fates = Vec::new(alloc);
    let mut order = Vec::new(alloc);
    for _ in 0..u64::MAX {
        let stretch = channel.mixed();
        if stretch.firsts.is_empty() {
            if !channel.pass_group(&mut fates)? {
                break;
            }
        } else {
            let is_between = channel.is_between(&stretch);
            let choice = order_mixed(alloc, both, &stretch, (care, is_between), &mut order)?;
            choices.count(choice);
            channel.pass(&stretch, order.as_slice());
            fates.extend_from_slice(order.as_slice())?;
        }
    }
    Ok(fates)
}

// Puts the frames of a stretch in order, into `order`, and answers what was chosen.
fn order_mixed(
    alloc: Global,
    both: &Both<'_>,
    stretch: &Stretch<'_>,
    (care, is_between): (Care, bool),
    order: &mut Vec<Fate>,
) -> Result<Choice, AllocError> {
    order.clear();
    let known = order_stretch(alloc, both, stretch, order)?;
    let choice = choose(both, stretch, (known, care), is_between, order)?;
    Ok(as_idle(both, stretch, choice))
}

// What was chosen; among idle frames alone no choice matters.
fn as_idle(both: &Both<'_>, stretch: &Stretch<'_>, choice: Choice) -> Choice {
    if choice != Choice::Nothing && is_idle(both, stretch) {
        Choice::Idle
    } else {
        choice
    }
}

// The fates of the frames that stand. A frame before the first one of both recordings, or behind
// the last one, isn't left out.
fn lane_of(
    alloc: Global,
    frames: &mut Frames,
    marks: (&[Mark], &[Mark]),
    order: &[Fate],
) -> Result<Vec<Fate>, AllocError> {
    let begun = order.iter().take_while(|fate| **fate != Fate::Both).count();
    let ended = end_of(order);
    let mut lane = Vec::with_capacity(alloc, order.len())?;
    let mut left = Left {
        firsts: marks.0,
        seconds: marks.1,
    };
    for (at, fate) in order.iter().enumerate() {
        let taken = left.take(*fate);
        match stands_as(*fate, begun < at && at < ended) {
            Some(fate) => lane.push(fate)?,
            None => {
                set_left_out(&mut frames.firsts, taken.first);
                set_left_out(&mut frames.seconds, taken.second);
            }
        }
    }
    Ok(lane)
}

// The place of the last frame of both recordings.
fn end_of(order: &[Fate]) -> usize {
    let mut end = 0;
    for (at, fate) in order.iter().enumerate() {
        if *fate == Fate::Both {
            end = at;
        }
    }
    end
}

// The fate as which a frame stands, where it does.
fn stands_as(fate: Fate, may_leave_out: bool) -> Option<Fate> {
    match fate {
        Fate::FirstLeftOut if may_leave_out => None,
        Fate::SecondLeftOut if may_leave_out => None,
        Fate::FirstLeftOut => Some(Fate::First),
        Fate::SecondLeftOut => Some(Fate::Second),
        fate => Some(fate),
    }
}

// The frame is left out.
fn set_left_out(frames: &mut [Seen], mark: Option<Mark>) {
    let Some(mark) = mark else {
        return;
    };
    if let Some(seen) = frames.get_mut(mark.place as usize) {
        seen.role = Role::LeftOut;
    }
}
