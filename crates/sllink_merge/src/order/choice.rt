//! What is chosen where the counts don't tell an order.
use crate::order::marks::step;
use crate::order::numbers::{Both, order_by_bracket, order_by_position};
use crate::order::stretch::{Known, Stretch};
use crate::order::taken::{Left, push_times};
use sl_merge::Fate;
use std::alloc::AllocError;

/// How much is chosen where the counts leave an order open.
#[derive(Clone, Copy, PartialEq)]
pub enum Care {
    /// The likeliest way is taken; where several are likely between two frames of both, one
    /// recording's frames are left out.
    Likeliest,
    /// The order goes by the master channel frame counts between the anchors of all channels.
    ByPosition,
    /// One recording's frames are left out, also where an outage was, and what the counts tell
    /// from one side alone isn't believed.
    LeaveOut,
}

/// What was chosen for a stretch.
#[derive(Clone, Copy, PartialEq)]
pub enum Choice {
    /// Nothing: its order is known.
    Nothing,
    /// Which of some equal idle frames are the same.
    Idle,
    /// Where 256 frames in a row or more were lost, of which one way is left.
    Outage,
    /// The order: all frames stand.
    Order,
    /// One recording's frames are left out.
    Frames,
}

/// Chooses an order of a stretch, in place of the one that was found where that isn't enough.
/// Frames may be left out only where `may_leave_out` is set.
pub fn choose(
    both: &Both<'_>,
    stretch: &Stretch<'_>,
    (known, care): (Known, Care),
    may_leave_out: bool,
    order: &mut Vec<Fate>,
) -> Result<Choice, AllocError> {
    match (care, known) {
        (_, Known::Sure | Known::Idle) if stretch.has_open_end() && care != Care::Likeliest => {}
        (_, Known::Sure) => return Ok(Choice::Nothing),
        (Care::LeaveOut, _) | (Care::Likeliest, Known::Open) if may_leave_out => {
            return leave_out(stretch, order);
        }
        (Care::LeaveOut, _) | (_, Known::Undecided) | (Care::ByPosition, Known::Open) => {}
        (_, Known::Idle) => return Ok(Choice::Idle),
        (_, Known::Outage) => return Ok(Choice::Outage),
        (_, Known::Open) => return Ok(Choice::Order),
    }
    order_by_position(both, stretch, order)?;
    if breaks_run(stretch, order.as_slice()) {
        if may_leave_out {
            return leave_out(stretch, order);
        }
        stand_apart(both, stretch, order)?;
    }
    Ok(Choice::Order)
}

// Of one bracket, one recording's frames stand before the other's, where that breaks no run; else
// the order goes by the positions.
fn stand_apart(
    both: &Both<'_>,
    stretch: &Stretch<'_>,
    order: &mut Vec<Fate>,
) -> Result<(), AllocError> {
    for earlier in [Fate::First, Fate::Second] {
        order_by_bracket(stretch, earlier, order)?;
        if !breaks_run(stretch, order.as_slice()) {
            return Ok(());
        }
    }
    order_by_position(both, stretch, order)
}

/// Whether a stretch has idle frames alone.
pub fn is_idle(both: &Both<'_>, stretch: &Stretch<'_>) -> bool {
    stretch
        .firsts
        .iter()
        .all(|mark| both.one.is_idle(mark.place))
        && stretch
            .seconds
            .iter()
            .all(|mark| both.other.is_idle(mark.place))
}

// Whether an order has a frame between two of the other recording whose counts follow.
fn breaks_run(stretch: &Stretch<'_>, order: &[Fate]) -> bool {
    let mut firsts = Run::after(stretch.ends.left);
    let mut seconds = Run::after(stretch.ends.left);
    let mut left = Left::of(stretch);
    let mut broken = false;
    for fate in order {
        let taken = left.take(*fate);
        if fate.stands() {
            let first = taken.first.map(|mark| mark.count);
            let second = taken.second.map(|mark| mark.count);
            broken = firsts.is_broken_at(first) || broken;
            broken = seconds.is_broken_at(second) || broken;
        }
    }
    let right = stretch.ends.right;
    right.is_some() && (firsts.is_broken_at(right) || seconds.is_broken_at(right)) || broken
}

/// A recording's last frame on a channel.
#[derive(Clone, Copy)]
struct Run {
    count: Option<u8>,
    // Whether a frame of the other recording came since.
    parted: bool,
}

impl Run {
    fn after(count: Option<u8>) -> Run {
        Run {
            count,
            parted: false,
        }
    }

    // Goes on to the recording's next frame, or to one of the other recording, and answers whether
    // that is a frame after the other's whose count follows that of the last one.
    fn is_broken_at(&mut self, count: Option<u8>) -> bool {
        let Some(next) = count else {
            self.parted = true;
            return false;
        };
        let follows = self.count.is_some_and(|last| step(last, next) == 1);
        let broken = self.parted && follows;
        self.count = count;
        self.parted = false;
        broken
    }
}

// The frames of the recording that has more of them stand, and the others are left out.
fn leave_out(stretch: &Stretch<'_>, order: &mut Vec<Fate>) -> Result<Choice, AllocError> {
    let (firsts, seconds) = (stretch.firsts.len(), stretch.seconds.len());
    order.clear();
    if stretch.has_first_more() {
        push_times(order, Fate::First, firsts)?;
        push_times(order, Fate::SecondLeftOut, seconds)?;
    } else {
        push_times(order, Fate::Second, seconds)?;
        push_times(order, Fate::FirstLeftOut, firsts)?;
    }
    Ok(Choice::Frames)
}
