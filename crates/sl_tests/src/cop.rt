//! The edges of the window, and runs with their words. The values follow from the table of FARM-1
//! and from the bits of the word.
mod starts;

use crate::support::cop::window;
use crate::support::rows::{Stop, holds, passes};
use sl_cop::{Farm, FarmEvent, Verdict};
use std::process::Abort;

// The width of the window; counted from V(R), the last number in its positive part and the first
// one in its negative part.
const EDGES: [(u8, u8, u8); 3] = [(2, 0, 255), (10, 4, 251), (254, 126, 129)];

// An event, the verdict on it, and the word of a virtual channel after it.
type Answer = (FarmEvent, Verdict, [u8; 4]);

// Answers of a FARM-1 with a window of 10 and V(R) 0 at the start, with the words of this virtual
// channel; and the word of another one after them.
type Run<'a> = (u8, &'a [Answer], (u8, [u8; 4]));

static RUNS: [Run; 6] = [
    (0, &[], (0, [1, 0, 0, 0])),
    (
        0,
        &[
            (FarmEvent::Ad(0), Verdict::Accept, [1, 0, 0, 1]),
            (FarmEvent::Ad(0), Verdict::Late, [1, 0, 0, 1]),
            (FarmEvent::Ad(1), Verdict::Accept, [1, 0, 0, 2]),
            (FarmEvent::SetVr(5), Verdict::Command, [1, 0, 2, 5]),
        ],
        (63, [1, 0xFC, 2, 5]),
    ),
    (
        0,
        &[
            (FarmEvent::Ad(4), Verdict::Early, [1, 0, 8, 0]),
            (FarmEvent::Ad(251), Verdict::Late, [1, 0, 8, 0]),
            (FarmEvent::Ad(5), Verdict::Outside, [1, 0, 0x28, 0]),
            (FarmEvent::Ad(0), Verdict::Refused, [1, 0, 0x28, 0]),
        ],
        (63, [1, 0xFC, 0x28, 0]),
    ),
    (
        0,
        &[
            (FarmEvent::Ad(250), Verdict::Outside, [1, 0, 0x20, 0]),
            (FarmEvent::SetVr(5), Verdict::Command, [1, 0, 0x22, 0]),
            (FarmEvent::Bd, Verdict::Accept, [1, 0, 0x24, 0]),
            (FarmEvent::Unlock, Verdict::Command, [1, 0, 6, 0]),
        ],
        (63, [1, 0xFC, 6, 0]),
    ),
    // The counter of frames that bypass the acceptance checks.
    (
        0,
        &[
            (FarmEvent::Bd, Verdict::Accept, [1, 0, 2, 0]),
            (FarmEvent::Bd, Verdict::Accept, [1, 0, 4, 0]),
            (FarmEvent::Bd, Verdict::Accept, [1, 0, 6, 0]),
            (FarmEvent::Bd, Verdict::Accept, [1, 0, 0, 0]),
        ],
        (63, [1, 0xFC, 0, 0]),
    ),
    // The words of virtual channel 5.
    (
        5,
        &[
            (FarmEvent::Ad(0), Verdict::Accept, [1, 0x14, 0, 1]),
            (FarmEvent::Ad(1), Verdict::Accept, [1, 0x14, 0, 2]),
            (FarmEvent::Ad(2), Verdict::Accept, [1, 0x14, 0, 3]),
        ],
        (63, [1, 0xFC, 0, 3]),
    ),
];

// V(R), the Lockout flag, the Retransmit flag and the FARM-B counter.
type State = (u8, bool, bool, u8);

// The state of a FARM-1 with a window of 10 and V(R) 7 at the start, after each event.
static STATES: [(FarmEvent, State); 7] = [
    (FarmEvent::Ad(7), (8, false, false, 0)),
    (FarmEvent::Bd, (8, false, false, 1)),
    (FarmEvent::Ad(9), (8, false, true, 1)),
    (FarmEvent::Ad(100), (8, true, true, 1)),
    (FarmEvent::Bd, (8, true, true, 2)),
    (FarmEvent::SetVr(3), (8, true, true, 3)),
    (FarmEvent::Unlock, (8, false, false, 0)),
];

// What becomes of a frame this far ahead of V(R): the positive part ends with `last_early`, and the
// negative part begins with `first_late`.
fn expected(ahead: u8, last_early: u8, first_late: u8) -> Verdict {
    if ahead == 0 {
        Verdict::Accept
    } else if ahead <= last_early {
        Verdict::Early
    } else if ahead >= first_late {
        Verdict::Late
    } else {
        Verdict::Outside
    }
}

// Whether a frame this far ahead of this V(R) has its verdict, and leaves V(R) as it should be.
fn is_edge(edges: &(u8, u8, u8), before: u8, ahead: u8) -> Result<bool, Stop> {
    let (width, last_early, first_late) = *edges;
    let mut farm = Farm::new(window(width)?, before);
    let verdict = farm.step(FarmEvent::Ad(ahead.wrapping_add(before)));
    let after = before.wrapping_add(u8::from(ahead == 0));
    Ok(verdict == expected(ahead, last_early, first_late) && farm.vr() == after)
}

#[test]
fn widths_and_edges_of_windows(rt: HostRuntime) {
    for w in 0..=255 {
        holds(&rt, &w, window(w).is_ok() == (w != 0 && w % 2 == 0));
    }
    for edges in &EDGES {
        for ahead in 0..=255 {
            passes(&rt, &(edges, ahead), is_edge(edges, 0, ahead));
            passes(&rt, &(edges, ahead), is_edge(edges, 200, ahead));
        }
    }
}

// Whether FARM-1 answers all events of a run so, and a virtual channel then has its word.
fn are_answers(rt: &impl Abort, run: &Run) -> Result<bool, Stop> {
    let (vc, answers, (other, last)) = *run;
    if vc > 63 || other > 63 {
        return Err(Stop::Absent);
    }
    let mut farm = Farm::new(window(10)?, 0);
    for answer in answers {
        let found = (farm.step(answer.0), farm.clcw(vc).write());
        holds(rt, answer, found == (answer.1, answer.2));
    }
    Ok(farm.clcw(other).write() == last)
}

#[test]
fn words_after_each_event(rt: HostRuntime) {
    for run in &RUNS {
        passes(&rt, run, are_answers(&rt, run));
    }
}

// Whether each event leads to a state, from which the same FARM-1 is restored; the window stays the
// same, and no state goes beyond the bits.
fn are_stored(rt: &impl Abort) -> Result<bool, Stop> {
    let mut farm = Farm::new(window(10)?, 7);
    for (event, state) in &STATES {
        farm.step(*event);
        let stored = (farm.vr(), farm.lockout(), farm.retransmit(), farm.farm_b());
        let (vr, lockout, retransmit, farm_b) = *state;
        let restored = Farm::restore(farm.window(), vr, lockout, retransmit, farm_b);
        holds(
            rt,
            &(event, state),
            stored == *state && restored == Some(farm),
        );
    }
    let beyond = Farm::restore(farm.window(), 8, false, false, 4);
    Ok(farm.window().width() == 10 && beyond.is_none())
}

#[test]
fn a_state_is_stored_and_restored(rt: HostRuntime) {
    passes(&rt, &"all states", are_stored(&rt));
}
