//! The laws on this crate's definitions. Each function is empty; its clauses are the laws.
//!
//! A run of FARM-1 takes the events of a list one after another, a step for each event. PW and NW
//! are the widths of the positive and the negative part of the window.
ghost use Rattle.sl_cop.specs.Farm.{EachHasStep, HasStepOnce};
ghost use Rattle.sl_cop.specs.Farm.{EachHasRun, HasRunOnce, RunsGoOn, RunsEndInAStep, RunsAreSteps};
ghost use Rattle.sl_cop.specs.Farm.{CopiesAreAcceptedOnce, LockoutRefuses, OnlyUnlockEndsLockout};
ghost use Rattle.sl_cop.specs.Farm.{LockoutLastsUntilUnlock, VrHasACause};
ghost use Rattle.sl_cop.specs.Reordered.{AcceptedInOrder, VrCountsAccepted, InWindowAreNear};
ghost use Rattle.sl_cop.specs.Reordered.{WindowKeepsOpen, ExpectedIsAccepted};
ghost use Rattle.sl_cop.specs.Starts.{ChangedAreStarts, ListsOnce, NamedAreStarts, NamedAreTaken};
ghost use Rattle.sl_cop.specs.Starts.{OneIsChanged, OthersAreKept};

/// The FARM-1 state table has an entry for each state and event: a verdict, and the next state.
/// Where PW and NW together are at most 256, as in each [`Window`](crate::Window), there is only
/// one entry.
pub fn events_have_one_step()
    ensures each { EachHasStep }
    ensures once { HasStepOnce }
{}

/// A list of events has a run from each state. Where PW and NW together are at most 256, there is
/// only one run.
pub fn events_have_one_run()
    ensures each { EachHasRun }
    ensures once { HasRunOnce }
{}

/// A run over a list of events and one more event is a run over the list and then one step. The
/// definitions `verdicts_of` and `state_after` are the verdicts and the last state of a run. For
/// one more event the first has the verdict of this step as its last one, and the second is the
/// state after this step.
pub fn runs_go_on_by_a_step()
    ensures go_on { RunsGoOn }
    ensures end_in { RunsEndInAStep }
    ensures steps { RunsAreSteps }
{}

/// Among frames of type AD in a row that all have the same N(S), at most one is accepted, for every
/// width of the window.
pub fn copies_are_accepted_once()
    ensures { CopiesAreAcceptedOnce }
{}

/// In the lockout state each frame of type AD is refused, and changes nothing. The lockout state
/// lasts until Unlock.
pub fn lockout_lasts_until_unlock()
    ensures refused { LockoutRefuses }
    ensures only { OnlyUnlockEndsLockout }
    ensures until { LockoutLastsUntilUnlock }
{}

/// V(R) changes only by an accepted frame of type AD, and by Set V(R) in the open state.
pub fn vr_has_a_cause()
    ensures { VrHasACause }
{}

/// Copies of frames of type AD are accepted in the order in which the frames were sent.
///
/// The frames were sent with N(S) counting from the initial V(R) on, modulo 256. Their copies
/// arrive in any order, and may be lost or repeated. Frames of type BD and Unlock may arrive among
/// the copies, and Set V(R) doesn't arrive.
///
/// At a copy's arrival one frame is expected. The copy is called near if its own frame was sent
/// less than 256 frames before or after the expected frame. Where all copies are near, the accepted
/// copies are those of the first frames that were sent: in order, each frame once, and none left
/// out. V(R) is then at each moment the initial V(R) plus the number of accepted frames of type AD,
/// modulo 256. Both hold for every width of the window.
///
/// Where PW and NW together are at most 256, and each copy is in the window at its arrival, all
/// copies are near, the Lockout flag is never set, and each copy of the expected frame is accepted.
pub fn copies_are_accepted_in_order()
    ensures order { AcceptedInOrder }
    ensures vr { VrCountsAccepted }
    ensures near { InWindowAreNear }
    ensures open { WindowKeepsOpen }
    ensures expected { ExpectedIsAccepted }
{}

/// A virtual channel that is given an initial V(R) has this value, and every other virtual channel
/// keeps its own. Each of the 64 virtual channels still has one initial V(R), 0 to 255.
pub fn one_start_is_changed()
    ensures changed { OneIsChanged }
    ensures starts { ChangedAreStarts }
{}

/// Each virtual channel that a text names has the initial V(R) that the text names for it, and
/// every other virtual channel keeps its own. Each of the 64 virtual channels still has one initial
/// V(R), 0 to 255.
pub fn named_starts_are_taken()
    ensures named { NamedAreTaken }
    ensures others { OthersAreKept }
    ensures starts { NamedAreStarts }
{}

/// No text can be read as two different lists of virtual channels with their initial V(R).
pub fn texts_list_starts_once()
    ensures { ListsOnce }
{}
