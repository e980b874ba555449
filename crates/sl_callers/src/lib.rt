//! Callers with contracts of their own, which public clauses and laws of the libraries prove. The
//! gate refuses a wrong body of each; what they answer is tested in `sl_tests`. Here stand those of
//! FARM-1. They are lent a FARM-1 and a window: nothing is known of how these were made.
#![tactic(auto)]

pub mod extractor;
pub mod forms;
pub mod receiver;

ghost use Rattle.std.specs.Prelude.{◌≡◌, [], ◌∷◌, List};
ghost use Rattle.sl_cop.specs.Farm.{FarmState, IsRun, IsStep, farm_start};
ghost use Rattle.sl_cop.specs.declared.verdict.Verdict as specs;

use sl_cop::laws::{events_have_one_run, events_have_one_step};
use sl_cop::{Farm, FarmEvent, Verdict, Window};

/// The next step of FARM-1, on a copy. The step is a case of the table, and the table has no other.
/// The copy keeps the window.
pub fn next_step(farm: &Farm, event: FarmEvent) -> (Verdict, Farm)
    ensures is { IsStep farm.now.window farm.now.state event result.0 result.1.state }
    ensures only { (verdict : specs.Verdict) (t : FarmState)
        → IsStep farm.now.window farm.now.state event verdict t
        → (result.0 ≡ verdict) × (result.1.state ≡ t) }
    ensures window { result.1.window ≡ farm.now.window }
{
    // For the proof alone: the first call gives the premise of the law, and the second the law.
    let _ = farm.window();
    events_have_one_step();
    let mut next = *farm;
    let verdict = next.step(event);
    (verdict, next)
}

/// The verdicts on two events from a V(R) on. Every run over these events has these verdicts.
pub fn two_steps(window: &Window, vr: u8, first: FarmEvent, second: FarmEvent) -> (Verdict, Verdict)
    ensures { (verdicts : List specs.Verdict) (t : FarmState)
        → IsRun window.now (farm_start vr) (first ∷ second ∷ []) verdicts t
        → result.0 ∷ result.1 ∷ [] ≡ verdicts }
{
    // For the proof alone, as above.
    let _ = window.width();
    events_have_one_run();
    let mut farm = Farm::new(*window, vr);
    let verdict = farm.step(first);
    (verdict, farm.step(second))
}
