//! FARM-1 on one virtual channel, which C keeps.
ghost use Rattle.std.specs.Prelude.{◌≡◌, ◌≢◌, ◌≤◌, ◌<◌, IfNone, IfSome, MatchResult};
ghost use Rattle.sl_cop.specs.Farm.{IsWidth, farm_start, farm_step};
ghost use Rattle.sl_cop.specs.FarmClcw.{clcw_of};
ghost use Rattle.sl_fields.specs.Clcw.{clcw_octets};
ghost use Rattle.sl_c.specs.Answer.{Says};
ghost use Rattle.sl_c.specs.Farm.{IsKeptFarm, IsNoFarm, numbered_event, number_of_verdict, state_of};

use crate::answer::Answer;
use sl_cop::{Farm, FarmEvent, Verdict, Window};

/// A FARM-1: the width of its window, even, 2 to 254; V(R); the Lockout flag; the Retransmit flag;
/// and the FARM-B counter, 0 to 3. C may write other values, under which a step and a CLCW are
/// refused.
#[repr(C)]
#[derive(Clone, Copy)]
pub struct FarmFields {
    pub window: u8,
    pub vr: u8,
    pub lockout: bool,
    pub retransmit: bool,
    pub farm_b: u8,
}

/// Makes a FARM-1 in the open state, with a window of this width, this V(R), Retransmit flag 0 and
/// FARM-B counter 0. The answer is `Done`. Where the width is 0 or odd the answer is `Window`, and
/// nothing is written.
#[unsafe(no_mangle)]
pub extern "C" fn sllink_farm_new(farm: &mut FarmFields, window: u8, vr: u8) -> u32
    ensures made { IsWidth window → Says result Answer.Done
        × (farm.new.window ≡ window) × (state_of farm.new ≡ farm_start vr) }
    ensures refused { (IsWidth window → ⊥) → Says result Answer.Window × (farm.new ≡ farm.old) }
{
    match Window::new(window) {
        Some(window) => {
            *farm = fields(&Farm::new(window, vr));
            Answer::Done.number()
        }
        None => Answer::Window.number(),
    }
}

/// Takes the next frame of the virtual channel: writes FARM-1's verdict on the frame to `verdict`,
/// and the state after the frame to `farm`. The answer is `Done`. Where `farm` is no FARM-1 the
/// answer is `Window` or `Counter`, and where there is no such event `Event`. Nothing is written
/// then.
///
/// The event is 0 for a frame of type AD, whose N(S) is `number`; 1 for a frame of type BD; 2 for
/// Unlock; and 3 for Set V(R) to `number`. The verdict is 0 for `Accept`, and 1 to 5 for `Early`,
/// `Late`, `Outside`, `Refused` and `Command`.
#[unsafe(no_mangle)]
pub extern "C" fn sllink_farm_step(
    farm: &mut FarmFields,
    event: u32,
    number: u8,
    verdict: &mut u32,
) -> u32
    // A step of FARM-1,
    ensures stepped { IsKeptFarm farm.old → IfSome (numbered_event event number) (λ event.
        Says result Answer.Done × (farm.new.window ≡ farm.old.window)
        × (state_of farm.new ≡ (farm_step farm.old.window (state_of farm.old) event).1)
        × (verdict.new ≡ number_of_verdict
        (farm_step farm.old.window (state_of farm.old) event).0)) }
    // or why there is none, and all is as it was.
    ensures window { (IsWidth farm.old.window → ⊥) → Says result Answer.Window }
    ensures counter { IsWidth farm.old.window → 3 < farm.old.farm_b → Says result Answer.Counter }
    ensures event { IsKeptFarm farm.old
        → IfNone (numbered_event event number) (Says result Answer.Event) }
    ensures kept { result ≢ 0 → (farm.new ≡ farm.old) × (verdict.new ≡ verdict.old) }
{
    let mut stepped = match restored(farm) {
        Ok(farm) => farm,
        Err(answer) => return answer.number(),
    };
    match frame_event(event, number) {
        Some(event) => {
            *verdict = verdict_number(stepped.step(event));
            *farm = fields(&stepped);
            Answer::Done.number()
        }
        None => Answer::Event.number(),
    }
}

/// Writes the CLCW that reports the state, for the virtual channel 0 to 63, as its four octets. The
/// answer is `Done`. Where `farm` is no FARM-1 the answer is `Window` or `Counter`, and where `vc`
/// is over 63 `VirtualChannel`. Nothing is written then.
#[unsafe(no_mangle)]
pub extern "C" fn sllink_farm_clcw(farm: &FarmFields, vc: u8, clcw: &mut [u8; 4]) -> u32
    // The word of the state,
    ensures written { IsKeptFarm farm.now → vc ≤ 63 → Says result Answer.Done
        × (clcw.new ≡ clcw_octets (clcw_of vc (state_of farm.now))) }
    // or why there is none, and nothing is written.
    ensures window { (IsWidth farm.now.window → ⊥) → Says result Answer.Window }
    ensures counter { IsWidth farm.now.window → 3 < farm.now.farm_b → Says result Answer.Counter }
    ensures channel { IsKeptFarm farm.now → 63 < vc → Says result Answer.VirtualChannel }
    ensures kept { result ≢ 0 → clcw.new ≡ clcw.old }
{
    let restored = match restored(farm) {
        Ok(farm) => farm,
        Err(answer) => return answer.number(),
    };
    if vc > 63 {
        return Answer::VirtualChannel.number();
    }
    *clcw = restored.clcw(vc).write();
    Answer::Done.number()
}

/// V(R), which is the N(S) of the frame that is expected next. The other fields aren't looked at.
#[unsafe(no_mangle)]
pub extern "C" fn sllink_farm_vr(farm: &FarmFields) -> u8
    ensures { result ≡ (state_of farm.now).vr }
{
    farm.vr
}

// A FARM-1 as C keeps it.
fn fields(farm: &Farm) -> FarmFields
    ensures window { result.window ≡ farm.now.window }
    ensures state { state_of result ≡ farm.now.state }
{
    FarmFields {
        window: farm.window().width(),
        vr: farm.vr(),
        lockout: farm.lockout(),
        retransmit: farm.retransmit(),
        farm_b: farm.farm_b(),
    }
}

// The FARM-1 that C keeps, or why it is none.
fn restored(farm: &FarmFields) -> Result<Farm, Answer>
    ensures { MatchResult result (λ restored. IsKeptFarm farm.now
        × (restored.window ≡ farm.now.window) × (restored.state ≡ state_of farm.now))
        (IsNoFarm farm.now) }
{
    let window = match Window::new(farm.window) {
        Some(window) => window,
        None => return Err(Answer::Window),
    };
    match Farm::restore(window, farm.vr, farm.lockout, farm.retransmit, farm.farm_b) {
        Some(restored) => Ok(restored),
        None => Err(Answer::Counter),
    }
}

// The event with this number, and with its N(S) or V(R).
fn frame_event(event: u32, number: u8) -> Option<FarmEvent>
    ensures { result ≡ numbered_event event number }
{
    match event {
        0 => Some(FarmEvent::Ad(number)),
        1 => Some(FarmEvent::Bd),
        2 => Some(FarmEvent::Unlock),
        3 => Some(FarmEvent::SetVr(number)),
        _ => None,
    }
}

// The number of a verdict.
fn verdict_number(verdict: Verdict) -> u32
    ensures { result ≡ number_of_verdict verdict }
{
    match verdict {
        Verdict::Accept => 0,
        Verdict::Early => 1,
        Verdict::Late => 2,
        Verdict::Outside => 3,
        Verdict::Refused => 4,
        Verdict::Command => 5,
    }
}
