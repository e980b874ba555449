//! FARM-1 of each virtual channel.
ghost use Rattle.std.specs.Prelude.{◌≡◌, ◌≤◌, ◌++◌, ◌∷◌, [], List};
ghost use Rattle.sl_cop.specs.FarmClcw.{clcw_of};
ghost use Rattle.sl_tcframe.specs.TcContent.{content};
ghost use Rattle.sl_tcframe.specs.TcFrame.{TcView};
ghost use Rattle.sl_tcflow.specs.AcceptedUnit.{event_of};
ghost use Rattle.sl_tcflow.specs.Farms.{HaveStepped, farm_of, verdict_on};
ghost use Rattle.sl_tcflow.specs.ReceptionParameters.{ReceptionParameters};

use sl_cop::{Farm, FarmEvent, Starts, Verdict, Window};
use sl_fields::Clcw;
use sl_tcframe::{TcContent, TcFrame};
use std::marker::Model;

/// FARM-1 (CCSDS 232.1-B) on each of the 64 virtual channels of TC transfer frames (CCSDS 232.0-B).
/// The frames are given one after another, also those that FARM-1 doesn't accept.
#[derive(Drop)]
pub struct Farms {
    farms: [Farm; 64],
}

impl Model for Farms {
    ghost use Rattle.std.specs.Prelude.{List};
    ghost use Rattle.sl_cop.specs.Farm.{FarmView};

    ghost Value = { List FarmView };

    ghost view = { λ f. f.farms };
}

impl Farms {
    /// FARM-1 of each virtual channel before its first frame: open, with this window and with the
    /// initial V(R) that `starts` has for the virtual channel.
    pub fn new(window: Window, starts: &Starts) -> Farms
        // `r` are any parameters with this window and these initial V(R). No frame was taken yet.
        ensures { (r : ReceptionParameters) → r.window ≡ window → r.starts ≡ starts.now
            → HaveStepped r result [] }
    {
        let mut farms = [Farm::new(window, 0); 64];
        for vc in 0..64 {
            farms[usize::from(vc)] = Farm::new(window, starts.start(vc));
        }
        Farms { farms }
    }

    /// Takes the next frame: steps FARM-1 of the frame's virtual channel, and answers its verdict.
    /// FARM-1 of each other virtual channel stays as it was.
    pub fn step(&mut self, frame: &TcFrame) -> Verdict
        // `views` are any frames that bring FARM-1 from its start to its state before the call, and
        // `r` are any parameters. Several lists of frames may lead to the same state.
        ensures verdict { (r : ReceptionParameters) (views : List TcView)
            → HaveStepped r self.old views → result ≡ verdict_on r views frame.now }
        ensures farms { (r : ReceptionParameters) (views : List TcView)
            → HaveStepped r self.old views → HaveStepped r self.new (views ++ frame.now ∷ []) }
    {
        self.farms[usize::from(frame.vc())].step(event_in(&frame.content()))
    }

    /// The Communications Link Control Word (CCSDS 232.0-B) of the virtual channel `vc`, 0 to 63.
    /// The word reports the state of FARM-1 after all frames so far.
    pub fn clcw(&self, vc: u8) -> Clcw
        requires { vc ≤ 63 }
        ensures { (r : ReceptionParameters) (views : List TcView)
            → HaveStepped r self.now views → result ≡ clcw_of vc (farm_of r vc views).state }
    {
        self.farms[usize::from(vc)].clcw(vc)
    }
}

// The event of FARM-1 that stands for the arrival of a frame with this content.
fn event_in(carried: &TcContent) -> FarmEvent
    ensures { result ≡ event_of (content carried.now) }
{
    match *carried {
        TcContent::Ad { ns, .. } => FarmEvent::Ad(ns),
        TcContent::Bd { .. } => FarmEvent::Bd,
        TcContent::Unlock => FarmEvent::Unlock,
        TcContent::SetVr(vr) => FarmEvent::SetVr(vr),
    }
}
