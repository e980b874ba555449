//! FARM-1 on one virtual channel.
ghost use Rattle.std.specs.Prelude.{◌≡◌, ◌≤◌, SomeIff};
ghost use Rattle.sl_cop.specs.Farm.{FarmState, IsWidth, area_of, counted, farm_start, farm_step};
ghost use Rattle.sl_cop.specs.Farm.{verdict_in};
ghost use Rattle.sl_cop.specs.FarmClcw.{clcw_of};

use crate::farm_event::FarmEvent;
use crate::verdict::Verdict;
use crate::window::Window;
use sl_fields::Clcw;
use std::marker::Model;

/// The frame acceptance and reporting mechanism (FARM-1) of CCSDS 232.1-B on one virtual channel:
/// its sliding window, and its state.
///
/// The state consists of the receiver frame sequence number V(R), the Lockout flag, the Retransmit
/// flag and the FARM-B counter. FARM-1 is in the lockout state where the Lockout flag is 1, and in
/// the open state where the flag is 0. Buffers are always free, so the Wait flag is always 0, and
/// the state leaves it out.
#[derive(Clone, Copy, Debug, PartialEq, Eq)]
pub struct Farm {
    window: Window,
    vr: u8,
    lockout: bool,
    retransmit: bool,
    farm_b: u8,
}

impl Model for Farm {
    ghost use Rattle.sl_cop.specs.Farm.{FarmView};

    ghost Value = { FarmView };

    ghost use Rattle.sl_cop.specs.FarmModel.{farm_view, inside_of, IsFarm};

    ghost view = { farm_view };

    ghost invariant = { IsFarm };

    ghost inverse = { inside_of };
}

impl Farm {
    ghost use Rattle.sl_cop.specs.Farm.{FarmView};

    /// FARM-1 before its first frame, in the open state. V(R) is `vr`, 0 to 255. The Retransmit
    /// flag and the FARM-B counter are 0. This first state is this project's choice.
    pub fn new(window: Window, vr: u8) -> Farm
        ensures { let view : FarmView = record { window = window; state = farm_start vr } in
            result ≡ view }
    {
        Farm {
            window,
            vr,
            lockout: false,
            retransmit: false,
            farm_b: 0,
        }
    }

    /// FARM-1 in a state that was stored. The arguments are what [`window`](Farm::window),
    /// [`vr`](Farm::vr), [`lockout`](Farm::lockout), [`retransmit`](Farm::retransmit) and
    /// [`farm_b`](Farm::farm_b) answered when the state was stored: V(R) `vr`, 0 to 255, and the
    /// FARM-B counter `farm_b`, 0 to 3. `None` exactly where `farm_b` is over 3.
    pub fn restore(
        window: Window,
        vr: u8,
        lockout: bool,
        retransmit: bool,
        farm_b: u8,
    ) -> Option<Farm>
        ensures { let state : FarmState = record {
          vr = vr;
          lockout = lockout;
          retransmit = retransmit;
          farm_b = farm_b;
        } in let view : FarmView = record { window = window; state = state }
            in SomeIff result (farm_b ≤ 3) view }
    {
        if farm_b > 3 {
            return None;
        }
        Some(Farm {
            window,
            vr,
            lockout,
            retransmit,
            farm_b,
        })
    }

    /// Takes the next frame of the virtual channel, as one entry of the FARM-1 state table (CCSDS
    /// 232.1-B), and answers the verdict on the frame. The width of the window stays the same.
    ///
    /// - A frame of type AD changes the state as the docs of the variants of [`Verdict`] say.
    /// - A frame of type BD is accepted and increments the FARM-B counter, in either state.
    /// - Unlock increments the FARM-B counter and resets the Retransmit and Lockout flags, in
    ///   either state.
    /// - Set V(R) increments the FARM-B counter. In the open state it also sets V(R) and resets the
    ///   Retransmit flag. In the lockout state nothing else changes; the increment in this state is
    ///   this project's choice.
    pub fn step(&mut self, event: FarmEvent) -> Verdict
        ensures verdict { result ≡ (farm_step self.old.window self.old.state event).0 }
        ensures state { self.new.state ≡ (farm_step self.old.window self.old.state event).1 }
        ensures window { self.new.window ≡ self.old.window }
    {
        match event {
            FarmEvent::Ad(ns) => self.take_ad(ns),
            FarmEvent::Bd => {
                self.increment_farm_b();
                Verdict::Accept
            }
            FarmEvent::Unlock => {
                self.increment_farm_b();
                self.retransmit = false;
                self.lockout = false;
                Verdict::Command
            }
            FarmEvent::SetVr(vr) => {
                self.set_vr(vr);
                Verdict::Command
            }
        }
    }

    /// The receiver frame sequence number V(R), 0 to 255: the N(S) of the frame of type AD that is
    /// expected next.
    pub fn vr(&self) -> u8
        ensures { result ≡ self.now.state.vr }
    {
        self.vr
    }

    /// The Lockout flag: whether FARM-1 is in the lockout state. Where the flag is 0, FARM-1 is in
    /// the open state.
    pub fn lockout(&self) -> bool
        ensures { result ≡ self.now.state.lockout }
    {
        self.lockout
    }

    /// The Retransmit flag. The verdict [`Early`](Verdict::Early) sets the flag. The flag is reset
    /// by an accepted frame of type AD, by Unlock, and by Set V(R) in the open state.
    pub fn retransmit(&self) -> bool
        ensures { result ≡ self.now.state.retransmit }
    {
        self.retransmit
    }

    /// The FARM-B counter, 0 to 3. Each frame of type BD and each control command increments the
    /// counter modulo 4, in either state.
    pub fn farm_b(&self) -> u8
        ensures value { result ≡ self.now.state.farm_b }
        ensures most { result ≤ 3 }
    {
        self.farm_b
    }

    /// The sliding window by its width, which no step changes: even, 2 to 254. In clauses a window
    /// stands for its width. V(R) says where the window lies.
    pub fn window(&self) -> Window
        ensures value { result ≡ self.now.window }
        ensures width { IsWidth self.now.window }
        ensures most { self.now.window ≤ 254 }
    {
        self.window
    }

    /// The Communications Link Control Word (CCSDS 232.0-B) that reports the state, for the virtual
    /// channel `vc`, 0 to 63. The report value is V(R), and COP-1 is in effect. The flags No RF
    /// Available, No Bit Lock and Wait, the control word type, the CLCW version, the status and the
    /// spare bits are 0.
    pub fn clcw(&self, vc: u8) -> Clcw
        requires { vc ≤ 63 }
        ensures { result ≡ clcw_of vc self.now.state }
    {
        Clcw::of_farm(vc, self.lockout, self.retransmit, self.farm_b, self.vr)
    }

    // Takes a frame of type AD with the frame sequence number N(S) `ns`.
    fn take_ad(&mut self, ns: u8) -> Verdict
        ensures verdict { result ≡ (farm_step self.old.window self.old.state (FarmEvent.Ad ns)).0 }
        ensures state { self.new.state
            ≡ (farm_step self.old.window self.old.state (FarmEvent.Ad ns)).1 }
        ensures window { self.new.window ≡ self.old.window }
    {
        if self.lockout {
            return Verdict::Refused;
        }
        let verdict = open_verdict(self.window, ns.wrapping_sub(self.vr));
        match verdict {
            Verdict::Accept => {
                self.vr = self.vr.wrapping_add(1);
                self.retransmit = false;
            }
            Verdict::Early => self.retransmit = true,
            Verdict::Outside => self.lockout = true,
            // A late frame changes nothing. `open_verdict` never answers the other two.
            Verdict::Late | Verdict::Refused | Verdict::Command => {}
        }
        verdict
    }

    // Increments the FARM-B counter.
    fn increment_farm_b(&mut self)
        ensures state { self.new.state ≡ counted self.old.state }
        ensures window { self.new.window ≡ self.old.window }
    {
        self.farm_b = (self.farm_b + 1) % 4;
    }

    // Takes the control command Set V(R) with the value `vr`.
    fn set_vr(&mut self, vr: u8)
        ensures state { self.new.state
            ≡ (farm_step self.old.window self.old.state (FarmEvent.SetVr vr)).1 }
        ensures window { self.new.window ≡ self.old.window }
    {
        self.increment_farm_b();
        if !self.lockout {
            self.retransmit = false;
            self.vr = vr;
        }
    }
}

// The verdict on a frame of type AD in the open state, by the area in which the frame's N(S) lies.
// N(S) is ahead of V(R) by `ahead`, modulo 256.
fn open_verdict(window: Window, ahead: u8) -> Verdict
    ensures { result ≡ verdict_in (area_of window ahead) }
{
    // The width of the positive part (PW), and of the negative part (NW).
    let part_width = window.width / 2;
    if ahead == 0 {
        Verdict::Accept
    } else if ahead < part_width {
        Verdict::Early
    } else if u8::MAX - ahead < part_width {
        // N(S) is behind V(R) by 256 - `ahead`, which is at most NW.
        Verdict::Late
    } else {
        Verdict::Outside
    }
}
