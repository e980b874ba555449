//! What the frames of a recording are handed to.
ghost use Rattle.std.specs.Prelude.{OnOk, IfErr, ◌++◌, ◌∷◌, [], List, ℕ};
ghost use Rattle.sl_engine.specs.Link.Managed.{Parameters};
ghost use Rattle.sl_engine.specs.Framing.{After, MayTake};

use crate::framing::framer::Framer;
use crate::link::managed::Managed;
use sl_io::LinkFault;

/// Takes the frames of a recording, one after another. A clause with `After` holds for every list
/// of frames already taken, and every value the sink began with.
pub trait FrameSink {
    ghost use Rattle.sl_io.specs.declared.fault.LinkFault.{LinkFault};

    /// What delimits the frames.
    type Framer: Framer;

    /// Between its first value and its second the sink has taken these frames.
    ghost took: { Parameters → Self → Self → List (List ℕ) → Type 0 };

    /// Between its first value and its second the sink has taken these frames, but the fault
    /// stopped it at the last of them, or at the pause after it.
    ghost stopped: { Parameters → Self → Self → List (List ℕ) → LinkFault → Type 0 };

    /// Takes the next frame.
    fn frame(&mut self, managed: &Managed, frame: &[u8]) -> Result<(), LinkFault>
        requires { MayTake (took managed.now) (Self.Framer.is_frame managed.now) self.old
            frame.now }
        ensures taken { OnOk result (After (took managed.now) self.old
            (λ start before. took managed.now start self.new (before ++ frame.now ∷ []))) }
        ensures fault { IfErr result (λ fault. After (took managed.now) self.old (λ start before.
            stopped managed.now start self.new (before ++ frame.now ∷ []) fault)) };

    /// Called after each chunk, before the reader is asked for more octets. The frames stay the
    /// same.
    fn pause(&mut self) -> Result<(), LinkFault>
        ensures taken { OnOk result ((p : Parameters) → After (took p) self.old (λ start before.
            took p start self.new before)) }
        ensures fault { IfErr result (λ fault. (p : Parameters) → After (took p) self.old
            (λ start before. stopped p start self.new before fault)) };
}
