//! What delimits the frames of a recording that comes in chunks.
ghost use Rattle.std.specs.Prelude.{◌≡◌, ◌++◌, ◌∷◌, [], ℕ, List, IfSome, IfNone};
ghost use Rattle.std.specs.Borrow.{sem};
ghost use Rattle.std.specs.Io.BufRead.{Rests};
ghost use Rattle.sl_engine.specs.Framing.{CutsFrame, WaitsAfter, WaitsFor};

use crate::link::managed::Managed;

/// Delimits the frames of one kind, whatever chunks the octets come in.
pub trait Framer: Drop {
    ghost use Rattle.sl_engine.specs.Link.Managed.{Parameters};

    /// These octets are one frame.
    ghost is_frame: { Parameters → List ℕ → Type 0 };

    /// The frames of a recording.
    ghost frames_of: { Parameters → List ℕ → List (List ℕ) };

    /// The framer waits: these octets came after the last frame that it cut.
    ghost waits: { Self → Parameters → List ℕ → Type 0 };

    /// A framer for frames of the managed format. No octets wait.
    fn begin(managed: &Managed) -> Self
        ensures { waits result managed.now [] };

    /// Takes octets from the front of the chunk up to the end of a frame, and lends that frame.
    /// `None` where the chunk completes no frame: all its octets then wait for the next chunk.
    // Each clause holds for all octets `rest` that may have waited in the framer (`WaitsFor`). The
    // last one is of the time when the lent frame is given back: which octets wait then. An
    // ordinary clause can't say that, as the framer is still lent when the call returns.
    fn next_frame<'a, 'p: 'a>(&'a mut self, chunk: &mut &'p [u8]) -> Option<&'a [u8]>
        requires { (p : Parameters) × (rest : List ℕ) × waits self.old p rest }
        ensures frame { IfSome result (λ frame. WaitsFor waits self.old
            (λ p rest. CutsFrame (is_frame p) rest chunk.old.now chunk.new.now frame.now)) }
        ensures none { IfNone result
            (WaitsFor waits self.old (λ p rest. frames_of p (rest ++ chunk.old.now) ≡ [])) }
        ensures* after { sem 𝓛 (Rests Self.row self.entry (λ new. WaitsFor waits self.old
            (λ p rest. WaitsAfter waits new p rest chunk.old.now result))) };

    /// Where octets begin with a frame, that frame is their first one, and the other frames are
    /// those of what follows.
    ghost front: { (p : Parameters) (frame more : List ℕ) → is_frame p frame
        → frames_of p (frame ++ more) ≡ frame ∷ frames_of p more };

    /// An empty recording has no frames.
    ghost empty: { (p : Parameters) → frames_of p [] ≡ [] };
}
