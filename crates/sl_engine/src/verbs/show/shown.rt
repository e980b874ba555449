//! How a frame of a kind, TM or TC, is shown.
ghost use Rattle.std.specs.Prelude.{◌≡◌, ◌+◌, ◌<◌, ◌++◌, ◌∷◌, [], ℕ, Bool, List, decimal, length};
ghost use Rattle.std.specs.List.{concat};
ghost use Rattle.sl_engine.specs.Io.Lines.{HasRoomFor, text_width};

use crate::framing::Framer;
use crate::io::lines::Lines;
use crate::link::managed::Managed;
use crate::verbs::show::lines_tc::tc_frame_line;
use crate::verbs::show::lines_tm::tm_frame_line;
use sl_tcflow::Farms;
use sl_tcframe::{TcFrame, TcFramer};
use sl_tmframe::{TmFrame, TmFramer};

/// How a frame of a kind is shown.
pub trait Shown: Drop {
    ghost use Rattle.sl_engine.specs.Link.Managed.{Parameters};

    /// What delimits the frames.
    type Framer: Framer;

    /// Whether a frame is skipped.
    ghost is_skipped: { Parameters → List ℕ → Bool };

    /// The line of a frame that comes after others.
    ghost line: { Parameters → List (List ℕ) → List ℕ → List ℕ };

    /// These frames have been shown.
    ghost has_shown: { Self → Parameters → List (List ℕ) → Type 0 };

    /// No frame has been shown.
    fn begin(managed: &Managed) -> Self
        ensures { has_shown result managed.now [] };

    /// Adds the line of the next frame to the lines, which end with its offset already. Answers
    /// whether the frame is skipped.
    fn show(&mut self, managed: &Managed, frame: &[u8], lines: &mut Lines) -> bool
        requires before { (before : List (List ℕ)) × has_shown self.old managed.now before
            × Self.Framer.is_frame managed.now frame.now }
        requires room { HasRoomFor (text_width + 1) lines.old }
        ensures skipped { result ≡ is_skipped managed.now frame.now }
        // Not about what this call does: no frame is empty, as the totals want.
        ensures some { 0 < length frame.now }
        // The lines were some others, `start`, and the offset. Now they are `start` and the line.
        ensures line { (before : List (List ℕ)) (start : List ℕ)
            → has_shown self.old managed.now before
            → lines.old ≡ start ++ decimal (length (concat before))
            → lines.new ≡ start ++ line managed.now before frame.now }
        ensures shown { (before : List (List ℕ)) → has_shown self.old managed.now before
            → has_shown self.new managed.now (before ++ frame.now ∷ []) };
}

/// TM frames. Nothing is kept of the frames before one.
#[derive(Drop)]
pub struct TmFrames;

impl Shown for TmFrames {
    ghost use Rattle.std.specs.Prelude.{⊤};
    ghost use Rattle.sl_engine.specs.Verbs.Show.Tm.{tm_is_skipped, show_tm_line};

    type Framer = TmFramer;

    ghost is_skipped = { tm_is_skipped };

    ghost line = { show_tm_line };

    ghost has_shown = { λ frames p before. ⊤ };

    fn begin(_managed: &Managed) -> TmFrames {
        TmFrames
    }

    fn show(&mut self, managed: &Managed, frame: &[u8], lines: &mut Lines) -> bool {
        let read = TmFrame::read(&managed.tm, managed.spacecraft, frame);
        tm_frame_line(lines, &read);
        read.is_err()
    }
}

impl Shown for Farms {
    ghost use Rattle.sl_tcflow.specs.AcceptedUnit.{views_of};
    ghost use Rattle.sl_tcflow.specs.Farms.{HaveStepped};
    ghost use Rattle.sl_engine.specs.Link.Managed.{reception_of, tc_format};
    ghost use Rattle.sl_engine.specs.Verbs.Show.Tc.{tc_is_skipped, show_tc_line};

    type Framer = TcFramer;

    ghost is_skipped = { tc_is_skipped };

    ghost line = { show_tc_line };

    ghost has_shown = { λ farms p before. HaveStepped (reception_of p) farms
        (views_of (tc_format p) p.spacecraft before) };

    fn begin(managed: &Managed) -> Farms {
        Farms::new(managed.window, &managed.starts)
    }

    fn show(&mut self, managed: &Managed, frame: &[u8], lines: &mut Lines) -> bool {
        let read = TcFrame::read(&managed.tc, managed.spacecraft, frame);
        tc_frame_line(lines, &managed.plain, self, &read);
        read.is_err()
    }
}
