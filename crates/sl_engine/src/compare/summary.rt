//! What `check` has of a recording that is compared, in numbers.
ghost use Rattle.std.specs.Prelude.{◌≡◌, ◌+◌, ◌^◌, ◌<◌, ◌≤◌, ◌++◌, ◌∷◌, [], ℕ, Bool, List, Ok, length};
ghost use Rattle.sl_engine.specs.Compare.Signs.{no_channels, with_channel};
ghost use Rattle.sl_engine.specs.Compare.Summarised.{discarded_lines};
ghost use Rattle.sl_engine.specs.Verbs.Check.Tc.{tc_anomaly_lines};
ghost use Rattle.sl_engine.specs.Verbs.Check.Tm.{tm_anomaly_lines};
ghost use Rattle.sl_engine.specs.Compare.Words.{IsOneLine, word_counts, word_text};

use crate::compare::signs::Signs;
use crate::compare::words::{CheckWord, WordCounts};
use crate::kind::Deliverer;
use crate::kind::tc::TcFound;
use crate::kind::tm::TmFound;
use crate::link::managed::Managed;
use crate::link::totals::Totals;
use crate::verbs::check::checked::Checked;
use sl_cop::Verdict;
use sl_fields::{TcHeader, TmHeader, front};
use sl_tcflow::Receiver;
use sl_tcframe::TcSkip;
use sl_tmflow::Extractor;
use sl_tmframe::TmSkip;

/// What `check` has of a recording, in numbers, and signs in its frames.
#[derive(Clone, Copy, Debug, PartialEq, Eq)]
pub struct Summary {
    /// The totals, the number of anomalies among them.
    pub totals: Totals,
    /// How many lines of each word there are.
    pub words: WordCounts,
    /// Signs by which an option may be doubted.
    pub signs: Signs,
}

/// A deliverer of a kind of frames whose lines of `check` are counted by their words, and whose signs
/// are taken.
pub trait Summarised: Checked + Deliverer {
    ghost use Rattle.sl_engine.specs.Link.Managed.{Parameters};

    /// Whether a frame has the spacecraft's identifier, whatever else is in it.
    ghost is_own: { Parameters → List ℕ → Bool };

    /// Whether a frame is longer than the greatest length of a frame.
    ghost is_long: { Parameters → List ℕ → Bool };

    /// Of frames, on which of the virtual channels 0 to 7 one was read.
    ghost begun: { Parameters → List (List ℕ) → List Bool };

    /// Without frames on none.
    ghost none_begun: { (p : Parameters) → begun p [] ≡ no_channels };

    fn is_own_frame(managed: &Managed, frame: &[u8]) -> bool
        requires { Self.Framer.is_frame managed.now frame.now }
        ensures { result ≡ is_own managed.now frame.now };

    fn is_long_frame(managed: &Managed, frame: &[u8]) -> bool
        ensures { result ≡ is_long managed.now frame.now };

    /// The virtual channel on which a frame was read, by what is found of it, if one was.
    fn channel_read(found: Self::Found) -> Option<u8>
        ensures { (p : Parameters) (before : List (List ℕ)) (frame : List ℕ)
            → found ≡ Self.found p before frame
            → begun p (before ++ frame ∷ []) ≡ with_channel (begun p before) result };

    /// Counts the lines of what is found of a frame by their words, and answers how many lines
    /// these are, at most five.
    fn count_lines(words: &mut WordCounts, found: Self::Found) -> u64
        requires { (lines : List (List ℕ)) × (words.old ≡ word_counts lines)
            × (length lines + 5 < 2 ^ 64) }
        ensures words { (lines : List (List ℕ)) (offset : ℕ) → offset < 2 ^ 64
            → words.old ≡ word_counts lines
            → words.new ≡ word_counts (lines ++ Self.lines_of offset found) }
        ensures number { (offset : ℕ) → offset < 2 ^ 64
            → result ≡ length (Self.lines_of offset found) }
        // Not about this call, as at `anomaly_lines`: a frame has fewer lines than octets.
        ensures few { (p : Parameters) (before : List (List ℕ)) (frame : List ℕ)
            → Self.Framer.is_frame p frame → 5 ≤ length frame → found ≡ Self.found p before frame
            → result < length frame };

    /// Whether something is incomplete on a channel: then its line is of the word `open`.
    fn is_incomplete(&self, channel: u16) -> bool
        requires { channel < Self.channel_limit }
        ensures { (p : Parameters) (offset : ℕ) (frames : List (List ℕ)) → offset < 2 ^ 64
            → Self.has_processed self.now p frames
            → IsOneLine (word_text CheckWord.Open) (Self.open_at p offset frames channel) result };
}

impl Summarised for Extractor {
    ghost use Rattle.std.specs.Prelude.{false};
    ghost use Rattle.std.proofs.Common.{refl};
    ghost use Rattle.sl_engine.specs.Compare.Summarised.{is_own_tm, tm_begun};

    ghost is_own = { is_own_tm };

    ghost is_long = { λ p frame. false };

    ghost begun = { tm_begun };

    ghost none_begun = { λ p. refl };

    fn is_own_frame(managed: &Managed, frame: &[u8]) -> bool {
        // For the proof alone, at no cost: every `TmShape` has a length of 32 or more.
        let _ = managed.tm.len();
        let (header, _) = front::<6>(frame);
        TmHeader::read(header).spacecraft() == managed.spacecraft
    }

    fn is_long_frame(_managed: &Managed, _frame: &[u8]) -> bool {
        false
    }

    fn channel_read(found: Result<TmFound, TmSkip>) -> Option<u8> {
        match found {
            Ok(found) => Some(found.vc),
            Err(_) => None,
        }
    }

    fn count_lines(words: &mut WordCounts, found: Result<TmFound, TmSkip>) -> u64 {
        match found {
            Ok(found) => count_tm(words, found),
            Err(_) => words.add(CheckWord::Skip, true),
        }
    }

    fn is_incomplete(&self, channel: u16) -> bool {
        self.held(channel as u8) > 0
    }
}

impl Summarised for Receiver {
    ghost use Rattle.std.proofs.Common.{refl};
    ghost use Rattle.sl_engine.specs.Compare.Summarised.{is_long_tc, is_own_tc};

    ghost is_own = { is_own_tc };

    ghost is_long = { is_long_tc };

    ghost begun = { λ p frames. no_channels };

    ghost none_begun = { λ p. refl };

    fn is_own_frame(managed: &Managed, frame: &[u8]) -> bool {
        let (header, _) = front::<5>(frame);
        TcHeader::read(header).spacecraft() == managed.spacecraft
    }

    fn is_long_frame(managed: &Managed, frame: &[u8]) -> bool {
        frame.len() > usize::from(managed.tc.max())
    }

    fn channel_read(_found: Result<TcFound, TcSkip>) -> Option<u8> {
        None
    }

    fn count_lines(words: &mut WordCounts, found: Result<TcFound, TcSkip>) -> u64 {
        match found {
            Ok(found) => count_tc(words, found),
            Err(_) => words.add(CheckWord::Skip, true),
        }
    }

    fn is_incomplete(&self, channel: u16) -> bool {
        // The number of a channel is 64 VC + MAP.
        self.is_open((channel / 64) as u8, (channel % 64) as u8)
    }
}

// Counts the lines of a TM frame that was read, and answers how many they are.
fn count_tm(words: &mut WordCounts, found: TmFound) -> u64
    requires { (lines : List (List ℕ)) × (words.old ≡ word_counts lines)
        × (length lines + 5 < 2 ^ 64) }
    ensures words { (lines : List (List ℕ)) (offset : ℕ) → offset < 2 ^ 64
        → words.old ≡ word_counts lines
        → words.new ≡ word_counts (lines ++ tm_anomaly_lines offset (Ok found)) }
    ensures number { (offset : ℕ) → offset < 2 ^ 64
        → result ≡ length (tm_anomaly_lines offset (Ok found)) }
{
    let gaps = words.add(CheckWord::Gap, found.gap.is_some());
    let drops = words.add(CheckWord::Dropped, found.dropped > 0);
    let opaque = words.add(CheckWord::Opaque, found.opaque);
    let foreign = words.add(CheckWord::Foreign, found.foreign);
    gaps + drops + opaque + foreign
}

// Counts the lines of a TC frame that was read, and answers how many they are.
fn count_tc(words: &mut WordCounts, found: TcFound) -> u64
    requires { (lines : List (List ℕ)) × (words.old ≡ word_counts lines)
        × (length lines + 5 < 2 ^ 64) }
    ensures words { (lines : List (List ℕ)) (offset : ℕ) → offset < 2 ^ 64
        → words.old ≡ word_counts lines
        → words.new ≡ word_counts (lines ++ tc_anomaly_lines offset (Ok found)) }
    ensures number { (offset : ℕ) → offset < 2 ^ 64
        → result ≡ length (tc_anomaly_lines offset (Ok found)) }
{
    let discarded = count_discarded(words, &found);
    let stray = words.add(CheckWord::Stray, found.stray);
    let drops = words.add(CheckWord::Dropped, found.dropped.is_some());
    let long = words.add(CheckWord::Long, found.long);
    let tails = words.add(CheckWord::Tail, found.tail > 0);
    discarded + stray + drops + long + tails
}

// Counts the line of a frame of type AD that FARM-1 discards, if the frame is one.
fn count_discarded(words: &mut WordCounts, found: &TcFound) -> u64
    requires { (lines : List (List ℕ)) × (words.old ≡ word_counts lines)
        × (length lines + 5 < 2 ^ 64) }
    ensures words { (lines : List (List ℕ)) (offset : ℕ) → offset < 2 ^ 64
        → words.old ≡ word_counts lines
        → words.new ≡ word_counts (lines ++ discarded_lines offset found.now) }
    ensures number { (offset : ℕ) → offset < 2 ^ 64
        → result ≡ length (discarded_lines offset found.now) }
{
    let is_ad = found.ns.is_some();
    match found.verdict {
        Verdict::Early => words.add(CheckWord::Early, is_ad),
        Verdict::Late => words.add(CheckWord::Late, is_ad),
        Verdict::Outside => words.add(CheckWord::Outside, is_ad),
        Verdict::Refused => words.add(CheckWord::Refused, is_ad),
        Verdict::Accept | Verdict::Command => 0,
    }
}
