//! How many lines of each word `check` has of a recording.
ghost use Rattle.std.specs.Prelude.{◌≡◌, ◌+◌, ◌^◌, ◌<◌, ◌≤◌, ◌++◌, [], ℕ, List, length};
ghost use Rattle.sl_engine.specs.Compare.Words.{IsOneLine, count_in, lines_with, word_counts, word_text};

/// The word of a line of `check`: what the line is about, its second field.
#[derive(Clone, Copy, Debug, PartialEq, Eq)]
pub enum CheckWord {
    /// A frame is skipped.
    Skip,
    /// Another virtual channel frame count was expected.
    Gap,
    /// An incomplete packet, or an incomplete series of segments, is dropped.
    Dropped,
    /// The data field of a frame isn't read.
    Opaque,
    /// Octets at a packet start are of another packet version.
    Foreign,
    /// Octets come after the last whole frame.
    Rest,
    /// A packet or a series is incomplete at the end.
    Open,
    /// FARM-1 discards a frame whose N(S) is ahead, within the window.
    Early,
    /// FARM-1 discards a frame whose N(S) is behind, within the window.
    Late,
    /// FARM-1 discards a frame whose N(S) is outside the window.
    Outside,
    /// FARM-1 discards a frame in lockout.
    Refused,
    /// A segment continues or ends no series.
    Stray,
    /// A series is given up, since it is longer than a packet can be.
    Long,
    /// Octets are left after the packets of a service data unit.
    Tail,
}

/// How many lines of each word `check` has of a recording.
#[derive(Clone, Copy, Debug, PartialEq, Eq)]
pub struct WordCounts {
    pub skip: u64,
    pub gap: u64,
    pub dropped: u64,
    pub opaque: u64,
    pub foreign: u64,
    pub rest: u64,
    /// Of the word `open`.
    pub incomplete: u64,
    pub early: u64,
    pub late: u64,
    pub outside: u64,
    pub refused: u64,
    pub stray: u64,
    pub long: u64,
    pub tail: u64,
}

impl WordCounts {
    /// No line has come.
    pub(crate) fn none() -> WordCounts
        ensures { result ≡ word_counts [] }
    {
        WordCounts {
            skip: 0,
            gap: 0,
            dropped: 0,
            opaque: 0,
            foreign: 0,
            rest: 0,
            incomplete: 0,
            early: 0,
            late: 0,
            outside: 0,
            refused: 0,
            stray: 0,
            long: 0,
            tail: 0,
        }
    }

    /// How many lines have this word.
    pub fn of(&self, word: CheckWord) -> u64
        ensures value { result ≡ count_in word self.now }
        ensures lines { (lines : List (List ℕ)) → self.now ≡ word_counts lines
            → result ≡ lines_with (word_text word) lines }
    {
        match word {
            CheckWord::Skip => self.skip,
            CheckWord::Gap => self.gap,
            CheckWord::Dropped => self.dropped,
            CheckWord::Opaque => self.opaque,
            CheckWord::Foreign => self.foreign,
            CheckWord::Rest => self.rest,
            CheckWord::Open => self.incomplete,
            CheckWord::Early => self.early,
            CheckWord::Late => self.late,
            CheckWord::Outside => self.outside,
            CheckWord::Refused => self.refused,
            CheckWord::Stray => self.stray,
            CheckWord::Long => self.long,
            CheckWord::Tail => self.tail,
        }
    }

    /// Counts one line of this word where it `holds`, and answers how many lines that is: one or
    /// none.
    #[inline(always)]
    pub(crate) fn add(&mut self, word: CheckWord, holds: bool) -> u64
        requires { (lines more : List (List ℕ)) × (self.old ≡ word_counts lines)
            × IsOneLine (word_text word) more holds × (length lines + length more < 2 ^ 64) }
        ensures counted { (lines more : List (List ℕ)) → self.old ≡ word_counts lines
            → IsOneLine (word_text word) more holds → self.new ≡ word_counts (lines ++ more) }
        ensures number { (more : List (List ℕ)) → IsOneLine (word_text word) more holds
            → result ≡ length more }
        ensures few { result ≤ 1 }
    {
        if !holds {
            return 0;
        }
        match word {
            CheckWord::Skip => self.skip += 1,
            CheckWord::Gap => self.gap += 1,
            CheckWord::Dropped => self.dropped += 1,
            CheckWord::Opaque => self.opaque += 1,
            CheckWord::Foreign => self.foreign += 1,
            CheckWord::Rest => self.rest += 1,
            CheckWord::Open => self.incomplete += 1,
            CheckWord::Early => self.early += 1,
            CheckWord::Late => self.late += 1,
            CheckWord::Outside => self.outside += 1,
            CheckWord::Refused => self.refused += 1,
            CheckWord::Stray => self.stray += 1,
            CheckWord::Long => self.long += 1,
            CheckWord::Tail => self.tail += 1,
        }
        1
    }
}
