//! Why nothing can be said of two recordings: questions that `--allow` answers.
ghost use Rattle.std.specs.Prelude.{◌≡◌, ◌<◌};
ghost use Rattle.std.specs.List.{count_by};
ghost use Rattle.sl_engine.specs.Compare.Words.{word_text};
ghost use Rattle.sllink_compare.specs.Questions.{differs, doubt_of, has_other_lines, is_asked};
ghost use Rattle.sllink_compare.specs.Questions.{is_most, is_mostly_skipped, is_other};
ghost use Rattle.sllink_compare.specs.Questions.{is_over_a_tenth, lines_question, most_question};
ghost use Rattle.sllink_compare.specs.Questions.{nothing_question, options_question, question_of};
ghost use Rattle.sllink_compare.specs.Questions.{shows_field, station_where, with_predecessor};

use sl_link::{CheckWord, Summary, WordCounts};
use sl_pair::{Answer, Station};

/// The words of lines of `check`, in the order in which they are written.
pub const WORDS: [CheckWord; 14] = [
    CheckWord::Skip,
    CheckWord::Gap,
    CheckWord::Dropped,
    CheckWord::Opaque,
    CheckWord::Foreign,
    CheckWord::Rest,
    CheckWord::Open,
    CheckWord::Early,
    CheckWord::Late,
    CheckWord::Outside,
    CheckWord::Refused,
    CheckWord::Stray,
    CheckWord::Long,
    CheckWord::Tail,
];

/// A word as it is written.
pub fn text_of(word: CheckWord) -> &'static str
    ensures { result.now ≡ word_text word }
{
    match word {
        CheckWord::Skip => "skip",
        CheckWord::Gap => "gap",
        CheckWord::Dropped => "dropped",
        CheckWord::Opaque => "opaque",
        CheckWord::Foreign => "foreign",
        CheckWord::Rest => "rest",
        CheckWord::Open => "open",
        CheckWord::Early => "early",
        CheckWord::Late => "late",
        CheckWord::Outside => "outside",
        CheckWord::Refused => "refused",
        CheckWord::Stray => "stray",
        CheckWord::Long => "long",
        CheckWord::Tail => "tail",
    }
}

/// What `--allow` names.
#[derive(Clone, Copy, Debug, PartialEq, Eq)]
pub struct Allowed {
    /// Of each word of [`WORDS`], whether lines with it are known to do no harm.
    pub lines: [bool; 14],
    /// The options are right, whatever the frames show.
    pub options: bool,
    /// A recording may deliver no packet.
    pub nothing: bool,
    /// More than half of the frames of a recording that delivers packets may be skipped.
    pub most: bool,
}

/// A recording that was read to its end.
#[derive(Clone, Copy, Debug, PartialEq, Eq)]
pub struct Seen {
    /// Its numbers.
    pub summary: Summary,
    /// Whether its options say that its frames have an error control field.
    pub has_field: bool,
}

/// Why nothing can be said of two recordings.
#[derive(Clone, Copy, Debug, PartialEq, Eq)]
pub enum Question {
    /// The frames of a recording contradict its options.
    Options(Station, Doubt),
    /// A recording delivers no packet.
    Nothing(Station),
    /// More than half of the frames of a recording are skipped, and it delivers packets.
    Most(Station),
    /// No packet differs, and `check` has lines of a recording whose words aren't allowed.
    Lines(Station),
}

/// What frames show against options.
#[derive(Clone, Copy, Debug, PartialEq, Eq)]
pub enum Doubt {
    /// More than half of the TM frames that have a predecessor have a gap.
    Gaps,
    /// More than a tenth of the TC frames of the spacecraft are too long.
    Long,
    /// No error control field is asked for, and it is right in at least two and at least half of
    /// the first thousand frames of the spacecraft.
    Field,
}

/// The first question that is open about two recordings that compare so, if one is.
pub fn question_of(
    answer: Answer,
    allowed: &Allowed,
    first: &Seen,
    second: &Seen,
) -> Option<Question>
    ensures { result ≡ question_of answer allowed.now first.now second.now }
{
    options_question(allowed, first, second)
        .or(nothing_question(allowed, first, second))
        .or(most_question(allowed, first, second))
        .or(lines_question(answer, allowed, first, second))
}

// Whether the frames of a recording contradict its options.
fn options_question(allowed: &Allowed, first: &Seen, second: &Seen) -> Option<Question>
    ensures { result ≡ options_question allowed.now first.now second.now }
{
    if allowed.options {
        return None;
    }
    match (doubt_of(first), doubt_of(second)) {
        (Some(doubt), _) => Some(Question::Options(Station::First, doubt)),
        (None, Some(doubt)) => Some(Question::Options(Station::Second, doubt)),
        (None, None) => None,
    }
}

// What the frames of a recording show against its options, the first of several.
fn doubt_of(seen: &Seen) -> Option<Doubt>
    ensures { result ≡ doubt_of seen.now }
{
    let signs = &seen.summary.signs;
    if is_most(seen.summary.words.gap, with_predecessor(&seen.summary)) {
        Some(Doubt::Gaps)
    } else if is_over_a_tenth(signs.long, signs.own) {
        Some(Doubt::Long)
    } else if !seen.has_field && shows_field(signs.right, signs.own) {
        Some(Doubt::Field)
    } else {
        None
    }
}

/// How many frames were read and weren't the first of their virtual channel.
pub fn with_predecessor(summary: &Summary) -> u64
    ensures { result ≡ with_predecessor summary.now }
{
    let read = summary
        .totals
        .frames()
        .saturating_sub(summary.totals.skipped());
    read.saturating_sub(begun_channels(&summary.signs.begun) as u64)
}

// On how many virtual channels a frame was read.
fn begun_channels(begun: &[bool]) -> usize
    ensures value { result ≡ count_by (λ begun. begun) begun.now }
{
    begun.iter().filter(|begun| **begun).count()
}

// Whether the error control field is right in at least two and at least half of the first thousand
// frames of the spacecraft, by the number of these and of all.
fn shows_field(right: u64, own: u64) -> bool
    ensures { result ≡ shows_field right own }
{
    let looked_at = if own < 1000 { own } else { 1000 };
    right >= 2 && looked_at.saturating_sub(right) <= right
}

// Whether a part is more than a tenth of the whole.
fn is_over_a_tenth(part: u64, whole: u64) -> bool
    ensures { result ≡ is_over_a_tenth part whole }
{
    whole / 10 < part
}

// Whether a part is more than half of the whole.
fn is_most(part: u64, whole: u64) -> bool
    ensures { result ≡ is_most part whole }
{
    whole.saturating_sub(part) < part
}

// Whether a recording delivers no packet.
fn nothing_question(allowed: &Allowed, first: &Seen, second: &Seen) -> Option<Question>
    ensures { result ≡ nothing_question allowed.now first.now second.now }
{
    if allowed.nothing {
        return None;
    }
    let is_silent = first.summary.totals.packets() == 0;
    let is_other_silent = second.summary.totals.packets() == 0;
    match station_where(is_silent, is_other_silent) {
        Some(station) => Some(Question::Nothing(station)),
        None => None,
    }
}

// Whether most frames of a recording are skipped that delivers packets.
fn most_question(allowed: &Allowed, first: &Seen, second: &Seen) -> Option<Question>
    ensures { result ≡ most_question allowed.now first.now second.now }
{
    if allowed.most {
        return None;
    }
    let is_first = is_mostly_skipped(&first.summary);
    let is_second = is_mostly_skipped(&second.summary);
    match station_where(is_first, is_second) {
        Some(station) => Some(Question::Most(station)),
        None => None,
    }
}

// Whether most frames are skipped, and some deliver packets.
fn is_mostly_skipped(summary: &Summary) -> bool
    ensures { result ≡ is_mostly_skipped summary.now }
{
    let totals = &summary.totals;
    totals.packets() > 0 && is_most(totals.skipped(), totals.frames())
}

// The station of whose recording it holds, the first where it holds of both.
fn station_where(first: bool, second: bool) -> Option<Station>
    ensures { result ≡ station_where first second }
{
    if first {
        Some(Station::First)
    } else if second {
        Some(Station::Second)
    } else {
        None
    }
}

// Whether `check` has lines whose words aren't allowed, where no packet differs.
fn lines_question(
    answer: Answer,
    allowed: &Allowed,
    first: &Seen,
    second: &Seen,
) -> Option<Question>
    ensures { result ≡ lines_question answer allowed.now first.now second.now }
{
    if differs(answer) {
        return None;
    }
    let is_first = has_other_lines(&allowed.lines, &first.summary.words);
    let is_second = has_other_lines(&allowed.lines, &second.summary.words);
    match station_where(is_first, is_second) {
        Some(station) => Some(Question::Lines(station)),
        None => None,
    }
}

// Whether packets differ.
fn differs(answer: Answer) -> bool
    ensures { result ≡ differs answer }
{
    match answer {
        Answer::Same | Answer::Reordered => false,
        Answer::Different => true,
    }
}

// Whether a word that isn't allowed has lines.
fn has_other_lines(allowed: &[bool; 14], words: &WordCounts) -> bool
    ensures { result ≡ has_other_lines allowed.now words.now }
{
    for place in 0..14 {
        if is_other(allowed, words, place) {
            return true;
        }
    }
    false
}

// Whether the word at this place of [`WORDS`] has lines, and isn't allowed.
fn is_other(allowed: &[bool; 14], words: &WordCounts, place: usize) -> bool
    requires { place < 14 }
    ensures { result ≡ is_other allowed.now words.now place }
{
    words.of(WORDS[place]) > 0 && !allowed[place]
}

/// Whether the word at this place of [`WORDS`] has lines on either recording, and isn't allowed.
pub fn is_asked(allowed: &[bool; 14], first: &WordCounts, second: &WordCounts, place: usize) -> bool
    requires { place < 14 }
    ensures { result ≡ is_asked allowed.now first.now second.now place }
{
    is_other(allowed, first, place) || is_other(allowed, second, place)
}
