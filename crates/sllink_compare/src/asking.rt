//! A question, as a line.
ghost use Rattle.std.specs.Prelude.{◌≡◌, ◌++◌, codes, string_bytes, IfOk, OnOk};
ghost use Rattle.sllink_compare.specs.Asking.{asked_text, doubt_text, field_text, name_at};
ghost use Rattle.sllink_compare.specs.Asking.{nothing_text, question_text, ratio_text, seen_text};
ghost use Rattle.sllink_compare.specs.Asking.{skipped_text, station_of, summary_at, way_text};

use crate::questions::{Doubt, Question, WORDS, is_asked, text_of, with_predecessor};
use crate::run::Comparison;
use crate::totals::{Names, mark_before};
use sl_link::{RecordingKind, Summary, WordCounts};
use sl_pair::Station;
use std::alloc::{AllocError, Global};

/// The line of a question.
pub fn question_text(
    alloc: Global,
    question: Question,
    comparison: &Comparison,
    names: &Names<'_>,
    first: &Summary,
    second: &Summary,
) -> Result<String, AllocError>
    ensures { IfOk result (λ line. string_bytes line
        ≡ question_text question comparison.now names.now first.now second.now) }
{
    let mut line = String::new(alloc);
    line.push_str("sllink-compare: ")?;
    push_seen(&mut line, question, comparison, names, first, second)?;
    line.push_str("; are the options right? ")?;
    line.push_str(way_text(question))?;
    line.push_str("sllink-identify ")?;
    line.push_str(name_at(station_of(question), names))?;
    line.push_str(" says what it is\n")?;
    Ok(line)
}

// Appends what is seen of a recording, or of both.
fn push_seen(
    line: &mut String,
    question: Question,
    comparison: &Comparison,
    names: &Names<'_>,
    first: &Summary,
    second: &Summary,
) -> Result<(), AllocError>
    ensures { OnOk result (string_bytes line.new ≡ string_bytes line.old
        ++ seen_text question comparison.now names.now first.now second.now) }
{
    match question {
        Question::Options(station, doubt) => {
            let summary = summary_at(station, first, second);
            push_doubt(
                line,
                name_at(station, names),
                doubt,
                comparison.kind,
                summary,
            )
        }
        Question::Nothing(station) => push_nothing(line, station, names, second),
        Question::Most(station) => {
            push_skipped(
                line,
                name_at(station, names),
                summary_at(station, first, second),
            )
        }
        Question::Lines(_) => {
            push_lines(line, &comparison.allowed.lines, &first.words, &second.words)
        }
    }
}

// The name of a station's recording.
fn name_at<'a>(station: Station, names: &Names<'a>) -> &'a str
    ensures { result.now ≡ name_at station names.now }
{
    match station {
        Station::First => names.first,
        Station::Second => names.second,
    }
}

// The numbers of a station's recording.
fn summary_at<'a>(station: Station, first: &'a Summary, second: &'a Summary) -> &'a Summary
    ensures { result.now ≡ summary_at station first.now second.now }
{
    match station {
        Station::First => first,
        Station::Second => second,
    }
}

// The station whose recording a question is about.
fn station_of(question: Question) -> Station
    ensures { result ≡ station_of question }
{
    match question {
        Question::Options(station, _) => station,
        Question::Nothing(station) => station,
        Question::Most(station) => station,
        Question::Lines(station) => station,
    }
}

// Appends the name of a recording, and what its frames show against its options.
fn push_doubt(
    line: &mut String,
    name: &str,
    doubt: Doubt,
    kind: RecordingKind,
    summary: &Summary,
) -> Result<(), AllocError>
    ensures { OnOk result (string_bytes line.new ≡ string_bytes line.old
        ++ (name.now ++ codes ": " ++ doubt_text doubt kind summary.now)) }
{
    line.push_str(name)?;
    line.push_str(": ")?;
    push_shown(line, doubt, kind, summary)
}

// Appends what the frames of a recording show against its options.
fn push_shown(
    line: &mut String,
    doubt: Doubt,
    kind: RecordingKind,
    summary: &Summary,
) -> Result<(), AllocError>
    ensures { OnOk result (string_bytes line.new
        ≡ string_bytes line.old ++ doubt_text doubt kind summary.now) }
{
    match doubt {
        Doubt::Gaps => {
            let (gaps, frames) = (summary.words.gap, with_predecessor(summary));
            push_ratio(
                line,
                "gaps before ",
                gaps,
                frames,
                " frames that have a predecessor",
            )
        }
        Doubt::Long => {
            let (long, own) = (summary.signs.long, summary.signs.own);
            push_ratio(line, "", long, own, " frames are longer than --tc-length")
        }
        Doubt::Field => line.push_str(field_text(kind)),
    }
}

// Appends so many of all, with what stands before and behind.
fn push_ratio(
    line: &mut String,
    before: &str,
    part: u64,
    whole: u64,
    behind: &str,
) -> Result<(), AllocError>
    ensures { OnOk result (string_bytes line.new ≡ string_bytes line.old
        ++ ratio_text before.now part whole behind.now) }
{
    write!(line, "{before}{part} of {whole}{behind}")
}

// That the option which asks for an error control field isn't given.
fn field_text(kind: RecordingKind) -> &'static str
    ensures { result.now ≡ field_text kind }
{
    match kind {
        RecordingKind::Tm => "--tm-fecf isn't given, and its frames have an error control field",
        RecordingKind::Tc => "--tc-fecf isn't given, and its frames have an error control field",
    }
}

// Appends that a recording, or neither, delivers a packet.
fn push_nothing(
    line: &mut String,
    station: Station,
    names: &Names<'_>,
    second: &Summary,
) -> Result<(), AllocError>
    ensures { OnOk result (string_bytes line.new
        ≡ string_bytes line.old ++ nothing_text station names.now second.now) }
{
    match station {
        Station::First if second.totals.packets() == 0 => {
            line.push_str("neither recording delivers a packet")
        }
        Station::First => push_silent(line, names.first),
        Station::Second => push_silent(line, names.second),
    }
}

// Appends that a recording delivers no packet.
fn push_silent(line: &mut String, name: &str) -> Result<(), AllocError>
    ensures { OnOk result (string_bytes line.new
        ≡ string_bytes line.old ++ (name.now ++ codes ": delivers no packet")) }
{
    line.push_str(name)?;
    line.push_str(": delivers no packet")
}

// Appends the name of a recording, and how many of its frames are skipped.
fn push_skipped(line: &mut String, name: &str, summary: &Summary) -> Result<(), AllocError>
    ensures { OnOk result (string_bytes line.new ≡ string_bytes line.old
        ++ (name.now ++ codes ": " ++ skipped_text summary.now)) }
{
    let (skipped, frames) = (summary.totals.skipped(), summary.totals.frames());
    line.push_str(name)?;
    line.push_str(": ")?;
    push_ratio(line, "", skipped, frames, " frames are skipped")
}

// Appends that lines aren't allowed, and their words.
fn push_lines(
    line: &mut String,
    allowed: &[bool; 14],
    first: &WordCounts,
    second: &WordCounts,
) -> Result<(), AllocError>
    ensures { OnOk result (string_bytes line.new ≡ string_bytes line.old
        ++ (codes "no packet differs, but check has lines that --allow doesn't name"
        ++ asked_text allowed.now first.now second.now)) }
{
    line.push_str("no packet differs, but check has lines that --allow doesn't name")?;
    push_asked(line, allowed, first, second)
}

// Appends the words that aren't allowed and of which one of the recordings has a line.
fn push_asked(
    line: &mut String,
    allowed: &[bool; 14],
    first: &WordCounts,
    second: &WordCounts,
) -> Result<(), AllocError>
    ensures { OnOk result (string_bytes line.new ≡ string_bytes line.old
        ++ asked_text allowed.now first.now second.now) }
{
    let mut is_first = true;
    for place in 0..14 {
        if is_asked(allowed, first, second, place) {
            push_word(line, mark_before(is_first, ","), text_of(WORDS[place]))?;
            is_first = false;
        }
    }
    Ok(())
}

// Appends a mark and a word.
fn push_word(line: &mut String, mark: &str, word: &str) -> Result<(), AllocError>
    ensures { OnOk result (string_bytes line.new
        ≡ string_bytes line.old ++ (mark.now ++ word.now)) }
{
    line.push_str(mark)?;
    line.push_str(word)
}

// The word of `--allow` that answers a question. Lines are allowed by their words.
fn way_text(question: Question) -> &'static str
    ensures { result.now ≡ way_text question }
{
    match question {
        Question::Options(..) => "--allow options says so; ",
        Question::Nothing(_) => "--allow nothing says so; ",
        Question::Most(_) => "--allow most says so; ",
        Question::Lines(_) => "",
    }
}
