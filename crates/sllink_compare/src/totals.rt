//! The lines of the totals of two recordings.
ghost use Rattle.std.specs.Prelude.{◌≡◌, ◌++◌, string_bytes, IfOk, OnOk};
ghost use Rattle.sllink_compare.specs.Totals.{counts_text, mark_before, totals_line, totals_text};
ghost use Rattle.sllink_compare.specs.Totals.{word_number, words_text};

use crate::questions::{WORDS, text_of};
use sl_link::{Summary, Totals, WordCounts};
use std::alloc::{AllocError, Global};

/// The names of two recordings, as they stand in a line.
#[derive(Clone, Copy, Debug)]
pub struct Names<'a> {
    pub first: &'a str,
    pub second: &'a str,
}

/// A line for each recording: its totals, and how many lines of each word `check` has, of the words
/// that have some.
pub fn totals_text(
    alloc: Global,
    names: &Names<'_>,
    first: &Summary,
    second: &Summary,
) -> Result<String, AllocError>
    ensures { IfOk result (λ text.
        string_bytes text ≡ totals_text names.now first.now second.now) }
{
    let mut text = String::new(alloc);
    push_totals(&mut text, names.first, first)?;
    push_totals(&mut text, names.second, second)?;
    Ok(text)
}

// Appends the line of a recording.
fn push_totals(text: &mut String, name: &str, summary: &Summary) -> Result<(), AllocError>
    ensures { OnOk result (string_bytes text.new
        ≡ string_bytes text.old ++ totals_line name.now summary.now) }
{
    text.push_str(name)?;
    push_counts(text, &summary.totals)?;
    push_words(text, &summary.words)?;
    text.push_str("\n")?;
    Ok(())
}

// Appends the totals of a recording.
fn push_counts(text: &mut String, totals: &Totals) -> Result<(), AllocError>
    ensures { OnOk result (string_bytes text.new
        ≡ string_bytes text.old ++ counts_text totals.now) }
{
    let (frames, skipped) = (totals.frames(), totals.skipped());
    let (packets, idle) = (totals.packets(), totals.idle());
    let anomalies = totals.anomalies();
    write!(
        text,
        ": frames {frames} skipped {skipped} packets {packets} idle {idle} anomalies {anomalies}"
    )
}

// Appends how many lines of each word there are, of the words that have some.
fn push_words(text: &mut String, words: &WordCounts) -> Result<(), AllocError>
    ensures { OnOk result (string_bytes text.new
        ≡ string_bytes text.old ++ words_text words.now) }
{
    let mut is_first = true;
    for place in 0..14 {
        let number = words.of(WORDS[place]);
        if number > 0 {
            push_word(
                text,
                mark_before(is_first, ", "),
                text_of(WORDS[place]),
                number,
            )?;
            is_first = false;
        }
    }
    Ok(())
}

/// What stands before a text, which may be the first one: a colon, or else this.
pub fn mark_before(is_first: bool, between: &'static str) -> &'static str
    ensures { result.now ≡ mark_before between.now is_first }
{
    if is_first { ": " } else { between }
}

// Appends a mark, a word and how many lines it has.
fn push_word(text: &mut String, mark: &str, word: &str, number: u64) -> Result<(), AllocError>
    ensures { OnOk result (string_bytes text.new ≡ string_bytes text.old
        ++ (mark.now ++ word_number word.now number)) }
{
    write!(text, "{mark}{word} {number}")
}
