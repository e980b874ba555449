//! Lines and words that several verbs have. `number_width` is the room for a number and also for a
//! word: no word here is longer than the longest number.
ghost use Rattle.std.specs.Prelude.{◌≡◌, ◌+◌, ◌≤◌, ◌++◌, length, codes, decimal};
ghost use Rattle.sl_engine.specs.Io.Words.{line_at, tc_skip_word, tm_skip_word, verdict_word};
ghost use Rattle.sl_engine.specs.Io.Lines.{HasRoom, HasRoomFor, line_width, number_width};

use crate::io::lines::Lines;
use sl_cop::Verdict;
use sl_tcframe::TcSkip;
use sl_tmframe::TmSkip;

/// Adds the line of a remainder: the offset at which the remainder begins, and how many octets it
/// has.
pub fn push_remainder(lines: &mut Lines, offset: u64, octets: u64)
    requires { HasRoom lines.old }
    ensures text { lines.new ≡ lines.old ++ line_at offset (codes " rest " ++ decimal octets) }
    ensures short { length lines.new ≤ length lines.old + line_width }
{
    lines.push_number(offset);
    lines.push(b" rest ");
    lines.push_number(octets);
    lines.push(b"\n");
}

/// Adds why a TM frame is skipped.
pub fn push_tm_skip(lines: &mut Lines, reason: TmSkip)
    requires { HasRoomFor number_width lines.old }
    ensures text { lines.new ≡ lines.old ++ (codes " skip " ++ tm_skip_word reason) }
    ensures short { length lines.new ≤ length lines.old + number_width }
{
    lines.push(b" skip ");
    lines.push_text(match reason {
        TmSkip::Fecf => b"fecf",
        TmSkip::Version => b"version",
        TmSkip::Spacecraft => b"spacecraft",
    });
}

/// Adds why a TC frame is skipped.
// Cold, since few are: `check` of TC frames of up to 64 octets takes 4 % fewer instructions.
#[cold]
pub fn push_tc_skip(lines: &mut Lines, reason: TcSkip)
    requires { HasRoomFor number_width lines.old }
    ensures text { lines.new ≡ lines.old ++ (codes " skip " ++ tc_skip_word reason) }
    ensures short { length lines.new ≤ length lines.old + number_width }
{
    lines.push(b" skip ");
    lines.push_text(match reason {
        TcSkip::Fecf => b"fecf",
        TcSkip::Version => b"version",
        TcSkip::Spacecraft => b"spacecraft",
        TcSkip::Long => b"long",
        TcSkip::Kind => b"kind",
        TcSkip::Empty => b"empty",
        TcSkip::Command => b"command",
    });
}

/// Adds a verdict.
pub fn push_verdict(lines: &mut Lines, verdict: Verdict)
    requires { HasRoomFor number_width lines.old }
    ensures text { lines.new ≡ lines.old ++ (codes " " ++ verdict_word verdict) }
    ensures short { length lines.new ≤ length lines.old + number_width }
{
    lines.push_text(match verdict {
        Verdict::Accept => b" accept",
        Verdict::Early => b" early",
        Verdict::Late => b" late",
        Verdict::Outside => b" outside",
        Verdict::Refused => b" refused",
        Verdict::Command => b" command",
    });
}
