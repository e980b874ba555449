//! The lines of the anomalies of a recording, whatever kind its frames are: events of its frames,
//! the remainder, and the totals. An event is an anomaly whose line has a word, a channel, and at
//! most a number of octets; a gap, a skip and a discarded frame have lines of their own.
ghost use Rattle.std.specs.Prelude.{◌≡◌, ◌+◌, ◌≤◌, ◌++◌, length, decimal};
ghost use Rattle.std.specs.List.{concat};
ghost use Rattle.sl_engine.specs.Io.Lines.{HasRoom, HasRoomFor, event_width, line_width, number_width};
ghost use Rattle.sl_engine.specs.Verbs.Check.Checking.{AddsAnomalies};
ghost use Rattle.sl_engine.specs.Verbs.Check.Lines.{event_anomaly, event_line, remainder_anomaly, some_text, totals_line};

use crate::io::lines::Lines;
use crate::io::words::push_remainder;
use crate::link::totals::Totals;

/// Where an anomaly is: at a frame, or for `open` at the recording's end; on a virtual channel, and
/// in a TC recording on a MAP. A MAP has the type of a number of octets, since `push_some` adds
/// either. A virtual channel has it too: with a `u8`, `check` of TC frames takes 1.5 % more
/// instructions.
#[derive(Clone, Copy)]
pub struct AnomalyPlace {
    pub offset: u64,
    pub vc: u32,
    pub map: Option<u32>,
}

/// Adds the line of an event, where it `holds`, and answers how many lines that is: one or none.
/// `octets` is how many octets the event is of, if it is one of octets.
#[inline(always)]
pub fn event_lines(
    lines: &mut Lines,
    at: AnomalyPlace,
    event: &[u8],
    holds: bool,
    octets: Option<u32>,
) -> u64
    requires room { HasRoomFor line_width lines.old }
    requires event { length event.now ≤ event_width }
    ensures { AddsAnomalies lines.old (event_anomaly at.offset at.vc at.map event.now holds octets)
        lines.new result }
{
    if !holds {
        return 0;
    }
    event_line(lines, at.offset, at.vc, at.map, event, octets);
    1
}

// Adds the line of an event. Takes plain numbers: given an `AnomalyPlace`, the compiler stores it
// before every test, and `check` of TM frames takes 4 % more instructions.
fn event_line(
    lines: &mut Lines,
    offset: u64,
    vc: u32,
    map: Option<u32>,
    event: &[u8],
    octets: Option<u32>,
)
    requires room { HasRoomFor line_width lines.old }
    requires event { length event.now ≤ event_width }
    ensures text { lines.new ≡ lines.old ++ event_line offset vc map event.now octets }
    ensures short { length lines.new ≤ length lines.old + line_width }
{
    lines.push_number(offset);
    lines.push_text(event);
    push_part(lines, b" vc ", u64::from(vc));
    push_some(lines, b" map ", map);
    push_some(lines, b" octets ", octets);
    lines.push(b"\n");
}

/// Adds the line of the remainder, where there is one, and answers how many lines that is: one or
/// none.
pub fn remainder_lines(lines: &mut Lines, offset: u64, octets: u64) -> u64
    requires { HasRoom lines.old }
    ensures text { lines.new ≡ lines.old ++ concat (remainder_anomaly offset octets) }
    ensures number { result ≡ length (remainder_anomaly offset octets) }
    ensures few { result ≤ octets }
    ensures short { length lines.new ≤ length lines.old + line_width }
{
    if octets == 0 {
        return 0;
    }
    push_remainder(lines, offset, octets);
    1
}

/// Adds the line of the totals.
pub fn push_totals(lines: &mut Lines, totals: &Totals)
    requires { HasRoom lines.old }
    ensures { lines.new ≡ lines.old ++ totals_line totals.now }
{
    push_part(lines, b"frames ", totals.frames());
    push_part(lines, b" skipped ", totals.skipped());
    push_part(lines, b" packets ", totals.packets());
    push_part(lines, b" idle ", totals.idle());
    push_part(lines, b" anomalies ", totals.anomalies());
    lines.push(b"\n");
}

// Adds a number and the word before it, if there is one.
fn push_some(lines: &mut Lines, word: &[u8], number: Option<u32>)
    requires { HasRoomFor (number_width + length word.now) lines.old }
    ensures text { lines.new ≡ lines.old ++ some_text word.now number }
    ensures short { length lines.new ≤ length lines.old + (number_width + length word.now) }
{
    if let Some(number) = number {
        push_part(lines, word, u64::from(number));
    }
}

/// Adds a word and a number.
pub fn push_part(lines: &mut Lines, word: &[u8], number: u64)
    requires { HasRoomFor (number_width + length word.now) lines.old }
    ensures text { lines.new ≡ lines.old ++ (word.now ++ decimal number) }
    ensures short { length lines.new ≤ length lines.old + (number_width + length word.now) }
{
    lines.push_text(word);
    lines.push_number(number);
}
