//! The lines of a TM recording's listing.
ghost use Rattle.std.specs.Prelude.{◌≡◌, ◌+◌, ◌≤◌, ◌++◌, codes, length};
ghost use Rattle.sl_tmframe.specs.TmField.{as_content};
ghost use Rattle.sl_engine.specs.Verbs.Show.Tm.{clcw_fields_text, word_text, control_text, field_text, frame_counts_text, tm_view_text, tm_frame_text};
ghost use Rattle.sl_engine.specs.Io.Lines.{HasRoomFor, fields_width, part_width, text_width, words_width};

use crate::io::lines::Lines;
use crate::io::words::push_tm_skip;
use crate::verbs::show::clcw_flags::flags_text;
use sl_fields::Clcw;
use sl_tmframe::{TmField, TmFrame, TmSkip};

/// Adds the line of a frame, but for its offset.
pub fn tm_frame_line(lines: &mut Lines, read: &Result<TmFrame, TmSkip>)
    requires { HasRoomFor (text_width + 1) lines.old }
    ensures { lines.new ≡ lines.old ++ (tm_frame_text read.now ++ codes "\n") }
{
    match read {
        Ok(frame) => push_tm_view(lines, frame),
        Err(reason) => push_tm_skip(lines, *reason),
    }
    lines.push(b"\n");
}

fn push_tm_view(lines: &mut Lines, frame: &TmFrame)
    requires { HasRoomFor text_width lines.old }
    ensures text { lines.new ≡ lines.old ++ tm_view_text frame.now }
    ensures short { length lines.new ≤ length lines.old + text_width }
{
    push_frame_counts(lines, frame);
    lines.push(b" ");
    push_field(lines, frame.field());
    push_control(lines, frame.control());
}

fn push_frame_counts(lines: &mut Lines, frame: &TmFrame)
    requires { HasRoomFor words_width lines.old }
    ensures text { lines.new ≡ lines.old ++ frame_counts_text frame.now }
    ensures short { length lines.new ≤ length lines.old + words_width }
{
    lines.push(b" frame vc ");
    lines.push_small_number(frame.vc());
    lines.push(b" mc ");
    lines.push_small_number(frame.mc_count());
    lines.push(b" vcc ");
    lines.push_small_number(frame.vc_count());
}

fn push_field(lines: &mut Lines, field: TmField)
    requires { HasRoomFor words_width lines.old }
    ensures text { lines.new ≡ lines.old ++ field_text (as_content field.entry) }
    ensures short { length lines.new ≤ length lines.old + words_width }
{
    match field {
        TmField::Packets {
            first: Some(first),
            ..
        } => {
            lines.push(b"first ");
            lines.push_number(u64::from(first));
        }
        TmField::Packets { first: None, .. } => lines.push(b"none"),
        TmField::Idle => lines.push(b"idle"),
        TmField::Opaque => lines.push(b"opaque"),
    }
}

fn push_control(lines: &mut Lines, control: Option<[u8; 4]>)
    requires { HasRoomFor part_width lines.old }
    ensures text { lines.new ≡ lines.old ++ control_text control }
    ensures short { length lines.new ≤ length lines.old + part_width }
{
    if let Some(word) = control {
        push_word(lines, &word);
    }
}

// Adds an operational control field: a CLCW, unless its first bit, the control word type, is 1.
fn push_word(lines: &mut Lines, word: &[u8; 4])
    requires { HasRoomFor part_width lines.old }
    ensures text { lines.new ≡ lines.old ++ word_text word.now }
    ensures short { length lines.new ≤ length lines.old + part_width }
{
    let clcw = Clcw::read(word);
    // the control word type
    if clcw.word() == 1 {
        lines.push(b" ocf ");
        lines.push_hex_word(word);
    } else {
        lines.push(b" clcw ");
        lines.push_hex_word(word);
        push_clcw(lines, &clcw);
    }
}

fn push_clcw(lines: &mut Lines, clcw: &Clcw)
    requires { HasRoomFor fields_width lines.old }
    ensures text { lines.new ≡ lines.old ++ clcw_fields_text clcw.now }
    ensures short { length lines.new ≤ length lines.old + fields_width }
{
    lines.push(b" vc ");
    lines.push_small_number(clcw.vc());
    lines.push(&flags_text(clcw));
    lines.push_small_number(clcw.report());
}
