//! The lines of a TC recording's listing.
ghost use Rattle.std.specs.Prelude.{◌≡◌, ◌+◌, ◌≤◌, ◌<◌, ◌-◌, ◌++◌, ◌∷◌, [], List, codes, length};
ghost use Rattle.sl_tcframe.specs.TcContent.{content};
ghost use Rattle.sl_tcframe.specs.TcFrame.{IsContent, TcView};
ghost use Rattle.sl_cop.specs.Farm.{farm_step};
ghost use Rattle.sl_tcflow.specs.AcceptedUnit.{event_of};
ghost use Rattle.sl_tcflow.specs.Farms.{HaveStepped, farm_of};
ghost use Rattle.sl_tcflow.specs.ReceptionParameters.{ReceptionParameters};
ghost use Rattle.sl_tcflow.specs.Series.{header_at};
ghost use Rattle.sl_engine.specs.Kind.Delivery.{with_frame};
ghost use Rattle.sl_engine.specs.Io.Words.{verdict_word};
ghost use Rattle.sl_engine.specs.Verbs.Show.Tc.{unit_text, content_text, step_text, tc_view_text, tc_frame_text};
ghost use Rattle.sl_engine.specs.Io.Lines.{HasRoomFor, fields_width, part_width, text_width, words_width};

use crate::io::lines::Lines;
use crate::io::words::{push_tc_skip, push_verdict};
use crate::verbs::show::segment_texts::header_text;
use sl_cop::Verdict;
use sl_fields::{SegmentHeader, front};
use sl_tcflow::Farms;
use sl_tcframe::{TcContent, TcFrame, TcSkip, VcSet};

/// Adds the line of a frame, but for its offset. FARM-1 of its virtual channel takes the frame,
/// unless it is skipped; verdict and CLCW are those after it. The frames of the virtual channels of
/// `plain` have no segment headers.
pub fn tc_frame_line(
    lines: &mut Lines,
    plain: &VcSet,
    farms: &mut Farms,
    read: &Result<TcFrame, TcSkip>,
)
    requires { HasRoomFor (text_width + 1) lines.old }
    ensures line { (r : ReceptionParameters) (views : List TcView) → HaveStepped r farms.old views
        → lines.new ≡ lines.old ++ (tc_frame_text plain.now (λ vc. farm_of r vc views) read.now
        ++ codes "\n") }
    ensures farms { (r : ReceptionParameters) (views : List TcView) → HaveStepped r farms.old views
        → HaveStepped r farms.new (with_frame views read.now) }
{
    match read {
        Ok(frame) => push_tc_view(lines, plain.has(frame.vc()), farms, frame),
        Err(reason) => push_tc_skip(lines, *reason),
    }
    lines.push(b"\n");
}

fn push_tc_view(lines: &mut Lines, plain: bool, farms: &mut Farms, frame: &TcFrame)
    requires { HasRoomFor text_width lines.old }
    ensures text { (r : ReceptionParameters) (views : List TcView) → HaveStepped r farms.old views
        → lines.new ≡ lines.old ++ tc_view_text plain (farm_of r frame.now.vc views) frame.now }
    ensures farms { (r : ReceptionParameters) (views : List TcView) → HaveStepped r farms.old views
        → HaveStepped r farms.new (views ++ frame.now ∷ []) }
    ensures short { length lines.new ≤ length lines.old + text_width }
{
    lines.push(b" frame vc ");
    lines.push_small_number(frame.vc());
    push_content(lines, plain, frame.content());
    push_step(lines, farms, frame);
}

// Hands a frame to FARM-1 of its virtual channel, and adds the verdict and the CLCW after it.
fn push_step(lines: &mut Lines, farms: &mut Farms, frame: &TcFrame)
    requires { HasRoomFor fields_width lines.old }
    ensures text { (r : ReceptionParameters) (views : List TcView) → HaveStepped r farms.old views
        → lines.new ≡ lines.old ++ (codes " " ++ step_text frame.now.vc
        (farm_step r.window (farm_of r frame.now.vc views).state (event_of frame.now.content))) }
    ensures farms { (r : ReceptionParameters) (views : List TcView) → HaveStepped r farms.old views
        → HaveStepped r farms.new (views ++ frame.now ∷ []) }
    ensures short { length lines.new ≤ length lines.old + fields_width }
{
    let verdict = farms.step(frame);
    push_frame_verdict(lines, verdict);
    lines.push_hex_word(&farms.clcw(frame.vc()).write());
}

// Adds the verdict on a frame, and the name of what follows. Nearly all frames are accepted, so
// their text is pushed at once: `show` of TC frames takes 3 to 5 % fewer instructions.
fn push_frame_verdict(lines: &mut Lines, verdict: Verdict)
    requires { HasRoomFor words_width lines.old }
    ensures text { lines.new ≡ lines.old ++ (codes " " ++ verdict_word verdict ++ codes " clcw ") }
    ensures short { length lines.new ≤ length lines.old + words_width }
{
    match verdict {
        Verdict::Accept => lines.push(b" accept clcw "),
        other => {
            push_verdict(lines, other);
            lines.push(b" clcw ");
        }
    }
}

fn push_content(lines: &mut Lines, plain: bool, carried: TcContent)
    requires room { HasRoomFor part_width lines.old }
    requires unit { IsContent (content carried) }
    ensures text { lines.new
        ≡ lines.old ++ (codes " " ++ content_text plain (content carried.entry)) }
    ensures short { length lines.new ≤ length lines.old + part_width }
{
    match carried {
        TcContent::Ad { ns, unit } => {
            lines.push(b" ad ");
            lines.push_small_number(ns);
            push_unit(lines, plain, unit);
        }
        TcContent::Bd { unit } => {
            lines.push(b" bd");
            push_unit(lines, plain, unit);
        }
        TcContent::Unlock => lines.push(b" unlock"),
        TcContent::SetVr(vr) => {
            lines.push(b" setvr ");
            lines.push_small_number(vr);
        }
    }
}

#[inline(always)]
fn push_unit(lines: &mut Lines, plain: bool, unit: &[u8])
    requires room { HasRoomFor fields_width lines.old }
    requires some { 0 < length unit.now }
    ensures text { lines.new ≡ lines.old ++ unit_text plain unit.now }
    ensures short { length lines.new ≤ length lines.old + fields_width }
{
    if plain {
        lines.push(b" unit octets ");
        lines.push_number(unit.len() as u64);
        return;
    }
    let (header, octets) = split_unit(unit);
    let (places, many) = header_text(&header);
    lines.push_first(&places, many);
    lines.push_number(octets.len() as u64);
}

// The segment header of a unit, and the octets after it.
fn split_unit(unit: &[u8]) -> (SegmentHeader, &[u8])
    requires { 0 < length unit.now }
    ensures header { result.0 ≡ header_at unit.now }
    ensures octets { length result.1.now ≡ length unit.now - 1 }
{
    let (header, octets) = front::<1>(unit);
    (SegmentHeader::read(header), octets)
}
