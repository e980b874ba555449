//! The lines of the anomalies of a TM recording.
ghost use Rattle.std.specs.Prelude.{◌≡◌, ◌++◌, ℕ, true, [], length, Ok};
ghost use Rattle.std.specs.List.{concat};
ghost use Rattle.sl_engine.specs.Io.Lines.{HasRoom, HasRoomFor, line_width};
ghost use Rattle.sl_engine.specs.Verbs.Check.Checking.{AddsAnomalies};
ghost use Rattle.sl_engine.specs.Verbs.Check.Tm.{gap_anomaly, tm_anomaly_lines};

use crate::io::lines::Lines;
use crate::io::words::push_tm_skip;
use crate::kind::tm::TmFound;
use crate::verbs::check::lines::{AnomalyPlace, event_lines, push_part};
use sl_tmframe::TmSkip;

/// Adds the lines of a frame, and answers how many they are.
#[inline(always)]
pub fn tm_anomaly_lines(lines: &mut Lines, offset: u64, found: Result<TmFound, TmSkip>) -> u64
    requires { HasRoom lines.old }
    ensures text { lines.new ≡ lines.old ++ concat (tm_anomaly_lines offset found) }
    ensures number { result ≡ length (tm_anomaly_lines offset found) }
{
    match found {
        Ok(found) => tm_found_lines(lines, offset, &found),
        Err(reason) => {
            lines.push_number(offset);
            push_tm_skip(lines, reason);
            lines.push(b"\n");
            1
        }
    }
}

// The lines of the anomalies, in their order. Nearly every frame has none, and is done after four
// tests, with no numbers of lines to add up.
#[inline(always)]
fn tm_found_lines(lines: &mut Lines, offset: u64, found: &TmFound) -> u64
    requires { HasRoom lines.old }
    ensures text { lines.new ≡ lines.old ++ concat (tm_anomaly_lines offset (Ok found.now)) }
    ensures number { result ≡ length (tm_anomaly_lines offset (Ok found.now)) }
{
    if has_no_anomaly(found) {
        return 0;
    }
    let at = AnomalyPlace {
        offset,
        vc: u32::from(found.vc),
        map: None,
    };
    let dropped = found.dropped;
    let gaps = gap_lines(lines, offset, found);
    let drops = event_lines(lines, at, b" dropped", dropped > 0, Some(dropped));
    let opaque = event_lines(lines, at, b" opaque", found.opaque, None);
    let foreign = event_lines(lines, at, b" foreign", found.foreign, None);
    gaps + drops + opaque + foreign
}

// Whether the frame has no anomaly.
#[inline(always)]
fn has_no_anomaly(found: &TmFound) -> bool
    ensures { result ≡ true → (offset : ℕ) → tm_anomaly_lines offset (Ok found.now) ≡ [] }
{
    match found.gap {
        None => found.dropped == 0 && !found.opaque && !found.foreign,
        Some(_) => false,
    }
}

// Adds the line of a gap, if another virtual channel frame count was expected.
#[inline(always)]
fn gap_lines(lines: &mut Lines, offset: u64, found: &TmFound) -> u64
    requires { HasRoomFor line_width lines.old }
    ensures { AddsAnomalies lines.old (gap_anomaly offset found.now found.now.gap)
        lines.new result }
{
    let Some(expected) = found.gap else {
        return 0;
    };
    lines.push_number(offset);
    push_part(lines, b" gap vc ", u64::from(found.vc));
    push_part(lines, b" expected ", u64::from(expected));
    push_part(lines, b" found ", u64::from(found.vc_count));
    lines.push(b"\n");
    1
}
