//! The lines of the anomalies of a TC recording.
ghost use Rattle.std.specs.Prelude.{◌≡◌, if◌then◌else◌, [], ◌++◌, length, Ok};
ghost use Rattle.std.specs.List.{concat};
ghost use Rattle.sl_engine.specs.Io.Lines.{HasRoom, HasRoomFor, line_width};
ghost use Rattle.sl_engine.specs.Verbs.Check.Checking.{AddsAnomalies};
ghost use Rattle.sl_engine.specs.Verbs.Check.Tc.{tc_anomaly_lines, discarded_anomaly, discards, is_quiet};

use crate::io::lines::Lines;
use crate::io::words::{push_tc_skip, push_verdict};
use crate::kind::tc::TcFound;
use crate::verbs::check::lines::{AnomalyPlace, event_lines, push_part};
use sl_cop::Verdict;
use sl_tcframe::TcSkip;

/// Adds the lines of a frame, and answers how many they are.
#[inline(always)]
pub fn tc_anomaly_lines(lines: &mut Lines, offset: u64, found: Result<TcFound, TcSkip>) -> u64
    requires { HasRoom lines.old }
    ensures text { lines.new ≡ lines.old ++ concat (tc_anomaly_lines offset found) }
    ensures number { result ≡ length (tc_anomaly_lines offset found) }
{
    match found {
        Ok(found) => {
            if is_quiet(&found) {
                return 0;
            }
            tc_found_lines(lines, offset, found)
        }
        Err(reason) => {
            lines.push_number(offset);
            push_tc_skip(lines, reason);
            lines.push(b"\n");
            1
        }
    }
}

// Whether there is no anomaly, as with most frames. Asked first, it spares the questions one by
// one: `check` of TC frames of up to 64 octets takes 13 % fewer instructions.
#[inline(always)]
fn is_quiet(found: &TcFound) -> bool
    ensures { result ≡ is_quiet found.now }
{
    !discards(found.verdict)
        && !found.stray
        && found.dropped.is_none()
        && !found.long
        && found.tail == 0
}

// Whether FARM-1 discards a frame with this verdict.
#[inline(always)]
fn discards(verdict: Verdict) -> bool
    ensures { result ≡ discards verdict }
{
    match verdict {
        Verdict::Accept | Verdict::Command => false,
        Verdict::Early | Verdict::Late | Verdict::Outside | Verdict::Refused => true,
    }
}

// The lines of the anomalies, in their order. Takes `found` by value: by reference, `check` of TC
// frames of up to 64 octets takes 5 % more instructions, since each frame stores it.
fn tc_found_lines(lines: &mut Lines, offset: u64, found: TcFound) -> u64
    requires { HasRoom lines.old }
    ensures text { lines.new ≡ lines.old ++ concat (tc_anomaly_lines offset (Ok found)) }
    ensures number { result ≡ length (tc_anomaly_lines offset (Ok found)) }
{
    let at = AnomalyPlace {
        offset,
        vc: u32::from(found.vc),
        map: Some(u32::from(found.map)),
    };
    let dropped = found.dropped;
    let discarded = discarded_lines(lines, offset, &found);
    let stray = event_lines(lines, at, b" stray", found.stray, None);
    let drops = event_lines(lines, at, b" dropped", dropped.is_some(), dropped);
    let long = event_lines(lines, at, b" long", found.long, None);
    let tails = event_lines(lines, at, b" tail", found.tail > 0, Some(found.tail));
    discarded + stray + drops + long + tails
}

// Adds the line of a frame of type AD that FARM-1 discards, if the frame is one.
fn discarded_lines(lines: &mut Lines, offset: u64, found: &TcFound) -> u64
    requires { HasRoomFor line_width lines.old }
    ensures { AddsAnomalies lines.old (if discards found.now.verdict then
        discarded_anomaly offset found.now found.now.ns else []) lines.new result }
{
    if !discards(found.verdict) {
        return 0;
    }
    let Some(ns) = found.ns else {
        return 0;
    };
    lines.push_number(offset);
    push_verdict(lines, found.verdict);
    push_part(lines, b" vc ", u64::from(found.vc));
    push_part(lines, b" ad ", u64::from(ns));
    lines.push(b"\n");
    1
}
