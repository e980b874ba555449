//! The count of the series of segments that is incomplete on a MAP, if there is one.
ghost use Rattle.std.specs.Prelude.{◌≡◌, ◌≤◌, length, None, option_map, IfSome};
ghost use Rattle.sl_packet.specs.Packet.{longest_packet};
ghost use Rattle.sl_tcframe.specs.TcFrame.{longest_unit};
ghost use Rattle.sl_tcflow.specs.Incomplete.{if_fits};
ghost use Rattle.sl_tcflow.specs.IncompleteSteps.{IsReportOnSegment, continued_report, empty_report};
ghost use Rattle.sl_tcflow.specs.IncompleteSteps.{extended, incomplete_with, packets_with};
ghost use Rattle.sl_tcflow.specs.UnitCount.{CountsSeries, ForSeriesOf, ReportsPackets};

use crate::report::{EMPTY_STEP, TcStep};
use crate::segment::{CONTINUING, FIRST, LAST, Segment};
use crate::unit_count::UnitCount;
use sl_packet::LONGEST_PACKET;

/// The number of octets so far of the incomplete series, 0 to 65,542. `None` where no series is
/// incomplete.
#[inline(always)]
pub fn held(series: &Option<UnitCount>) -> Option<u32>
    ensures octets { ForSeriesOf series.now (λ before. result ≡ option_map length before) }
    ensures most { IfSome result (λ octets. octets ≤ longest_packet) }
{
    match series {
        Some(count) => Some(count.octets),
        None => None,
    }
}

/// Takes the next segment, and reports the packets of the service data unit that ends with it and
/// the segment's anomalies. `before` in a clause is any octets so far that have the count.
#[inline(always)]
pub fn advance(series: &mut Option<UnitCount>, segment: &Segment) -> TcStep
    // The series continues, begins or ends as the sequence flags say.
    ensures series { ForSeriesOf series.old (λ before. CountsSeries
        (incomplete_with before segment.now.flags segment.now.octets) series.new) }
    ensures step { ForSeriesOf series.old (λ before.
        IsReportOnSegment before segment.now.flags segment.now.octets result) }
    ensures packets { ForSeriesOf series.old (λ before. ReportsPackets
        (packets_with before segment.now.flags segment.now.octets) result) }
{
    match segment.flags {
        CONTINUING => extend(series, segment.octets),
        FIRST => begin_series(series, segment.octets),
        LAST => end(series, segment.octets),
        // `WHOLE`, no segmentation
        _ => take_whole(series, segment.octets),
    }
}

// Continues the incomplete series with these octets, and gives the series up where it becomes too
// long. Where no series is incomplete, the report says so (`stray`).
#[inline(always)]
fn extend(series: &mut Option<UnitCount>, octets: &[u8]) -> TcStep
    requires { length octets.now ≤ longest_unit }
    ensures series { ForSeriesOf series.old (λ before.
        CountsSeries (extended before octets.now) series.new) }
    ensures step { ForSeriesOf series.old (λ before. result ≡ continued_report before octets.now) }
{
    let Some(count) = *series else {
        return TcStep {
            stray: true,
            ..EMPTY_STEP
        };
    };
    if count.octets as usize + octets.len() > LONGEST_PACKET {
        *series = None;
        return TcStep {
            long: true,
            ..EMPTY_STEP
        };
    }
    *series = Some(count.with_part(octets));
    EMPTY_STEP
}

// Begins a series with these octets, which are never too many for one (`if_fits`). Drops the
// incomplete series before, if there is one.
#[inline(always)]
fn begin_series(series: &mut Option<UnitCount>, octets: &[u8]) -> TcStep
    requires { length octets.now ≤ longest_unit }
    ensures series { CountsSeries (if_fits octets.now) series.new }
    ensures step { ForSeriesOf series.old (λ before.
        result ≡ record empty_report { dropped = option_map length before }) }
{
    let dropped = held(series);
    *series = Some(UnitCount::of(octets));
    TcStep {
        dropped,
        ..EMPTY_STEP
    }
}

// Ends the incomplete series with these octets, and counts its packets. Where no series is
// incomplete, or the series becomes too long, the report says so. The number 2 in the clauses is
// the sequence flags of a last segment.
#[inline(always)]
fn end(series: &mut Option<UnitCount>, octets: &[u8]) -> TcStep
    requires { length octets.now ≤ longest_unit }
    ensures none { series.new ≡ None }
    ensures step { ForSeriesOf series.old (λ before. IsReportOnSegment before 2 octets.now result) }
    ensures packets { ForSeriesOf series.old (λ before.
        ReportsPackets (packets_with before 2 octets.now) result) }
{
    let step = extend(series, octets);
    let Some(count) = *series else {
        return step;
    };
    *series = None;
    count.report()
}

// Takes a segment with no segmentation, and counts its packets. Drops the incomplete series before,
// if there is one. The number 3 in the clauses is the segment's sequence flags.
#[inline(always)]
fn take_whole(series: &mut Option<UnitCount>, octets: &[u8]) -> TcStep
    requires { length octets.now ≤ longest_unit }
    ensures none { series.new ≡ None }
    ensures step { ForSeriesOf series.old (λ before. IsReportOnSegment before 3 octets.now result) }
    ensures packets { ForSeriesOf series.old (λ before.
        ReportsPackets (packets_with before 3 octets.now) result) }
{
    let dropped = held(series);
    *series = None;
    TcStep {
        dropped,
        ..UnitCount::of(octets).report()
    }
}
