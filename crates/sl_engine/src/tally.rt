//! What an engine has counted so far.
ghost use Rattle.std.specs.Prelude.{◌≡◌, ◌+◌, ◌^◌, ◌<◌, ◌≤◌};
ghost use Rattle.sl_engine.specs.Tally.{counts_more, counts_with_anomalies, counts_with_remainder, no_counts};

use crate::link::totals::Totals;

/// What a frame brought: `packets` that aren't idle, and `idle` ones.
#[derive(Clone, Copy)]
pub struct FrameReport {
    pub is_skipped: bool,
    pub packets: u32,
    pub idle: u32,
}

/// The report on a skipped frame: no packets.
pub const SKIPPED: FrameReport = FrameReport {
    is_skipped: true,
    packets: 0,
    idle: 0,
};

// Totals that are counted while frames come. Until the last one has come there is no remainder.
impl Totals {
    /// Nothing yet.
    pub(crate) fn none() -> Totals
        ensures { result ≡ no_counts }
    {
        Totals {
            octets: 0,
            frames: 0,
            skipped: 0,
            rest: 0,
            packets: 0,
            idle: 0,
            anomalies: 0,
        }
    }

    /// Counts one frame more, of `octets` octets. The caller sees to it that all packets, idle ones
    /// included, are then no more than all octets.
    pub(crate) fn add(&mut self, octets: u64, report: FrameReport)
        requires fits { self.old.octets + octets < 2 ^ 64 }
        requires within { self.old.packets + report.packets + (self.old.idle + report.idle)
            ≤ self.old.octets + octets }
        requires some { 0 < octets }
        ensures { self.new ≡ counts_more self.old octets report }
    {
        self.octets += octets;
        self.frames += 1;
        if report.is_skipped {
            self.skipped += 1;
        }
        self.packets += u64::from(report.packets);
        self.idle += u64::from(report.idle);
    }

    /// Counts `more` anomalies. The caller sees to it that all are then no more than the octets.
    pub(crate) fn add_anomalies(&mut self, more: u64)
        requires { self.old.anomalies + more ≤ self.old.octets }
        ensures { self.new ≡ counts_with_anomalies self.old more }
    {
        self.anomalies += more;
    }

    /// The totals of a whole recording, by these totals of its frames: it has a remainder of
    /// `remainder` octets, and `more` anomalies were met after the last frame. `more` is 0 but in
    /// `check`, which alone counts anomalies.
    pub(crate) fn with_remainder(&self, remainder: u64, more: u64) -> Totals
        requires fits { self.now.octets + remainder < 2 ^ 64 }
        requires few { self.now.anomalies + more ≤ self.now.octets + remainder }
        ensures { result ≡ counts_with_remainder self.now remainder more }
    {
        Totals {
            octets: self.octets + remainder,
            rest: remainder,
            anomalies: self.anomalies + more,
            ..*self
        }
    }
}
