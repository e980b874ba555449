//! What an engine counted.
ghost use Rattle.std.specs.Prelude.{◌≡◌, ◌≤◌};

use std::marker::Model;

/// What an engine counted in a recording. No count is above the octets. How engines count is in
/// tally.rt.
#[derive(Clone, Copy, Debug, PartialEq, Eq)]
pub struct Totals {
    pub(crate) octets: u64,
    pub(crate) frames: u64,
    pub(crate) skipped: u64,
    pub(crate) rest: u64,
    pub(crate) packets: u64,
    pub(crate) idle: u64,
    pub(crate) anomalies: u64,
}

impl Model for Totals {
    ghost use Rattle.sl_engine.specs.Link.Totals.{Counts};
    ghost use Rattle.sl_engine.specs.Link.TotalsModel.{totals_counts, inside_of, AreTotals};

    ghost Value = { Counts };

    ghost view = { totals_counts };

    ghost invariant = { AreTotals };

    ghost inverse = { inside_of };
}

impl Totals {
    /// The octets that were read.
    pub fn octets(&self) -> u64
        ensures { result ≡ self.now.octets }
    {
        self.octets
    }

    /// The whole frames, skipped ones included.
    pub fn frames(&self) -> u64
        ensures value { result ≡ self.now.frames }
        ensures within { result ≤ self.now.octets }
    {
        self.frames
    }

    /// The frames that were skipped, each for a reason of [`TmSkip`](sl_tmframe::TmSkip) or
    /// [`TcSkip`](sl_tcframe::TcSkip).
    pub fn skipped(&self) -> u64
        ensures value { result ≡ self.now.skipped }
        ensures within { result ≤ self.now.octets }
    {
        self.skipped
    }

    /// The octets of the remainder after the last whole frame.
    pub fn rest(&self) -> u64
        ensures value { result ≡ self.now.rest }
        ensures within { result ≤ self.now.octets }
    {
        self.rest
    }

    /// The delivered packets, idle packets left out. The count is 0 where the engine lists frames
    /// alone.
    pub fn packets(&self) -> u64
        ensures value { result ≡ self.now.packets }
        ensures within { result ≤ self.now.octets }
    {
        self.packets
    }

    /// The delivered idle packets. The count is 0 where the engine lists frames alone.
    pub fn idle(&self) -> u64
        ensures value { result ≡ self.now.idle }
        ensures within { result ≤ self.now.octets }
    {
        self.idle
    }

    /// The anomalies, one for each line of a check but that of the totals. The count is 0 after
    /// other engines.
    pub fn anomalies(&self) -> u64
        ensures value { result ≡ self.now.anomalies }
        ensures within { result ≤ self.now.octets }
    {
        self.anomalies
    }
}
