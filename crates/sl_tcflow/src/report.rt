//! What a frame brought to a receiver or a counter.
ghost use Rattle.std.specs.Prelude.{◌≡◌, ◌≤◌, IfSome};

use sl_cop::Verdict;
use std::marker::Model;

/// The report of a [`Receiver`](crate::Receiver) or a [`UnitCounter`](crate::UnitCounter) on one
/// frame: the verdict on the frame, the MAP of its unit, and what the unit brought. A unit that isn't
/// accepted brings nothing, and neither does a frame without a unit. Then all values but the verdict
/// and the MAP are `false`, `None` or 0.
#[derive(Clone, Copy, Debug, PartialEq, Eq)]
pub struct TcStep {
    pub(crate) verdict: Verdict,
    pub(crate) map: u8,
    pub(crate) packets: u32,
    pub(crate) idle: u32,
    pub(crate) stray: bool,
    pub(crate) dropped: Option<u32>,
    pub(crate) long: bool,
    pub(crate) tail: u32,
}

/// The report on an accepted frame whose unit ends no service data unit and has no anomaly, before
/// its MAP is filled in.
pub const EMPTY_STEP: TcStep = TcStep {
    verdict: Verdict::Accept,
    map: 0,
    packets: 0,
    idle: 0,
    stray: false,
    dropped: None,
    long: false,
    tail: 0,
};

impl Model for TcStep {
    ghost use Rattle.sl_tcflow.specs.StepReport.{StepReport};

    ghost Value = { StepReport };

    ghost use Rattle.sl_tcflow.specs.StepReportModel.{report_of, inside_of, IsReport};

    ghost view = { report_of };

    ghost invariant = { IsReport };

    ghost inverse = { inside_of };
}

impl TcStep {
    /// The verdict of FARM-1 on the frame.
    pub fn verdict(&self) -> Verdict
        ensures { result ≡ self.now.verdict }
    {
        self.verdict
    }

    /// The multiplexer access point identifier (MAP) of the frame's unit, 0 to 63, accepted or not.
    /// 0 on a virtual channel without segment headers, and where the frame carries no unit.
    pub fn map(&self) -> u8
        ensures value { result ≡ self.now.map }
        ensures most { result ≤ 63 }
    {
        self.map
    }

    /// The number of packets of the service data unit that the frame's unit completes, idle packets
    /// left out; a receiver has handed them over. 0 where the unit completes none.
    pub fn packets(&self) -> u32
        ensures { result ≡ self.now.packets }
    {
        self.packets
    }

    /// The number of idle packets of the service data unit that the frame's unit completes. 0 where
    /// the unit completes none.
    pub fn idle(&self) -> u32
        ensures { result ≡ self.now.idle }
    {
        self.idle
    }

    /// Whether the frame's unit is out of sequence: it is a continuing or last segment, and no
    /// series is incomplete on its MAP.
    pub fn stray(&self) -> bool
        ensures { result ≡ self.now.stray }
    {
        self.stray
    }

    /// The number of octets of the series that the frame's unit drops, 0 to 65,542. A unit that is
    /// a first segment, or has no segmentation, drops the incomplete series of its MAP. `None`
    /// where no series is dropped.
    pub fn dropped(&self) -> Option<u32>
        ensures value { result ≡ self.now.dropped }
        ensures most { IfSome result (λ octets. octets ≤ 65542) }
    {
        self.dropped
    }

    /// Whether the incomplete series is given up: the frame's unit is a continuing or last segment,
    /// and the series has more than 65,542 octets with this segment. The bound is this project's
    /// choice.
    pub fn long(&self) -> bool
        ensures { result ≡ self.now.long }
    {
        self.long
    }

    /// How many octets are left after the last whole packet of the service data unit that the
    /// frame's unit completes: all of its octets where it has no packet. These octets are dropped.
    /// 0 where no octets are left, where the unit completes no service data unit, and where the
    /// series is given up.
    pub fn tail(&self) -> u32
        ensures { result ≡ self.now.tail }
    {
        self.tail
    }
}
