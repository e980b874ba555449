//! The report of an extractor, or of a counter, on one frame.
ghost use Rattle.std.specs.Prelude.{◌≡◌, ◌≤◌};

use std::marker::Model;

/// The report of an [`Extractor`](crate::Extractor) or a [`PacketCounter`](crate::PacketCounter) on
/// one frame: the packets that end in the frame, and the anomalies at the frame.
#[derive(Clone, Copy, Debug, PartialEq, Eq)]
pub struct TmStep {
    pub(crate) packets: u32,
    pub(crate) idle: u32,
    pub(crate) gap: Option<u8>,
    pub(crate) dropped: u32,
    pub(crate) foreign: bool,
}

impl Model for TmStep {
    ghost use Rattle.sl_tmflow.specs.StepReport.{StepReport};

    ghost Value = { StepReport };

    ghost use Rattle.sl_tmflow.specs.StepReportModel.{report_of, inside_of, IsReport};

    ghost view = { report_of };

    ghost invariant = { IsReport };

    ghost inverse = { inside_of };
}

/// The report on a frame in which no packet ends and that has no anomaly.
pub const EMPTY_STEP: TmStep = TmStep {
    packets: 0,
    idle: 0,
    gap: None,
    dropped: 0,
    foreign: false,
};

impl TmStep {
    /// The number of packets that end in the frame, idle packets left out.
    pub fn packets(&self) -> u32
        ensures { result ≡ self.now.packets }
    {
        self.packets
    }

    /// The number of idle packets that end in the frame.
    pub fn idle(&self) -> u32
        ensures { result ≡ self.now.idle }
    {
        self.idle
    }

    /// The virtual channel frame count that was expected, 0 to 255, where the frame has another
    /// one. The expected count is that of the last frame on the same virtual channel plus 1, modulo
    /// 256. `None` where the frame has the expected count, and for the first frame of a virtual
    /// channel.
    ///
    /// A gap doesn't say how many frames are missing: none is where a frame comes twice. Where 256
    /// frames in a row are missing, or a multiple of 256, the count is the expected one.
    pub fn gap(&self) -> Option<u8>
        ensures { result ≡ self.now.gap }
    {
        self.gap
    }

    /// The number of octets so far of the packet that the frame breaks off: 1 to 65,541, and 0
    /// where the frame breaks off no packet. Octets of the frame itself aren't counted. A frame
    /// breaks off a packet that was incomplete before the frame, where the packet neither ends in
    /// the frame nor goes on past it.
    pub fn dropped(&self) -> u32
        ensures value { result ≡ self.now.dropped }
        ensures most { result ≤ 65541 }
    {
        self.dropped
    }

    /// Whether octets of a packet version other than 0 stand at a packet start of the frame. They
    /// begin no packet.
    pub fn foreign(&self) -> bool
        ensures { result ≡ self.now.foreign }
    {
        self.foreign
    }
}
