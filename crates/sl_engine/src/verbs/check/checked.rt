//! The lines that `check` has for a kind of frames, TM or TC.
ghost use Rattle.std.specs.Prelude.{◌≡◌, ◌<◌, ◌≤◌, ◌++◌, [], ℕ, List, length, flat_map};
ghost use Rattle.std.specs.List.{concat};
ghost use Rattle.sl_engine.specs.Io.Lines.{HasRoom};
ghost use Rattle.sl_engine.specs.Verbs.Check.Checking.{AddsAnomalies};

use crate::io::lines::Lines;
use crate::kind::tc::TcFound;
use crate::kind::tm::TmFound;
use crate::kind::{Counter, Followed};
use crate::verbs::check::lines::{AnomalyPlace, event_lines};
use crate::verbs::check::{lines_tc, lines_tm};
use sl_tcflow::{Receiver, UnitCounter};
use sl_tcframe::TcSkip;
use sl_tmflow::{Extractor, PacketCounter};
use sl_tmframe::TmSkip;

// The virtual channels of TM frames.
const TM_CHANNELS: u16 = 8;

/// What lines there are of a kind of frames: of what is found of each, and of what is incomplete
/// after the last one.
pub trait Checked: Followed {
    ghost use Rattle.sl_engine.specs.Link.Managed.{Parameters};

    /// The lines of what is found of a frame that begins at an offset.
    ghost lines_of: { ℕ → Self.Found → List (List ℕ) };

    /// The line `open`, of what is incomplete on a channel, or none: under the parameters, by the
    /// offset that the line names, the frames so far, and the channel's number.
    ghost open_at: { Parameters → ℕ → List (List ℕ) → ℕ → List (List ℕ) };

    /// How many channels there are, under any parameters.
    ghost channel_limit: { ℕ };

    /// A bound: on the channels from this number on, if there are any, nothing is incomplete. So a
    /// caller looks at the channels below it alone. Clauses `all` and `few` aren't about the bound:
    /// they say what holds of every kind here, for the same caller.
    fn open_below(&self) -> u16
        ensures most { result ≤ channel_limit }
        ensures none { (p : Parameters) (offset : ℕ) (frames : List (List ℕ))
            → Self.has_processed self.now p frames → (channel : ℕ) → result ≤ channel
            → channel < channel_limit → open_at p offset frames channel ≡ [] }
        // The kind has as many channels as stated here.
        ensures all { (p : Parameters) → (Self.kind p).channel_limit ≡ channel_limit }
        // What is incomplete after frames is no more than the frames.
        ensures few { (p : Parameters) (offset : ℕ) (frames : List (List ℕ))
            → length (flat_map (open_at p offset frames) (Self.kind p).channels) ≤ length frames };
}

/// A counter of a kind of frames whose lines are written.
pub trait AnomalyLines: Checked + Counter {
    ghost use Rattle.sl_engine.specs.Link.Managed.{Parameters};

    /// Adds the lines of what is found of a frame that begins at `offset`, and answers how many
    /// lines these are.
    fn anomaly_lines(lines: &mut Lines, offset: u64, found: Self::Found) -> u64
        requires { HasRoom lines.old }
        ensures text { lines.new ≡ lines.old ++ concat (Self.lines_of offset found) }
        ensures number { result ≡ length (Self.lines_of offset found) }
        // Not about this call: a frame of five octets or more has fewer lines than octets. Framers
        // cut no shorter ones.
        ensures few { (p : Parameters) (before : List (List ℕ)) (frame : List ℕ)
            → Self.Framer.is_frame p frame → 5 ≤ length frame
            → length (Self.lines_of offset (Self.found p before frame)) < length frame };

    /// Adds the line of what is incomplete on a channel, if anything is, and answers how many lines
    /// that is: one or none.
    fn open_lines(&self, offset: u64, channel: u16, lines: &mut Lines) -> u64
        requires channel { channel < Self.channel_limit }
        requires room { HasRoom lines.old }
        ensures added { (p : Parameters) (frames : List (List ℕ))
            → Self.has_processed self.now p frames
            → AddsAnomalies lines.old (Self.open_at p offset frames channel) lines.new result }
        ensures few { result ≤ 1 };
}

impl Checked for Extractor {
    ghost use Rattle.sl_engine.specs.Verbs.Check.Tm.{tm_anomaly_lines, tm_open};

    ghost lines_of = { tm_anomaly_lines };

    ghost open_at = { tm_open };

    ghost channel_limit = { 8 };

    fn open_below(&self) -> u16 {
        TM_CHANNELS
    }
}

impl Checked for PacketCounter {
    ghost use Rattle.sl_engine.specs.Verbs.Check.Tm.{tm_anomaly_lines, tm_open};

    ghost lines_of = { tm_anomaly_lines };

    ghost open_at = { tm_open };

    ghost channel_limit = { 8 };

    fn open_below(&self) -> u16 {
        TM_CHANNELS
    }
}

impl Checked for Receiver {
    ghost use Rattle.sl_packet.specs.Delivered.{channel_count};
    ghost use Rattle.sl_engine.specs.Verbs.Check.Tc.{tc_anomaly_lines, tc_open};

    ghost lines_of = { tc_anomaly_lines };

    ghost open_at = { tc_open };

    ghost channel_limit = { channel_count };

    fn open_below(&self) -> u16 {
        self.none_open_from()
    }
}

impl Checked for UnitCounter {
    ghost use Rattle.sl_packet.specs.Delivered.{channel_count};
    ghost use Rattle.sl_engine.specs.Verbs.Check.Tc.{tc_anomaly_lines, tc_open};

    ghost lines_of = { tc_anomaly_lines };

    ghost open_at = { tc_open };

    ghost channel_limit = { channel_count };

    fn open_below(&self) -> u16 {
        self.none_open_from()
    }
}

impl AnomalyLines for PacketCounter {
    fn anomaly_lines(lines: &mut Lines, offset: u64, found: Result<TmFound, TmSkip>) -> u64 {
        lines_tm::tm_anomaly_lines(lines, offset, found)
    }

    fn open_lines(&self, offset: u64, channel: u16, lines: &mut Lines) -> u64 {
        let vc = channel as u8;
        let at = AnomalyPlace {
            offset,
            vc: u32::from(vc),
            map: None,
        };
        let octets = self.held(vc);
        event_lines(lines, at, b" open", octets > 0, Some(octets))
    }
}

impl AnomalyLines for UnitCounter {
    fn anomaly_lines(lines: &mut Lines, offset: u64, found: Result<TcFound, TcSkip>) -> u64 {
        lines_tc::tc_anomaly_lines(lines, offset, found)
    }

    fn open_lines(&self, offset: u64, channel: u16, lines: &mut Lines) -> u64 {
        // The number of a channel is 64 VC + MAP.
        let vc = (channel / 64) as u8;
        let map = (channel % 64) as u8;
        let at = AnomalyPlace {
            offset,
            vc: u32::from(vc),
            map: Some(u32::from(map)),
        };
        // A series may have no octet, so `held` doesn't say whether one is incomplete.
        let octets = self.held(vc, map);
        event_lines(lines, at, b" open", self.is_open(vc, map), Some(octets))
    }
}
