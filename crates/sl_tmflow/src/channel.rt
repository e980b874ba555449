//! A virtual channel, and the packet that is incomplete on it.
ghost use Rattle.std.specs.Prelude.{◌≡◌, ◌≢◌, ◌⊎◌, ◌≤◌, ◌+◌, ◌++◌, ℕ, List, [], Some, length};
ghost use Rattle.std.specs.Prelude.{OnOk, IfOk, IfErr};
ghost use Rattle.sl_packet.specs.Front.{WholePacket, front_of, is_foreign};
ghost use Rattle.sl_packet.specs.Packets.{packets_of, rest_of};
ghost use Rattle.sl_packet.specs.Stopping.{HandsOver};
ghost use Rattle.sl_tmframe.specs.TmField.{as_content};
ghost use Rattle.sl_tmframe.specs.TmFrame.{IsFieldInRange, Packets, longest_field};
ghost use Rattle.sl_tmflow.specs.Anomaly.{gap_after};
ghost use Rattle.sl_tmflow.specs.Channel.{broken_in, octets_dropped, foreign_in, held_at_field_end};
ghost use Rattle.sl_tmflow.specs.Channel.{held_before_starts, octets_held, incomplete_in, new_channel};
ghost use Rattle.sl_tmflow.specs.Channel.{packets_ended, channel_after, continuation_in};
ghost use Rattle.sl_tmflow.specs.Delivery.{ended, field_continuation};
ghost use Rattle.sl_tmflow.specs.Incomplete.{longest_incomplete};
ghost use Rattle.sl_tmflow.specs.PacketStart.{whole_packets};
ghost use Rattle.sl_tmflow.specs.StepReport.{counts_of};

use crate::frame_count::{gap_after, is_after};
use crate::hand_over::{hand, hand_packet};
use crate::packet_octets::PacketOctets;
use crate::progress::{Progress, add_field};
use crate::report::{EMPTY_STEP, TmStep};
use sl_packet::{FlowFault, Need, PacketSink, add_part, give_back, need};
use sl_tmframe::{TmField, TmFrame};
use std::alloc::Global;
use std::marker::Model;

/// What is kept of a virtual channel after its last frame.
#[derive(Drop)]
pub struct Channel {
    // The virtual channel frame count of the last frame, and `None` before the first one.
    count: Option<u8>,
    // The octets so far of the incomplete packet, at most 65,541. Empty where no packet is
    // incomplete.
    held: Vec<u8>,
}

impl Model for Channel {
    ghost use Rattle.sl_tmflow.specs.Channel.{ChannelWithMemory};

    ghost Value = { ChannelWithMemory };

    ghost use Rattle.sl_tmflow.specs.ExtractorModel.{channel_with_memory, HoldsIncomplete};

    ghost view = { channel_with_memory };

    ghost invariant = { HoldsIncomplete };
}

impl Channel {
    /// A virtual channel that had no frame yet.
    pub fn new(alloc: Global) -> Channel
        ensures { result ≡ new_channel }
    {
        Channel {
            count: None,
            held: Vec::new(alloc),
        }
    }

    /// Takes the next frame: hands the sink the packets that end in the frame, and answers the
    /// report on the frame. After a fault no clause says what the state is, and the extractor
    /// doesn't read it any more.
    #[tactic(auto, using(crate::proofs::lemmas::Delivery::Channel::none_kept))]
    pub fn take_frame<S: PacketSink>(
        &mut self,
        frame: &TmFrame,
        sink: &mut S,
    ) -> Result<TmStep, FlowFault>
        // The state after the frame, and the packets that end in it.
        ensures state { OnOk result (self.new.state ≡ channel_after self.old.state frame.now) }
        ensures hands_over { HandsOver S.taking S.failing S.failures counts_of
            sink.old frame.now.vc (packets_ended self.old.state frame.now) result sink.new }

        // The anomalies.
        ensures gap { IfOk result (λ report.
            report.gap ≡ gap_after self.old.state.count frame.now.vc_count) }
        ensures dropped { IfOk result (λ report.
            report.dropped ≡ length (broken_in self.old.state frame.now)) }
        ensures foreign { IfOk result (λ report. report.foreign ≡ foreign_in frame.now.field) }

        // Memory is refused only where a packet is incomplete, before the frame or after it.
        ensures memory { IfErr result (λ flow. flow ≡ FlowFault.Memory
            → (self.old.state.held ≢ []) ⊎ ((channel_after self.old.state frame.now).held ≢ [])) }
    {
        let gap = gap_after(self.count, frame.vc_count());
        // The packet that was incomplete before the frame comes first, then those that start in it.
        // `match` and not `?`, here and below: `?` converts the fault, and each clause that says
        // which fault it is would then have to be proved by hand.
        let continued = match self.continue_packet(frame, sink) {
            Ok(report) => report,
            Err(flow) => return Err(flow),
        };
        self.count = Some(frame.vc_count());
        let started = match self.take_starts(&frame.field(), u16::from(frame.vc()), sink) {
            Ok(report) => report,
            Err(flow) => return Err(flow),
        };
        Ok(TmStep {
            packets: continued.packets + started.packets,
            idle: continued.idle + started.idle,
            gap,
            dropped: continued.dropped,
            foreign: started.foreign,
        })
    }

    /// The number of octets so far of the incomplete packet, and 0 where no packet is incomplete.
    pub fn held(&self) -> u32
        ensures value { result ≡ length self.now.state.held }
        ensures most { result ≤ longest_incomplete }
    {
        self.held.len() as u32
    }

    // Goes on with the incomplete packet, if there is one: the packet ends in the frame, goes on
    // past the frame or is broken off. The report is on this packet alone.
    fn continue_packet<S: PacketSink>(
        &mut self,
        frame: &TmFrame,
        sink: &mut S,
    ) -> Result<TmStep, FlowFault>
        // A packet that goes on is kept, with the frame's octets.
        ensures count { self.new.state.count ≡ self.old.state.count }
        ensures held { OnOk result (self.new.state.held ≡ held_before_starts
            (continuation_in self.old.state frame.now) self.old.state.held frame.now) }

        // The sink is handed a packet that ends. The octets of one that is broken off are counted.
        ensures hands_over { HandsOver S.taking S.failing S.failures counts_of sink.old
            frame.now.vc (ended (continuation_in self.old.state frame.now)) result sink.new }
        ensures few { IfOk result (λ report. report.packets + report.idle ≤ 1) }
        ensures dropped { IfOk result (λ report.
            report.dropped ≡ length (broken_in self.old.state frame.now)) }

        // Memory is refused only where a packet is incomplete before the frame.
        ensures memory { IfErr result (λ flow. flow ≡ FlowFault.Memory → self.old.state.held ≢ []) }
    {
        if self.held.is_empty() || !is_after(self.count, frame.vc_count()) {
            return Ok(self.break_off());
        }
        match frame.field() {
            TmField::Packets { first, octets } => {
                let field = PacketOctets { first, octets };
                self.join(&field, u16::from(frame.vc()), sink)
            }
            TmField::Idle => Ok(EMPTY_STEP),
            TmField::Opaque => Ok(self.break_off()),
        }
    }

    // Breaks off the incomplete packet, if there is one, and gives its memory back. The report
    // counts the octets of this packet.
    fn break_off(&mut self) -> TmStep
        ensures count { self.new.state.count ≡ self.old.state.count }
        ensures held { self.new.state.held ≡ [] }
        ensures packets { result.packets ≡ 0 }
        ensures idle { result.idle ≡ 0 }
        ensures dropped { result.dropped ≡ length self.old.state.held }
    {
        let dropped = self.held.len() as u32;
        if dropped > 0 {
            give_back(&mut self.held);
        }
        TmStep {
            dropped,
            ..EMPTY_STEP
        }
    }

    // Goes on with the incomplete packet, where the next frame is a frame of packets.
    fn join<S: PacketSink>(
        &mut self,
        field: &PacketOctets,
        vc: u16,
        sink: &mut S,
    ) -> Result<TmStep, FlowFault>
        requires vc { vc ≤ 7 }
        requires short { length field.now.octets.now ≤ longest_field }
        // A packet that goes on is kept, with all octets of the field.
        ensures count { self.new.state.count ≡ self.old.state.count }
        ensures held { OnOk result (self.new.state.held ≡ octets_held
            (field_continuation self.old.state.held (Packets field.now.first field.now.octets.now))
            (self.old.state.held ++ field.now.octets.now)) }

        // Where the packet ends, the sink is handed it. Where the packet is broken off, its octets
        // before the field are counted.
        ensures hands_over { HandsOver S.taking S.failing S.failures counts_of sink.old vc
            (ended (field_continuation self.old.state.held
            (Packets field.now.first field.now.octets.now))) result sink.new }
        ensures few { IfOk result (λ report. report.packets + report.idle ≤ 1) }
        ensures dropped { IfOk result (λ report. report.dropped ≡ length (octets_dropped
            (field_continuation self.old.state.held (Packets field.now.first field.now.octets.now))
            self.old.state.held)) }
    {
        let before = self.held.len();
        let progress = match add_field(&mut self.held, field) {
            Ok(progress) => progress,
            Err(_) => return Err(FlowFault::Memory),
        };
        match progress {
            Progress::Ends(len) => {
                let outcome = hand_packet(sink, vc, &self.held.as_slice()[..len]);
                self.held.clear();
                outcome
            }
            Progress::Continues => Ok(EMPTY_STEP),
            Progress::Breaks => {
                self.held.truncate(before);
                Ok(self.break_off())
            }
        }
    }

    // Takes the packets that start in a data field: those that lie whole in the field, and the one
    // that is incomplete at its end.
    fn take_starts<S: PacketSink>(
        &mut self,
        field: &TmField,
        vc: u16,
        sink: &mut S,
    ) -> Result<TmStep, FlowFault>
        requires vc { vc ≤ 7 }
        requires inside { IsFieldInRange (as_content field.now) }
        // No octets are held where a packet starts: a packet that goes on leaves no packet start.
        requires free { (first : ℕ) (octets : List ℕ)
            → as_content field.now ≡ Packets (Some first) octets → self.old.state.held ≡ [] }
        // A packet that is incomplete at the end of the field is kept, and memory is refused only
        // where there is such a packet.
        ensures count { self.new.state.count ≡ self.old.state.count }
        ensures held { OnOk result
            (self.new.state.held ≡ held_at_field_end (as_content field.now) self.old.state.held) }
        ensures memory { IfErr result (λ flow. flow ≡ FlowFault.Memory
            → held_at_field_end (as_content field.now) self.old.state.held ≢ []) }

        // The sink is handed the packets that lie whole in the field. Octets of another packet
        // version after these packets are reported.
        ensures hands_over { HandsOver S.taking S.failing S.failures counts_of
            sink.old vc (whole_packets (as_content field.now)) result sink.new }
        ensures few { IfOk result (λ report. report.packets + report.idle ≤ longest_field) }
        ensures foreign { IfOk result (λ report.
            report.foreign ≡ foreign_in (as_content field.now)) }
    {
        match *field {
            TmField::Packets {
                first: Some(first),
                octets,
            } => self.take_from(&octets[usize::from(first)..], vc, sink),
            _ => Ok(EMPTY_STEP),
        }
    }

    // As `take_starts`, where `octets` are those of the data field from its first packet start on.
    #[tactic(auto, using(crate::proofs::lemmas::Delivery::Start::none_in_rest, crate::proofs::lemmas::Incomplete::List::kept_can_go_on))]
    fn take_from<S: PacketSink>(
        &mut self,
        octets: &[u8],
        vc: u16,
        sink: &mut S,
    ) -> Result<TmStep, FlowFault>
        requires vc { vc ≤ 7 }
        requires short { length octets.now ≤ longest_field }
        requires free { self.old.state.held ≡ [] }
        // A packet that is incomplete at the end of the octets is kept, and memory is refused only
        // where there is such a packet.
        ensures count { self.new.state.count ≡ self.old.state.count }
        ensures held { OnOk result (self.new.state.held
            ≡ incomplete_in (front_of (rest_of octets.now)) (rest_of octets.now)) }
        ensures memory { IfErr result (λ flow. flow ≡ FlowFault.Memory
            → incomplete_in (front_of (rest_of octets.now)) (rest_of octets.now) ≢ []) }

        // The sink is handed the packets that are whole. Octets of another packet version after
        // these packets are reported.
        ensures hands_over { HandsOver S.taking S.failing S.failures counts_of
            sink.old vc (packets_of octets.now) result sink.new }
        ensures few { IfOk result (λ report. report.packets + report.idle ≤ longest_field) }
        ensures foreign { IfOk result (λ report. report.foreign ≡ is_foreign (rest_of octets.now)) }
    {
        let (report, remainder) = match hand(sink, vc, octets) {
            Ok(handed) => handed,
            Err(flow) => return Err(flow),
        };
        let (incomplete, foreign) = read_remainder(remainder);
        if add_part(&mut self.held, incomplete).is_err() {
            return Err(FlowFault::Memory);
        }
        Ok(TmStep { foreign, ..report })
    }
}

/// Reads the octets after whole packets. Answers these octets where they are the front of a packet,
/// and otherwise no octets. Then whether there is a first octet, and the packet version in it is
/// another one than 0.
pub fn read_remainder(octets: &[u8]) -> (&[u8], bool)
    requires { (len : ℕ) → front_of octets.now ≢ WholePacket len }
    ensures incomplete { result.0.now ≡ incomplete_in (front_of octets.now) octets.now }
    ensures foreign { result.1 ≡ is_foreign octets.now }
{
    match need(octets) {
        Need::Foreign => (&[], true),
        _ => (octets, false),
    }
}
