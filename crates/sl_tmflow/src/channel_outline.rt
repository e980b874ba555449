//! A virtual channel whose packets are counted, and the outline of the packet that is incomplete on
//! it.
ghost use Rattle.std.specs.Prelude.{◌≡◌, ◌≤◌, ◌+◌, ◌++◌, ℕ, List, [], if◌then◌else◌, length};
ghost use Rattle.sl_packet.specs.Front.{front_of, is_foreign};
ghost use Rattle.sl_packet.specs.Outline.{HasOutline};
ghost use Rattle.sl_packet.specs.Packets.{only_idle, packets_of, rest_of, without_idle};
ghost use Rattle.sl_tmframe.specs.TmFrame.{Packets, longest_field};
ghost use Rattle.sl_tmflow.specs.Anomaly.{gap_after};
ghost use Rattle.sl_tmflow.specs.Channel.{ChannelState, broken_in, channel_after, continuation_in};
ghost use Rattle.sl_tmflow.specs.Channel.{foreign_in, held_at_field_end, held_before_starts, incomplete_in};
ghost use Rattle.sl_tmflow.specs.Channel.{no_frame, octets_dropped, octets_held, packets_ended};
ghost use Rattle.sl_tmflow.specs.Delivery.{ended, field_continuation};
ghost use Rattle.sl_tmflow.specs.Incomplete.{longest_incomplete};
ghost use Rattle.sl_tmflow.specs.PacketStart.{whole_packets};

use crate::channel::read_remainder;
use crate::frame_count::{gap_after, is_after};
use crate::packet_octets::PacketOctets;
use crate::progress::{Progress, progress_of};
use crate::report::{EMPTY_STEP, TmStep};
use sl_packet::{Outline, count_packets};
use sl_tmframe::{TmField, TmFrame};

/// What is kept of a virtual channel after its last frame, where packets are only counted.
#[derive(Clone, Copy)]
pub struct ChannelOutline {
    // The virtual channel frame count of the last frame, and `None` before the first one.
    count: Option<u8>,
    // The outline of the octets so far of the incomplete packet, of no octets where none is.
    held: Outline,
    ghost few: { held.octets ≤ longest_incomplete },
}

impl ChannelOutline {
    ghost use Rattle.sl_tmflow.specs.Counter.{Outlines};

    /// A virtual channel that had no frame yet.
    pub fn new() -> ChannelOutline
        ensures { Outlines result no_frame }
    {
        ChannelOutline {
            count: None,
            held: Outline::none(),
        }
    }

    /// Takes the next frame, and answers the report on the frame. A clause with `state` holds of
    /// every state that this is the outline of.
    #[inline(always)]
    pub fn take_frame(&mut self, frame: &TmFrame) -> TmStep
        // The state after the frame, and the packets that end in it.
        ensures state { (state : ChannelState) → Outlines self.old state
            → Outlines self.new (channel_after state frame.now) }
        ensures packets { (state : ChannelState) → Outlines self.old state
            → result.packets ≡ length (without_idle (packets_ended state frame.now)) }
        ensures idle { (state : ChannelState) → Outlines self.old state
            → result.idle ≡ length (only_idle (packets_ended state frame.now)) }

        // The anomalies.
        ensures gap { (state : ChannelState) → Outlines self.old state
            → result.gap ≡ gap_after state.count frame.now.vc_count }
        ensures dropped { (state : ChannelState) → Outlines self.old state
            → result.dropped ≡ length (broken_in state frame.now) }
        ensures foreign { result.foreign ≡ foreign_in frame.now.field }
    {
        let count = frame.vc_count();
        let continued = self.continued(frame);
        let started = started(&continued.held, frame);
        let gap = gap_after(self.count, count);
        *self = ChannelOutline {
            count: Some(count),
            held: started.held,
        };
        TmStep {
            packets: continued.step.packets + started.step.packets,
            idle: continued.step.idle + started.step.idle,
            gap,
            dropped: continued.step.dropped,
            foreign: started.step.foreign,
        }
    }

    /// The number of octets so far of the incomplete packet, and 0 where no packet is incomplete.
    pub fn held(&self) -> u32
        ensures value { result ≡ self.now.held.octets }
        ensures most { result ≤ longest_incomplete }
    {
        self.held.octets
    }

    // What the next frame does to the incomplete packet. The report is on this packet alone.
    #[inline(always)]
    fn continued(&self, frame: &TmFrame) -> Taken
        ensures held { (state : ChannelState) → Outlines self.now state → HasOutline
            (held_before_starts (continuation_in state frame.now) state.held frame.now)
            result.held }
        ensures packets { (state : ChannelState) → Outlines self.now state
            → result.step.packets ≡ length (without_idle (ended (continuation_in state frame.now))) }
        ensures idle { (state : ChannelState) → Outlines self.now state
            → result.step.idle ≡ length (only_idle (ended (continuation_in state frame.now))) }
        ensures dropped { (state : ChannelState) → Outlines self.now state
            → result.step.dropped ≡ length (broken_in state frame.now) }
        ensures few { result.step.packets + result.step.idle ≤ 1 }
    {
        if self.held.octets == 0 || !is_after(self.count, frame.vc_count()) {
            return broken(self.held.octets);
        }
        match frame.field() {
            TmField::Packets { first, octets } => join(&self.held, &PacketOctets { first, octets }),
            TmField::Idle => Taken {
                held: self.held,
                step: EMPTY_STEP,
            },
            TmField::Opaque => broken(self.held.octets),
        }
    }
}

// What a part of a frame leaves: the outline of what is incomplete then, and the report on the part.
#[derive(Clone, Copy)]
struct Taken {
    held: Outline,
    step: TmStep,
    ghost few: { held.octets ≤ longest_incomplete },
}

// Goes on with the incomplete packet, where the next frame is a frame of packets.
#[inline(always)]
fn join(held: &Outline, field: &PacketOctets) -> Taken
    requires few { held.now.octets ≤ longest_incomplete }
    requires short { length field.now.octets.now ≤ longest_field }
    ensures held { (octets : List ℕ) → HasOutline octets held.now → HasOutline (octets_held
        (field_continuation octets (Packets field.now.first field.now.octets.now))
        (octets ++ field.now.octets.now)) result.held }
    ensures packets { (octets : List ℕ) → HasOutline octets held.now
        → result.step.packets ≡ length (without_idle (ended
        (field_continuation octets (Packets field.now.first field.now.octets.now)))) }
    ensures idle { (octets : List ℕ) → HasOutline octets held.now
        → result.step.idle ≡ length (only_idle (ended
        (field_continuation octets (Packets field.now.first field.now.octets.now)))) }
    ensures dropped { (octets : List ℕ) → HasOutline octets held.now
        → result.step.dropped ≡ length (octets_dropped
        (field_continuation octets (Packets field.now.first field.now.octets.now)) octets) }
    ensures few { result.step.packets + result.step.idle ≤ 1 }
{
    let all = held.plus(field.octets);
    let need = all.need();
    match progress_of(need, held.octets as usize, field) {
        // The packet begins like all these octets. `return`, here and below, keeps what each way
        // owes apart, so that it can be named in proofs.
        Progress::Ends(_) => return ended(all.is_idle()),
        Progress::Continues => {
            return Taken {
                held: all,
                step: EMPTY_STEP,
            };
        }
        Progress::Breaks => broken(held.octets),
    }
}

// One packet ends, and nothing is incomplete.
#[inline(always)]
fn ended(is_idle: bool) -> Taken
    ensures held { HasOutline [] result.held }
    ensures dropped { result.step.dropped ≡ 0 }
    ensures packets { result.step.packets ≡ (if is_idle then 0 else 1) }
    ensures idle { result.step.idle ≡ (if is_idle then 1 else 0) }
{
    Taken {
        held: Outline::none(),
        step: TmStep {
            packets: u32::from(!is_idle),
            idle: u32::from(is_idle),
            ..EMPTY_STEP
        },
    }
}

// A packet with this number of octets so far is broken off, or none where the number is 0.
#[inline(always)]
fn broken(octets: u32) -> Taken
    requires { octets ≤ longest_incomplete }
    ensures held { HasOutline [] result.held }
    ensures packets { result.step.packets ≡ 0 }
    ensures idle { result.step.idle ≡ 0 }
    ensures dropped { result.step.dropped ≡ octets }
{
    Taken {
        held: Outline::none(),
        step: TmStep {
            dropped: octets,
            ..EMPTY_STEP
        },
    }
}

// Takes the packets that start in a data field. `held` is the outline of what is held before them.
#[inline(always)]
fn started(held: &Outline, frame: &TmFrame) -> Taken
    requires { held.now.octets ≤ longest_incomplete }
    ensures held { (octets : List ℕ) → HasOutline octets held.now
        → HasOutline (held_at_field_end frame.now.field octets) result.held }
    ensures packets { result.step.packets ≡ length (without_idle (whole_packets frame.now.field)) }
    ensures idle { result.step.idle ≡ length (only_idle (whole_packets frame.now.field)) }
    ensures foreign { result.step.foreign ≡ foreign_in frame.now.field }
    ensures few { result.step.packets + result.step.idle ≤ longest_field }
{
    match frame.field() {
        TmField::Packets {
            first: Some(first),
            octets,
        } => counted_from(&octets[usize::from(first)..]),
        _ => Taken {
            held: *held,
            step: EMPTY_STEP,
        },
    }
}

// As `started`, where `octets` are those of the data field from its first packet start on.
#[tactic(auto, using(crate::proofs::lemmas::Delivery::Start::none_in_rest))]
#[inline(always)]
fn counted_from(octets: &[u8]) -> Taken
    requires { length octets.now ≤ longest_field }
    ensures held { HasOutline
        (incomplete_in (front_of (rest_of octets.now)) (rest_of octets.now)) result.held }
    ensures packets { result.step.packets ≡ length (without_idle (packets_of octets.now)) }
    ensures idle { result.step.idle ≡ length (only_idle (packets_of octets.now)) }
    ensures foreign { result.step.foreign ≡ is_foreign (rest_of octets.now) }
    ensures few { result.step.packets + result.step.idle ≤ longest_field }
{
    let counted = count_packets(octets);
    let packets = counted.packets as u32;
    let idle = counted.idle as u32;
    let (held, foreign) = read_remainder(counted.remainder);
    Taken {
        held: Outline::of(held),
        step: TmStep {
            packets,
            idle,
            foreign,
            ..EMPTY_STEP
        },
    }
}
