//! The incomplete series of the MAPs of all virtual channels.
ghost use Rattle.std.specs.Prelude.{◌≡◌, ◌≢◌, ◌⊎◌, ◌≤◌, ◌<◌, ◌+◌, max, [], None, option_map, ℕ};
ghost use Rattle.std.specs.Prelude.{length, OnOk, IfOk, IfErr, IfSome};
ghost use Rattle.std.specs.Vec.{vec_len};
ghost use Rattle.sl_packet.specs.Delivered.{channel_count};
ghost use Rattle.sl_packet.specs.Packet.{longest_packet};
ghost use Rattle.sl_packet.specs.Stopping.{HandsOver};
ghost use Rattle.sl_tcflow.specs.IncompleteSteps.{IsReportOnSegment, incomplete_with, packets_with};
ghost use Rattle.sl_tcflow.specs.Recording.{channel_at};
ghost use Rattle.sl_tcflow.specs.SeriesStore.{at, IsPlaced};
ghost use Rattle.sl_tcflow.specs.StepReport.{counts_of};

use crate::hand_over::hand;
use crate::incomplete::Incomplete;
use crate::report::{EMPTY_STEP, TcStep};
use crate::segment::{CHANNELS, FIRST, Segment, WHOLE};
use sl_packet::{FlowFault, PacketSink};
use std::alloc::{AllocError, Global};
use std::marker::Model;

/// The incomplete series, by channel. The channel of a virtual channel and a MAP is 64 times the
/// virtual channel plus the MAP.
#[derive(Drop)]
pub struct SeriesStore {
    alloc: Global,
    // The incomplete series of each channel, if there is one. The list reaches up to the greatest
    // channel on which a first segment has come.
    list: Vec<Incomplete>,
}

impl Model for SeriesStore {
    ghost use Rattle.sl_tcflow.specs.SeriesStore.{IncompleteSeries};

    ghost Value = { IncompleteSeries };

    ghost use Rattle.sl_tcflow.specs.SeriesStoreModel.{series_in};

    ghost view = { series_in };
}

impl SeriesStore {
    /// A store in which no series is incomplete. It holds no memory yet.
    pub fn new(alloc: Global) -> SeriesStore
        ensures none { result.list ≡ [] }
        ensures memory { result.capacity ≡ 0 }
    {
        SeriesStore {
            alloc,
            list: Vec::new(alloc),
        }
    }

    /// The number of octets so far of the incomplete series on the virtual channel `vc` and the MAP
    /// `map`, each 0 to 63: 0 to 65,542. `None` where no series is incomplete there.
    pub fn held(&self, vc: u8, map: u8) -> Option<u32>
        requires vc { vc ≤ 63 }
        requires map { map ≤ 63 }
        ensures octets { result ≡ option_map length (at self.now.list (channel_at vc map)) }
        ensures most { IfSome result (λ octets. octets ≤ longest_packet) }
    {
        let index = 64 * usize::from(vc) + usize::from(map);
        match self.list.get(index) {
            Some(series) => series.held(),
            None => None,
        }
    }

    /// The least number from which on no channel has an incomplete series, 0 to 4096: one more than
    /// the greatest channel with an incomplete series, and 0 where no series is incomplete at all.
    pub fn none_open_from(&self) -> u16
        // On the channels from the answer on no series is incomplete. On the channel before the
        // answer, if there is one, a series is.
        ensures most { result ≤ channel_count }
        ensures none { (channel : ℕ) → channel < channel_count → result ≤ channel
            → at self.now.list channel ≡ None }
        ensures least { (channel : ℕ) → result ≡ channel + 1
            → at self.now.list channel ≢ None }
    {
        // The list never has more places than there are channels. `min` shows it, in place of an
        // invariant.
        let mut from = self.list.len().min(usize::from(CHANNELS));
        while 0 < from && self.list[from - 1].held().is_none() {
            from -= 1;
        }
        from as u16
    }

    /// Takes the next segment of a channel. Hands the sink the packets of the service data unit
    /// that ends with the segment, and reports their numbers and the segment's anomalies.
    ///
    /// The fault is `Memory` where memory was refused, and `Sink` where the sink refused a packet.
    /// Clauses don't say what is incomplete after a fault.
    #[inline]
    pub fn take_segment<S: PacketSink>(
        &mut self,
        segment: &Segment,
        sink: &mut S,
    ) -> Result<TcStep, FlowFault>
        // The series of the channel continues, begins or ends as the sequence flags say.
        ensures placed { OnOk result (IsPlaced self.old.list segment.now.channel
            (incomplete_with (at self.old.list segment.now.channel) segment.now.flags
            segment.now.octets) self.new.list) }

        // The sink is handed the packets that end with the segment, and the step reports them.
        ensures hands_over { HandsOver S.taking S.failing S.failures counts_of
            sink.old segment.now.channel
            (packets_with (at self.old.list segment.now.channel) segment.now.flags
            segment.now.octets) result sink.new }
        ensures step { IfOk result (IsReportOnSegment (at self.old.list segment.now.channel)
            segment.now.flags segment.now.octets) }

        // Memory is refused only where a series is incomplete, before the segment or after it.
        ensures memory { IfErr result (λ flow. flow ≡ FlowFault.Memory →
            (at self.old.list segment.now.channel ≢ None)
            ⊎ (incomplete_with (at self.old.list segment.now.channel) segment.now.flags
            segment.now.octets ≢ None)) }

        // The memory for the list changes only where a series is incomplete after the segment.
        ensures capacity { self.new.capacity ≢ self.old.capacity
            → incomplete_with (at self.old.list segment.now.channel) segment.now.flags
            segment.now.octets ≢ None }
    {
        let index = usize::from(segment.channel);
        if index >= self.list.len() {
            if segment.flags != FIRST {
                return take_alone(segment, sink);
            }
            if grow_to(self.alloc, &mut self.list, index).is_err() {
                return Err(FlowFault::Memory);
            }
        }
        self.list[index].advance(segment, sink)
    }
}

// Takes a segment other than a first one (sequence flags 1), of a channel that the list doesn't
// reach. No series is incomplete there, and none begins: the packets of a segment with no
// segmentation are handed over, and any other segment is stray. The only fault is `Sink`: the sink
// refused a packet.
fn take_alone<S: PacketSink>(segment: &Segment, sink: &mut S) -> Result<TcStep, FlowFault>
    requires { segment.now.flags ≢ 1 }
    // No series is incomplete after the segment either.
    ensures none { incomplete_with None segment.now.flags segment.now.octets ≡ None }
    ensures hands_over { HandsOver S.taking S.failing S.failures counts_of
        sink.old segment.now.channel
        (packets_with None segment.now.flags segment.now.octets) result sink.new }
    ensures step { IfOk result (IsReportOnSegment None segment.now.flags segment.now.octets) }
    ensures not_memory { IfErr result (λ flow. flow ≢ FlowFault.Memory) }
{
    if segment.flags == WHOLE {
        return hand(sink, segment.channel, segment.octets);
    }
    Ok(TcStep {
        stray: true,
        ..EMPTY_STEP
    })
}

// Extends the list up to this index where it is shorter, and no further. No series is incomplete at
// the new places. Where memory is refused, the list may be extended in part.
fn grow_to(alloc: Global, list: &mut Vec<Incomplete>, index: usize) -> Result<(), AllocError>
    ensures reached { OnOk result (index < vec_len list.new) }
    ensures same { (other : ℕ) → at list.new.items other ≡ at list.old.items other }
    ensures no_further { vec_len list.new ≤ max (vec_len list.old) (index + 1) }
{
    while list.len() <= index {
        list.push(Incomplete::new(alloc))?;
    }
    Ok(())
}
