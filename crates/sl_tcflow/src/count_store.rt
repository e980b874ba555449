//! The counts of the incomplete series of the MAPs of all virtual channels.
ghost use Rattle.std.specs.Prelude.{◌≡◌, ◌≢◌, ◌≤◌, ◌<◌, ◌+◌, [], None, option_map, ℕ, List, Option};
ghost use Rattle.std.specs.Prelude.{length, IfSome, IfOk, OnErr, OnOk};
ghost use Rattle.sl_packet.specs.Delivered.{channel_count};
ghost use Rattle.sl_packet.specs.Packet.{longest_packet};
ghost use Rattle.sl_tcflow.specs.CountStore.{CountsEach, count_at};
ghost use Rattle.sl_tcflow.specs.IncompleteSteps.{IsReportOnSegment, incomplete_with, packets_with};
ghost use Rattle.sl_tcflow.specs.Recording.{channel_at};
ghost use Rattle.sl_tcflow.specs.SeriesStore.{at, IsPlaced};
ghost use Rattle.sl_tcflow.specs.UnitCount.{ForSeriesOf, ReportsPackets};

use crate::report::TcStep;
use crate::segment::{CHANNELS, FIRST, Segment};
use crate::series_count::{advance, held};
use crate::unit_count::UnitCount;
use std::alloc::{AllocError, Global};
use std::marker::Model;

/// The counts of the incomplete series, by channel. The channel of a virtual channel and a MAP is
/// 64 times the virtual channel plus the MAP.
#[derive(Drop)]
pub struct CountStore {
    // The count of each channel's incomplete series, if there is one. The list reaches up to the
    // greatest channel on which a first segment has come.
    list: Vec<Option<UnitCount>>,
}

impl Model for CountStore {
    ghost use Rattle.std.specs.Prelude.{List, Option};
    ghost use Rattle.sl_tcflow.specs.declared.unit_count.UnitCount.{UnitCount};

    ghost Value = { List (Option UnitCount) };

    ghost view = { λ s. s.list.items };
}

impl CountStore {
    /// A store in which no series is incomplete. It holds no memory yet.
    pub fn new(alloc: Global) -> CountStore
        ensures { result ≡ [] }
    {
        CountStore {
            list: Vec::new(alloc),
        }
    }

    /// The number of octets so far of the incomplete series on the virtual channel `vc` and the MAP
    /// `map`, each 0 to 63: 0 to 65,542. `None` where no series is incomplete there.
    pub fn held(&self, vc: u8, map: u8) -> Option<u32>
        requires vc { vc ≤ 63 }
        requires map { map ≤ 63 }
        ensures octets { ForSeriesOf (count_at self.now (channel_at vc map)) (λ before.
            result ≡ option_map length before) }
        ensures most { IfSome result (λ octets. octets ≤ longest_packet) }
    {
        match self.list.get(64 * usize::from(vc) + usize::from(map)) {
            Some(series) => held(series),
            None => None,
        }
    }

    /// The least number from which on no channel has an incomplete series, 0 to 4096: one more than
    /// the greatest channel with an incomplete series, and 0 where no series is incomplete at all.
    pub fn none_open_from(&self) -> u16
        // On the channels from the answer on no series is incomplete. On the channel before the
        // answer, if there is one, a series is.
        ensures most { result ≤ channel_count }
        ensures none { (channel : ℕ) → channel < channel_count → result ≤ channel
            → count_at self.now channel ≡ None }
        ensures least { (channel : ℕ) → result ≡ channel + 1
            → count_at self.now channel ≢ None }
    {
        // The list never has more places than there are channels. `min` shows it, in place of an
        // invariant.
        let mut from = self.list.len().min(usize::from(CHANNELS));
        while 0 < from && self.list[from - 1].is_none() {
            from -= 1;
        }
        from as u16
    }

    /// Takes the next segment of a channel, and reports the packets of the service data unit that
    /// ends with the segment and the segment's anomalies. Memory is refused only where the segment
    /// begins a series.
    #[inline]
    pub fn take_segment(&mut self, segment: &Segment) -> Result<TcStep, AllocError>
        // `old` is any list of the octets so far of the incomplete series that have these counts.
        // The series of the channel continues, begins or ends as the sequence flags say.
        ensures counts { OnOk result ((old new : List (Option (List ℕ))) → CountsEach old self.old
            → IsPlaced old segment.now.channel (incomplete_with (at old segment.now.channel)
            segment.now.flags segment.now.octets) new → CountsEach new self.new) }
        ensures step { IfOk result (λ step. ForSeriesOf (count_at self.old segment.now.channel)
            (λ before. IsReportOnSegment before segment.now.flags segment.now.octets step)) }
        ensures packets { IfOk result (λ step. ForSeriesOf (count_at self.old segment.now.channel)
            (λ before. ReportsPackets (packets_with before segment.now.flags segment.now.octets)
            step)) }
        ensures memory { OnErr result ((before : Option (List ℕ))
            → incomplete_with before segment.now.flags segment.now.octets ≢ None) }
        ensures kept { OnErr result (self.new ≡ self.old) }
    {
        let index = usize::from(segment.channel);
        if index >= self.list.len() {
            if segment.flags != FIRST {
                // No series is incomplete there, and none begins.
                return Ok(advance(&mut None, segment));
            }
            self.list.resize(index + 1, None)?;
        }
        Ok(advance(&mut self.list[index], segment))
    }
}
