//! The store of delivered packets.
ghost use Rattle.std.specs.Prelude.{◌≡◌, ◌≤◌, ◌<◌, ◌+◌, max, [], map, length, IfSome, IfNone};
ghost use Rattle.std.specs.Prelude.{IsTrue, ◌↔◌, OnOk, OnErr};
ghost use Rattle.std.specs.List.{AllByRecursion};
ghost use Rattle.std.specs.Vec.{vec_items, vec_len};
ghost use Rattle.sl_packet.specs.Delivered.{AddsPacket, list_at, with_packet, empty_lists, HasNone};
ghost use Rattle.sl_packet.specs.Delivered.{IsLeast, IsDeliverable, FitsTm, channel_count};
ghost use Rattle.sl_packet.specs.KeptLists.{lists_in, with_empty_lists, IsGrown};

use crate::sink::{PacketSink, SinkFault};
use std::alloc::{AllocError, Global};
use std::marker::Model;

/// The delivered space packets (CCSDS 133.0-B) of each channel from 0 to 4095, in the order of
/// their delivery. None of them is idle.
///
/// As a [`PacketSink`] the store adds a packet to the end of the channel's list. The store refuses
/// a packet only with [`Memory`](SinkFault::Memory), and then all lists stay as they were.
#[derive(Debug, Drop)]
pub struct Delivered {
    alloc: Global,
    // The packets of each channel, from channel 0 on. A channel beyond the last list has none.
    lists: Vec<Vec<Vec<u8>>>,
    // The count of refused packets, which `PacketSink` wants. No call reports it.
    failures: u64,
}

impl Model for Delivered {
    ghost use Rattle.sl_packet.specs.Delivered.{PacketLists};

    ghost Value = { PacketLists };

    ghost use Rattle.sl_packet.specs.DeliveredModel.{packet_lists_of, IsDelivered};

    ghost view = { packet_lists_of };

    // What holds of every store. `IsDeliverable`, in clauses below, is a property of one packet.
    ghost invariant = { IsDelivered };
}

impl Delivered {
    /// A store without a packet on any channel. It holds no memory yet; only a packet that it is
    /// handed makes it take some.
    pub fn new(alloc: Global) -> Delivered
        ensures lists { result.lists ≡ empty_lists }
        ensures failures { result.failures ≡ 0 }
        ensures memory { result.capacity ≡ 0 }
    {
        Delivered {
            alloc,
            lists: Vec::new(alloc),
            failures: 0,
        }
    }

    /// The packets of a channel, in the order of their delivery. The list is empty for a channel
    /// above 4095.
    pub fn list(&self, channel: u16) -> &[Vec<u8>]
        // The packets are those of the channel, and there are none above channel 4095.
        ensures packets { map vec_items result.now ≡ list_at self.now channel }
        ensures none_above { 4095 < channel → list_at self.now channel ≡ [] }

        // What holds of every store, for callers: it stands for 4,096 lists, also where it keeps
        // fewer, and each packet in the lists is whole and isn't idle.
        ensures channels { length self.now.lists ≡ channel_count }
        ensures deliverable { AllByRecursion IsDeliverable (list_at self.now channel) }
        ensures each_deliverable { AllByRecursion (AllByRecursion IsDeliverable) self.now.lists }
    {
        match self.lists.get(usize::from(channel)) {
            Some(list) => list.as_slice(),
            None => &[],
        }
    }

    /// The least channel with packets, from `channel` to 4095. `None` exactly where none of these
    /// channels has packets.
    pub fn at_or_above(&self, channel: u16) -> Option<u16>
        ensures some { IfSome result (λ least. IsLeast self.now channel least) }
        ensures none { IfNone result (HasNone self.now channel channel_count) }
    {
        for candidate in channel..4096 {
            if !self.list(candidate).is_empty() {
                return Some(candidate);
            }
        }
        None
    }

    /// Whether no channel from 8 to 4095 has packets. Each packet is then on a virtual channel of
    /// TM frames, 0 to 7.
    pub fn fits_tm(&self) -> bool
        ensures { IsTrue result ↔ FitsTm self.now }
    {
        self.at_or_above(8).is_none()
    }

    /// Whether both stores have the same packets, in the same order, on each channel.
    pub fn has_same_packets(&self, other: &Delivered) -> bool
        ensures { IsTrue result ↔ (self.now.lists ≡ other.now.lists) }
    {
        // From this channel on, neither store keeps a list.
        let end = self.lists.len().max(other.lists.len());
        for channel in 0..end as u16 {
            if !are_same(self.list(channel), other.list(channel)) {
                return false;
            }
        }
        true
    }
}

// The members of `PacketSink`: how the store changes where it accepts a packet and where it refuses
// one, and its count of refused packets. Whoever hands over a packet sees to it that its channel is
// at most 4095, that it is whole and that it isn't idle.
impl PacketSink for Delivered {
    ghost use Rattle.sl_packet.specs.declared.sink.SinkFault.TheVariants.{Memory};

    ghost taking = { AddsPacket };

    // A packet is refused only where memory is refused, and then all lists stay.
    ghost failing = { λ old channel packet fault new. (fault ≡ Memory) × (new.lists ≡ old.lists) };

    ghost failures = { λ delivered. delivered.failures };

    // `always`, as for `add_to_list`: it saves saving registers at each packet.
    #[inline(always)]
    fn packet(&mut self, channel: u16, p: &[u8]) -> Result<(), SinkFault> {
        let added = add_to_list(self.alloc, &mut self.lists, usize::from(channel), p);
        if added.is_err() {
            self.failures = self.failures.saturating_add(1);
            return Err(SinkFault::Memory);
        }
        Ok(())
    }
}

// Whether packets are the same, in the same order.
fn are_same(packets: &[Vec<u8>], others: &[Vec<u8>]) -> bool
    ensures { IsTrue result ↔ (map vec_items packets.now ≡ map vec_items others.now) }
{
    packets == others
}

// Adds a packet to the list of a channel. Where memory is refused, each channel's packets stay as
// they were, but empty lists may have been added for channels without a list.
#[inline(always)]
fn add_to_list(
    alloc: Global,
    lists: &mut Vec<Vec<Vec<u8>>>,
    channel: usize,
    packet: &[u8],
) -> Result<(), AllocError>
    requires channel { channel < channel_count }
    requires fit { length (lists_in lists.old) ≤ channel_count }
    // A channel without a list counts as one with an empty list. The packet is added to the list of
    // its channel. Where memory is refused, each list stays.
    ensures added { OnOk result (with_empty_lists (lists_in lists.new)
        ≡ with_packet (with_empty_lists (lists_in lists.old)) channel packet.now) }
    ensures refused { OnErr result (with_empty_lists (lists_in lists.new)
        ≡ with_empty_lists (lists_in lists.old)) }

    // No list is beyond channel 4095. Where each packet in the old lists and the added packet are
    // whole and aren't idle, the same holds of each packet in the new lists.
    ensures fit { length (lists_in lists.new) ≤ channel_count }
    ensures deliverable { AllByRecursion (AllByRecursion IsDeliverable) (lists_in lists.old)
        → IsDeliverable packet.now
        → AllByRecursion (AllByRecursion IsDeliverable) (lists_in lists.new) }
{
    let packet = Vec::from_slice(alloc, packet)?;
    grow_to(alloc, lists, channel)?;
    lists[channel].push(packet)?;
    Ok(())
}

// Adds empty lists, up to the channel's list and no further. Where memory is refused, some of them
// may have been added.
fn grow_to(alloc: Global, lists: &mut Vec<Vec<Vec<u8>>>, channel: usize) -> Result<(), AllocError>
    ensures reached { OnOk result (channel < vec_len lists.new) }
    ensures grown { IsGrown (lists_in lists.old) (lists_in lists.new) }
    ensures no_further { length (lists_in lists.new)
        ≤ max (length (lists_in lists.old)) (channel + 1) }
{
    while lists.len() <= channel {
        lists.push(Vec::new(alloc))?;
    }
    Ok(())
}
