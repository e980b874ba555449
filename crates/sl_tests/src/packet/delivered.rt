//! Packets that are handed over, and kept by channel.
ghost use Rattle.std.specs.Prelude.{◌≡◌, ◌++◌};

use super::{OCTETS, REST};
use crate::support::packets::{hand, has, none};
use crate::support::recordings::{LEAST, TELEMETRY};
use crate::support::rows::{Stop, holds, passes};
use sl_packet::{Delivered, PacketSink, SinkFault, first_packet, is_idle};
use std::alloc::Global;

// Channels, and the least one from there on that has packets, where 3 and 4095 have.
static AT_OR_ABOVE: [(u16, Option<u16>); 4] = [
    (0, Some(3)),
    (4, Some(4095)),
    (4095, Some(4095)),
    (4096, None),
];

// Channels, and their packets.
static KEPT: [(u16, &[&[u8]]); 4] = [(3, &[&TELEMETRY]), (4095, &[&LEAST]), (0, &[]), (5000, &[])];

// Channels, and whether they are virtual channels of telemetry.
const CHANNELS: [(u16, bool); 4] = [(0, true), (7, true), (8, false), (4095, false)];

// Hands over the packet at the front of the octets.
fn keep(delivered: &mut Delivered, channel: u16, octets: &[u8]) -> Result<(), SinkFault> {
    match first_packet(octets) {
        Some(packet) if channel <= 4095 && !is_idle(packet) => delivered.packet(channel, packet),
        _ => Err(SinkFault::Device),
    }
}

// Telemetry on channel 3, and the least telecommand on the greatest channel.
fn kept(alloc: Global) -> Result<Delivered, SinkFault> {
    let mut delivered = none(alloc);
    keep(&mut delivered, 3, &TELEMETRY)?;
    keep(&mut delivered, 4095, &LEAST)?;
    Ok(delivered)
}

// Each channel has its packets, and is found. Without any packets there is none. A store that was
// handed the same packets has the same, and an empty one hasn't.
#[test]
fn delivered_packets_are_kept_by_channel(rt: HostRuntime) -> Result<(), Stop> {
    let delivered = kept(rt.alloc())?;
    let empty = none(rt.alloc());
    for (channel, packets) in &KEPT {
        holds(&rt, channel, has(&delivered, *channel, packets));
    }
    for (channel, least) in &AT_OR_ABOVE {
        holds(&rt, channel, delivered.at_or_above(*channel) == *least);
    }
    let again = kept(rt.alloc())?;
    holds(&rt, &"the same", delivered.has_same_packets(&again));
    holds(&rt, &"other packets", !delivered.has_same_packets(&empty));
    holds(&rt, &"no packets", empty.at_or_above(0).is_none());
    Ok(())
}

// Whether no packets are of telemetry alone, and one of this channel is or isn't.
fn fit(alloc: Global, channel: u16, wanted: bool) -> Result<bool, Stop> {
    let mut delivered = none(alloc);
    let before = delivered.fits_tm();
    keep(&mut delivered, channel, &TELEMETRY)?;
    Ok(before && delivered.fits_tm() == wanted)
}

#[test]
fn only_channels_0_to_7_fit_telemetry(rt: HostRuntime) {
    for (channel, fits) in &CHANNELS {
        passes(&rt, channel, fit(rt.alloc(), *channel, *fits));
    }
}

// Two packets are handed over, the idle one is not, and the other octets are left.
#[test]
fn idle_packets_are_not_handed_over(rt: HostRuntime) -> Result<(), Stop> {
    let mut delivered = none(rt.alloc());
    let handed = hand(&mut delivered, 5, &OCTETS)?;
    let is_counted = handed.packets == 2 && handed.idle == 1 && handed.remainder == REST.as_slice();
    holds(
        &rt,
        &OCTETS,
        is_counted && has(&delivered, 5, &[&TELEMETRY, &LEAST]),
    );
    Ok(())
}

// A sink that takes one packet and refuses all others.
#[derive(Drop)]
struct OnlyOne {
    channel: u16,
    octets: Vec<u8>,
    refused: u64,
}

impl PacketSink for OnlyOne {
    ghost taking = { λ old channel packet new. new.octets.items ≡ old.octets.items ++ packet };

    ghost failing = { λ old channel packet fault new. new.octets.items ≡ old.octets.items };

    ghost failures = { λ sink. sink.refused };

    fn packet(&mut self, channel: u16, p: &[u8]) -> Result<(), SinkFault> {
        if !self.octets.is_empty() || self.octets.extend_from_slice(p).is_err() {
            self.refused = self.refused.saturating_add(1);
            return Err(SinkFault::Refused);
        }
        self.channel = channel;
        Ok(())
    }
}

// A refused packet stops what is handed over, and the one before it is kept.
#[test]
fn a_refused_packet_stops_what_is_handed_over(rt: HostRuntime) {
    let mut sink = OnlyOne {
        channel: 0,
        octets: Vec::new(rt.alloc()),
        refused: 0,
    };
    let fault = hand(&mut sink, 9, &OCTETS).err();
    let is_kept = sink.channel == 9 && sink.octets.as_slice() == &TELEMETRY[..];
    let is_stopped = fault == Some(SinkFault::Refused) && sink.refused == 1;
    holds(&rt, &OCTETS, is_kept && is_stopped);
}
