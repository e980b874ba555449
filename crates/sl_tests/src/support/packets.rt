//! Delivered packets.
ghost use Rattle.std.specs.Prelude.{◌≤◌};

use super::rows::Stop;
use sl_packet::{Delivered, HandedOver, PacketSink, SinkFault, hand_over};
use std::alloc::{AllocError, Global};

/// The packets of a channel.
pub type Packets<'a> = (u16, &'a [&'a [u8]]);

/// No packets.
pub fn none(alloc: Global) -> Delivered {
    Delivered::new(alloc)
}

/// Packets on their channels.
pub fn delivered_of(alloc: Global, packets: &[(u16, &[u8])]) -> Result<Delivered, Stop> {
    let mut delivered = none(alloc);
    for (channel, packet) in packets {
        if *channel > 4095 {
            return Err(Stop::Absent);
        }
        hand(&mut delivered, *channel, packet)?;
    }
    Ok(delivered)
}

/// Hands over the packets at the front of the octets.
pub fn hand<'a, S: PacketSink>(
    sink: &mut S,
    channel: u16,
    octets: &'a [u8],
) -> Result<HandedOver<'a>, SinkFault>
    requires { channel ≤ 4095 }
{
    hand_over(sink, channel, octets)
}

/// Whether these are the packets of a channel.
pub fn has(delivered: &Delivered, channel: u16, packets: &[&[u8]]) -> bool {
    let list = delivered.list(channel);
    for (one, other) in list.iter().zip(packets) {
        if one.as_slice() != *other {
            return false;
        }
    }
    list.len() == packets.len()
}

/// Whether these are all packets: those of each channel, and no other channel has any.
pub fn are_all(delivered: &Delivered, packets: &[Packets]) -> bool {
    let mut next = delivered.at_or_above(0);
    for (channel, packets) in packets {
        if next != Some(*channel) || !has(delivered, *channel, packets) {
            return false;
        }
        next = delivered.at_or_above(channel.saturating_add(1));
    }
    next.is_none()
}

/// A packet with the greatest packet data length, and octets after it up to this number.
pub fn longest_and_more(alloc: Global, len: usize) -> Result<Vec<u8>, AllocError> {
    let mut octets = Vec::from_slice(alloc, &[0x00, 0x03, 0xC0, 0x00, 0xFF, 0xFF])?;
    octets.resize(len, 0x33)?;
    Ok(octets)
}

/// The longest packet, of 65,542 octets.
pub fn longest(alloc: Global) -> Result<Vec<u8>, AllocError> {
    longest_and_more(alloc, 65542)
}
