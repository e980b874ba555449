//! The destination of delivered packets.
ghost use Rattle.std.specs.Prelude.{◌≡◌, ◌≤◌, ◌<◌, ℕ, List, length, false, OnOk, OnErr, IfOk};
ghost use Rattle.std.specs.Prelude.{IfErr};
ghost use Rattle.sl_packet.specs.Packet.{IsPacket, is_idle_packet};
ghost use Rattle.sl_packet.specs.Packets.{packets_of, rest_of, without_idle, only_idle};
ghost use Rattle.sl_packet.specs.Sink.{TakesAll, StopsTaking, one_more};

use crate::idle::is_idle;
use crate::packet::first_packet;
use thiserror::Error;

/// Why a sink refused a packet.
#[derive(Clone, Copy, Debug, PartialEq, Eq, Error)]
pub enum SinkFault {
    /// The sink was refused memory.
    #[error("memory")]
    Memory,
    /// The sink's own writer failed.
    #[error("device")]
    Device,
    /// A rule of the sink refused the packet.
    #[error("refused")]
    Refused,
}

/// A destination of delivered space packets (CCSDS 133.0-B), each on a channel from 0 to 4095. For
/// packets from TM frames the channel is the virtual channel, 0 to 7. For packets from TC frames
/// the channel is 64 times the virtual channel, plus the MAP of a segment header if there is one.
///
/// An implementation states what accepting a packet does to it (`taking`), what refusing does
/// (`failing`), and its count of refused packets (`failures`).
pub trait PacketSink {
    ghost use Rattle.sl_packet.specs.declared.sink.SinkFault.{SinkFault};

    /// How accepting a packet changes the sink: a relation between the sink before, the channel,
    /// the packet and the sink after.
    ghost taking: { Self → ℕ → List ℕ → Self → Type 0 };

    /// How refusing a packet changes the sink: a relation between the sink before, the channel, the
    /// packet, the fault and the sink after.
    ghost failing: { Self → ℕ → List ℕ → SinkFault → Self → Type 0 };

    /// The count of refused packets, which stops at 2^64 - 1. By it the contract of a caller can
    /// say whether the sink refused a packet.
    ghost failures: { Self → ℕ };

    /// Hands over one packet on the channel `channel`, 0 to 4095. `p` is a whole packet, 7 to
    /// 65,542 octets, and isn't idle.
    ///
    /// On `Ok` the sink has accepted the packet, as its `taking` states, and its count of refused
    /// packets stays. On an error the sink has refused the packet with this fault, as its `failing`
    /// states, and its count has risen by one, unless it was 2^64 - 1.
    fn packet(&mut self, channel: u16, p: &[u8]) -> Result<(), SinkFault>
        requires packet { IsPacket p.now }
        requires not_idle { is_idle_packet p.now ≡ false }
        requires channel { channel ≤ 4095 }
        // The packet is accepted, and the count of refused packets stays.
        ensures accepted { OnOk result (taking self.old channel p.now self.new) }
        ensures kept { OnOk result (failures self.new ≡ failures self.old) }

        // An error means that the packet is refused, and counted.
        ensures refused { IfErr result (λ fault. failing self.old channel p.now fault self.new) }
        ensures counted { OnErr result (failures self.new ≡ one_more (failures self.old)) };
}

/// The result of handing a sink the packets at the front of octets, where it refused none, or of
/// counting these packets.
#[derive(Clone, Copy, Debug)]
pub struct HandedOver<'a> {
    /// The number of packets, idle ones left out. A sink that was handed them has accepted all.
    pub packets: usize,
    /// The number of idle packets, which a sink isn't handed.
    pub idle: usize,
    /// The octets after the last packet, idle or not. They begin with no whole packet.
    pub remainder: &'a [u8],
}

/// Hands a sink the packets that lie end to end at the front of the octets, in order and without
/// idle packets, on the channel `channel`, 0 to 4095.
///
/// On `Ok` the sink has accepted all of them, and its count of refused packets stays. On an error
/// the sink has refused one of the packets with this fault. It has accepted the packets before this
/// one, and no later packet was handed over. How many the sink accepted isn't reported. The sink's
/// count of refused packets has then risen by one, unless it was 2^64 - 1.
pub fn hand_over<'a, S: PacketSink>(
    sink: &mut S,
    channel: u16,
    octets: &'a [u8],
) -> Result<HandedOver<'a>, SinkFault>
    requires channel { channel ≤ 4095 }
    // The sink accepts all packets, and its count of refused packets stays.
    ensures accepted { OnOk result (TakesAll S.taking
        sink.old channel (without_idle (packets_of octets.now)) sink.new) }
    ensures kept { OnOk result (S.failures sink.new ≡ S.failures sink.old) }

    // The packets are counted, and the octets after them are given back.
    ensures packets { IfOk result (λ handed.
        handed.packets ≡ length (without_idle (packets_of octets.now))) }
    ensures idle { IfOk result (λ handed.
        handed.idle ≡ length (only_idle (packets_of octets.now))) }
    ensures remainder { IfOk result (λ handed. handed.remainder.now ≡ rest_of octets.now) }

    // An error means that the sink accepts the packets before one that it refuses, and the refused
    // packet is counted.
    ensures refused { IfErr result (λ fault. StopsTaking S.taking S.failing
        sink.old channel (without_idle (packets_of octets.now)) fault sink.new) }
    ensures counted { OnErr result (S.failures sink.new ≡ one_more (S.failures sink.old)) }
{
    // What is left stands in the value that is returned. The loop does what `Packets::next` does.
    let mut handed = HandedOver {
        packets: 0,
        idle: 0,
        remainder: octets,
    };
    while let Some(packet) = first_packet(handed.remainder) {
        if is_idle(packet) {
            handed.idle += 1;
        } else {
            sink.packet(channel, packet)?;
            handed.packets += 1;
        }
        handed.remainder = &handed.remainder[packet.len()..];
    }
    Ok(handed)
}
