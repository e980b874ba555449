//! Packets that are handed to a sink.
ghost use Rattle.std.specs.Prelude.{◌≡◌, ◌≢◌, ◌≤◌, ◌<◌, length, IfOk, IfErr};
ghost use Rattle.sl_packet.specs.Delivered.{channel_count};
ghost use Rattle.sl_packet.specs.Packet.{longest_packet};
ghost use Rattle.sl_packet.specs.Packets.{packets_of};
ghost use Rattle.sl_packet.specs.Stopping.{HandsOver};
ghost use Rattle.sl_tcflow.specs.IncompleteSteps.{service_unit_report};
ghost use Rattle.sl_tcflow.specs.StepReport.{counts_of};

use crate::report::{EMPTY_STEP, TcStep};
use sl_packet::{FlowFault, PacketSink, hand_over};

/// Hands the sink the packets at the front of a service data unit on this channel, 0 to 4095, in
/// order and without idle packets. The service data unit has at most 65,542 octets. Returns a
/// report of the numbers of packets and of idle packets, and of how many octets are left after the
/// last packet. The only fault is `Sink`: the sink refused a packet.
#[inline(always)]
pub fn hand<S: PacketSink>(sink: &mut S, channel: u16, octets: &[u8]) -> Result<TcStep, FlowFault>
    requires channel { channel < channel_count }
    requires short { length octets.now ≤ longest_packet }
    // The sink is handed the packets, or those up to the one that it refuses, which `HandsOver` of
    // `sl_packet` says by what accepting a packet does to this sink (`taking`), what refusing does
    // (`failing`), and its count of refused packets (`failures`). The report has the numbers of the
    // packets, and how many octets are left. No fault is `Memory`.
    ensures hands_over { HandsOver S.taking S.failing S.failures counts_of
        sink.old channel (packets_of octets.now) result sink.new }
    ensures step { IfOk result (λ step. step ≡ service_unit_report octets.now) }
    ensures not_memory { IfErr result (λ flow. flow ≢ FlowFault.Memory) }
{
    match hand_over(sink, channel, octets) {
        Ok(handed) => Ok(TcStep {
            packets: handed.packets as u32,
            idle: handed.idle as u32,
            tail: handed.remainder.len() as u32,
            ..EMPTY_STEP
        }),
        Err(fault) => Err(FlowFault::Sink(fault)),
    }
}
