//! How packets are handed to a sink and counted in a report.
ghost use Rattle.std.specs.Prelude.{◌≡◌, ◌≢◌, ◌≤◌, ◌+◌, ◌∷◌, [], length, IfOk, IfErr};
ghost use Rattle.sl_packet.specs.Packet.{IsPacket};
ghost use Rattle.sl_packet.specs.Packets.{packets_of, rest_of};
ghost use Rattle.sl_packet.specs.Stopping.{HandsOver};
ghost use Rattle.sl_tmframe.specs.TmFrame.{longest_field};
ghost use Rattle.sl_tmflow.specs.StepReport.{counts_of};

use crate::report::{EMPTY_STEP, TmStep};
use sl_packet::{FlowFault, PacketSink, hand_over, is_idle};

/// Hands the sink a packet of the virtual channel `vc`, 0 to 7, unless the packet is idle. The
/// report counts this packet alone.
pub fn hand_packet<S: PacketSink>(sink: &mut S, vc: u16, packet: &[u8]) -> Result<TmStep, FlowFault>
    requires vc { vc ≤ 7 }
    requires packet { IsPacket packet.now }
    // An idle packet is counted. Any other packet is handed over and counted. `HandsOver` of
    // `sl_packet` says so by what accepting a packet does to this sink (`taking`), what refusing
    // does (`failing`), and its count of refused packets (`failures`).
    ensures hands_over { HandsOver S.taking S.failing S.failures counts_of
        sink.old vc (packet.now ∷ []) result sink.new }

    // No packet is broken off, and no memory is refused.
    ensures dropped { IfOk result (λ report. report.dropped ≡ 0) }
    ensures not_memory { IfErr result (λ flow. flow ≢ FlowFault.Memory) }
{
    if is_idle(packet) {
        return Ok(TmStep {
            idle: 1,
            ..EMPTY_STEP
        });
    }
    match sink.packet(vc, packet) {
        Ok(()) => Ok(TmStep {
            packets: 1,
            ..EMPTY_STEP
        }),
        Err(fault) => Err(FlowFault::Sink(fault)),
    }
}

/// Hands the sink the packets that lie end to end at the front of `octets`, without idle packets.
/// They are packets of the virtual channel `vc`, 0 to 7. The answer is the report that counts them,
/// and the octets after them.
pub fn hand<'a, S: PacketSink>(
    sink: &mut S,
    vc: u16,
    octets: &'a [u8],
) -> Result<(TmStep, &'a [u8]), FlowFault>
    requires vc { vc ≤ 7 }
    requires short { length octets.now ≤ longest_field }
    // The packets at the front are handed over, and the octets after them are given back. No memory
    // is refused.
    ensures hands_over { HandsOver S.taking S.failing S.failures (λ handed. counts_of handed.0)
        sink.old vc (packets_of octets.now) result sink.new }
    ensures remainder { IfOk result (λ handed. handed.1.now ≡ rest_of octets.now) }
    ensures not_memory { IfErr result (λ flow. flow ≢ FlowFault.Memory) }

    // There are no more packets than octets, and no packet is broken off.
    ensures few { IfOk result (λ handed. handed.0.packets + handed.0.idle ≤ length octets.now) }
    ensures dropped { IfOk result (λ handed. handed.0.dropped ≡ 0) }
{
    match hand_over(sink, vc, octets) {
        Ok(handed) => {
            let report = TmStep {
                packets: handed.packets as u32,
                idle: handed.idle as u32,
                ..EMPTY_STEP
            };
            Ok((report, handed.remainder))
        }
        Err(fault) => Err(FlowFault::Sink(fault)),
    }
}
