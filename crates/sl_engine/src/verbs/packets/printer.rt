//! A sink that prints packets.
ghost use Rattle.std.specs.Prelude.{◌≡◌, ◌+◌, ◌≤◌, ◌++◌, length, IfErr, OnErr, OnOk};
ghost use Rattle.sl_packet.specs.Packet.{IsPacket};
ghost use Rattle.sl_engine.specs.Verbs.Packets.Printed.{channel_name};
ghost use Rattle.sl_engine.specs.Verbs.Packets.Line.{packet_line};
ghost use Rattle.sl_engine.specs.Verbs.Packets.Tc.{tc_channel_text};
ghost use Rattle.sl_engine.specs.Io.Output.{Adds, KeepsWriter};
ghost use Rattle.sl_engine.specs.Io.Lines.{HasRoomFor, fields_width, part_width};
ghost use Rattle.sl_engine.specs.Io.Streams.{StopsWriting};

use crate::io::lines::Lines;
use crate::io::output::{Output, Written};
use crate::verbs::packets::lines::push_packet_text;
use sl_packet::{PacketSink, SinkFault};
use std::io::Write;

/// How a line names the channel of its packet: by the virtual channel alone, or with the MAP.
#[derive(Clone, Copy)]
pub enum ChannelName {
    VirtualChannel,
    Map,
}

/// Prints each packet that it is handed, with the channel that it is on.
#[derive(Drop)]
pub struct Printer<'a, 'b, W: Write> {
    pub out: &'a mut Output<'b, W>,
    pub names: ChannelName,
    // How many packets couldn't be printed, 2^64 - 1 at most. `PacketSink` wants this count; no
    // call reads it.
    pub failures: u64,
}

impl<'a, 'b, W: Write> PacketSink for Printer<'a, 'b, W> {
    ghost use Rattle.std.specs.Prelude.{◌≡◌, ◌++◌};
    ghost use Rattle.sl_packet.specs.declared.sink.SinkFault.TheVariants.{Device};
    ghost use Rattle.sl_engine.specs.Verbs.Packets.Printed.{channel_name};
    ghost use Rattle.sl_engine.specs.Verbs.Packets.Line.{packet_line};
    ghost use Rattle.sl_engine.specs.Io.Output.{Adds, KeepsWriter};
    ghost use Rattle.sl_engine.specs.Io.Streams.{StopsWriting};
    ghost use Rattle.sl_io.specs.declared.fault.LinkFault.TheVariants.{Write};

    ghost taking = { λ old channel packet new. (new.names ≡ old.names)
        × (new.out.ghost_name ≡ old.out.ghost_name) × Adds W.contents old.out.now
        (packet_line (channel_name old.names channel) packet) new.out.now };

    ghost failing = { λ old channel packet fault new. (fault ≡ Device)
        × (new.out.ghost_name ≡ old.out.ghost_name) × KeepsWriter old.out.now new.out.now
        × StopsWriting W.contents old.out.now.writer.now new.out.now.writer.now
        (old.out.now.lines ++ packet_line (channel_name old.names channel) packet) ⊥ Write };

    ghost failures = { λ printer. printer.failures };

    fn packet(&mut self, channel: u16, p: &[u8]) -> Result<(), SinkFault> {
        match print_packet(self.out, self.names, channel, p) {
            Ok(()) => Ok(()),
            Err(_) => {
                self.failures = self.failures.saturating_add(1);
                Err(SinkFault::Device)
            }
        }
    }
}

// Adds the line of a packet on a channel.
fn print_packet<W: Write>(
    out: &mut Output<W>,
    names: ChannelName,
    channel: u16,
    packet: &[u8],
) -> Written
    requires packet { IsPacket packet.now }
    ensures line { OnOk result (Adds W.contents out.old
        (packet_line (channel_name names channel) packet.now) out.new) }
    ensures lent { OnErr result (KeepsWriter out.old out.new) }
    ensures fault { IfErr result (StopsWriting W.contents out.old.writer.now out.new.writer.now
        (out.old.lines ++ packet_line (channel_name names channel) packet.now) ⊥) }
{
    out.make_room()?;
    push_channel(&mut out.lines, names, channel);
    // After this call the whole line was added; or, at a fault, a prefix of the waiting lines and
    // this one was written. (With `?` the exit at a fault has a name, which the answers use.)
    push_packet_text(out, packet)?;
    Ok(())
}

/// Adds the name of a channel.
pub fn push_channel(lines: &mut Lines, names: ChannelName, channel: u16)
    requires { HasRoomFor part_width lines.old }
    ensures text { lines.new ≡ lines.old ++ channel_name names channel }
    ensures short { length lines.new ≤ length lines.old + fields_width }
{
    match names {
        ChannelName::VirtualChannel => {
            lines.push(b"vc ");
            lines.push_number(u64::from(channel));
        }
        // The number of a channel with a MAP is 64 VC + MAP.
        ChannelName::Map => push_map(lines, channel / 64, channel % 64),
    }
}

fn push_map(lines: &mut Lines, vc: u16, map: u16)
    requires { HasRoomFor part_width lines.old }
    ensures text { lines.new ≡ lines.old ++ tc_channel_text vc map }
    ensures short { length lines.new ≤ length lines.old + fields_width }
{
    lines.push(b"vc ");
    lines.push_number(u64::from(vc));
    lines.push(b" map ");
    lines.push_number(u64::from(map));
}
