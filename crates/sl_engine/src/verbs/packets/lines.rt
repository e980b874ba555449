//! The lines of packets, whose octets are written part by part.
ghost use Rattle.std.specs.Prelude.{◌≡◌, ◌+◌, ◌≤◌, ◌++◌, length, IfErr, OnErr, OnOk};
ghost use Rattle.hex.specs.Hex.{encode_lower};
ghost use Rattle.sl_engine.specs.Verbs.Packets.Line.{fields_text, header_text, packet_text, size_text};
ghost use Rattle.sl_engine.specs.Io.Output.{Adds, KeepsWriter};
ghost use Rattle.sl_engine.specs.Io.Lines.{HasRoomFor, part_width, text_width, words_width};
ghost use Rattle.sl_engine.specs.Io.Streams.{StopsWriting};

mod header_bits;

use crate::io::lines::Lines;
use crate::io::output::{Output, Written};
use crate::verbs::packets::lines::header_bits::bits_text;
use sl_fields::{PacketHeader, front};
use std::io::Write;

/// Adds the line of a packet but for its channel, whose name was added before.
pub fn push_packet_text<W: Write>(out: &mut Output<W>, packet: &[u8]) -> Written
    requires packet { 6 ≤ length packet.now }
    requires room { HasRoomFor text_width out.old.lines }
    ensures line { OnOk result (Adds W.contents out.old (packet_text packet.now) out.new) }
    ensures lent { OnErr result (KeepsWriter out.old out.new) }
    ensures fault { IfErr result (StopsWriting W.contents out.old.writer.now out.new.writer.now
        (out.old.lines ++ packet_text packet.now) ⊥) }
{
    push_fields_text(&mut out.lines, packet);
    push_octets(out, packet)?;
    out.make_room()?;
    out.lines.push(b"\n");
    Ok(())
}

// Adds the fields of the primary header, and how many octets there are.
fn push_fields_text(lines: &mut Lines, packet: &[u8])
    requires packet { 6 ≤ length packet.now }
    requires room { HasRoomFor text_width lines.old }
    ensures { lines.new ≡ lines.old ++ fields_text packet.now }
{
    let (header, _) = front::<6>(packet);
    push_header(lines, &PacketHeader::read(header));
    push_size(lines, packet.len() as u64);
}

fn push_size(lines: &mut Lines, octets: u64)
    requires { HasRoomFor words_width lines.old }
    ensures { lines.new ≡ lines.old ++ size_text octets }
{
    lines.push(b" octets ");
    lines.push_number(octets);
    lines.push(b" ");
}

fn push_header(lines: &mut Lines, header: &PacketHeader)
    requires { HasRoomFor part_width lines.old }
    ensures text { lines.new ≡ lines.old ++ header_text header.now }
    ensures short { length lines.new ≤ length lines.old + part_width }
{
    lines.push(b" apid ");
    lines.push_number(u64::from(header.apid()));
    lines.push(&bits_text(header));
    lines.push_number(u64::from(header.count()));
}

// Adds octets in hexadecimal, in parts for which there is room.
fn push_octets<W: Write>(out: &mut Output<W>, octets: &[u8]) -> Written
    ensures text { OnOk result (Adds W.contents out.old (encode_lower octets.now) out.new) }
    ensures lent { OnErr result (KeepsWriter out.old out.new) }
    ensures fault { IfErr result (StopsWriting W.contents out.old.writer.now out.new.writer.now
        (out.old.lines ++ encode_lower octets.now) ⊥) }
{
    let mut left = octets;
    while !left.is_empty() {
        out.make_room()?;
        let (part, after) = left.split_at(left.len().min(out.lines.room() / 2));
        out.lines.push_hex(part);
        left = after;
    }
    Ok(())
}
