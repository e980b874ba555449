//! What only one of two recordings delivers, as lines.
ghost use Rattle.std.specs.Prelude.{◌≡◌, ◌+◌, ◌≤◌, ◌<◌, ◌++◌, [], ⊤, length, false, true, IfErr, OnOk};
ghost use Rattle.sl_pair.specs.Pairing.{ByChannel, StandsAfter, in_order};
ghost use Rattle.sl_pair.specs.Placed.{left_in};
ghost use Rattle.sl_pair.specs.Runs.{by_apid};
ghost use Rattle.sl_engine.specs.Compare.Text.{channel_text, counts_text, difference_text, left_text};
ghost use Rattle.sl_engine.specs.Compare.Text.{mark, run_line, run_text};
ghost use Rattle.sl_engine.specs.Io.Lines.{HasRoom, HasRoomFor, fields_width, line_width};
ghost use Rattle.sl_engine.specs.Io.Output.{Adds, KeepsWriter};
ghost use Rattle.sl_engine.specs.Io.Streams.{StopsWriting, WritesText};
ghost use Rattle.sl_engine.specs.Verbs.Packets.Line.{packet_line};
ghost use Rattle.sl_engine.specs.Verbs.Packets.Printed.{channel_name};

use crate::io::lines::Lines;
use crate::io::output::{Output, Written};
use crate::verbs::packets::lines::push_packet_text;
use crate::verbs::packets::printer::{ChannelName, push_channel};
use sl_io::{Counted, LinkFault};
use sl_pair::{Left, Pairing, Station, first_run};
use std::hash::BuildHasher;
use std::io::Write;

/// Writes what only one of two recordings delivers on the first channels: a line for each packet, or
/// for each run of packets.
pub fn write_left<S: BuildHasher + Copy, W: Write>(
    left: &Pairing<S>,
    names: ChannelName,
    channels: u16,
    each: bool,
    writer: &mut Counted<W>,
) -> Result<(), LinkFault>
    ensures written { OnOk result ((firsts seconds : ByChannel)
        → StandsAfter left.now firsts seconds → WritesText W.contents writer.old writer.new
        (difference_text each (channel_name names) firsts seconds channels)) }
    ensures fault { IfErr result (λ fault. (firsts seconds : ByChannel)
        → StandsAfter left.now firsts seconds → StopsWriting W.contents writer.old writer.new
        (difference_text each (channel_name names) firsts seconds channels) ⊤ fault) }
{
    let mut out = Output {
        writer,
        lines: Lines::new(),
    };
    write_channels(&mut out, left, names, channels, each)
}

// Writes into an output in which no line waits, so that the proof speaks of an output that was lent.
fn write_channels<S: BuildHasher + Copy, W: Write>(
    out: &mut Output<W>,
    left: &Pairing<S>,
    names: ChannelName,
    channels: u16,
    each: bool,
) -> Written
    requires { out.old.lines ≡ [] }
    ensures kept { KeepsWriter out.old out.new }
    ensures written { OnOk result ((firsts seconds : ByChannel)
        → StandsAfter left.now firsts seconds → WritesText W.contents out.old.writer.now
        out.new.writer.now (difference_text each (channel_name names) firsts seconds channels)) }
    ensures fault { IfErr result (λ fault. (firsts seconds : ByChannel)
        → StandsAfter left.now firsts seconds → StopsWriting W.contents out.old.writer.now
        out.new.writer.now (difference_text each (channel_name names) firsts seconds channels) ⊤
        fault) }
{
    for channel in 0..channels {
        write_channel(out, left, names, channel, each)?;
    }
    out.flush()
}

// Adds what only one of two recordings delivers on a channel.
fn write_channel<S: BuildHasher + Copy, W: Write>(
    out: &mut Output<W>,
    left: &Pairing<S>,
    names: ChannelName,
    channel: u16,
    each: bool,
) -> Written
    ensures lines { OnOk result ((firsts seconds : ByChannel)
        → StandsAfter left.now firsts seconds → Adds W.contents out.old
        (channel_text each (channel_name names) firsts seconds channel) out.new) }
    ensures lent { KeepsWriter out.old out.new }
    ensures fault { IfErr result (λ fault. (firsts seconds : ByChannel)
        → StandsAfter left.now firsts seconds → StopsWriting W.contents out.old.writer.now
        out.new.writer.now (out.old.lines ++ channel_text each (channel_name names)
        firsts seconds channel) ⊤ fault) }
{
    write_station(out, left, names, channel, Station::First, each)?;
    write_station(out, left, names, channel, Station::Second, each)
}

// Adds what only a station's recording delivers on a channel.
fn write_station<S: BuildHasher + Copy, W: Write>(
    out: &mut Output<W>,
    left: &Pairing<S>,
    names: ChannelName,
    channel: u16,
    station: Station,
    each: bool,
) -> Written
    ensures lines { OnOk result ((own others : ByChannel)
        → in_order station (StandsAfter left.now) own others → Adds W.contents out.old
        (left_text each station (channel_name names channel)
        (by_apid (left_in (own channel) (others channel)))) out.new) }
    ensures lent { KeepsWriter out.old out.new }
    ensures fault { IfErr result (λ fault. (own others : ByChannel)
        → in_order station (StandsAfter left.now) own others
        → StopsWriting W.contents out.old.writer.now out.new.writer.now (out.old.lines
        ++ left_text each station (channel_name names channel)
        (by_apid (left_in (own channel) (others channel)))) ⊤ fault) }
{
    match left.left_by_apid(station, channel) {
        Ok(left) if each => write_packets(out, names, channel, station, left.as_slice()),
        Ok(left) => write_runs(out, names, channel, station, left.as_slice()),
        Err(_) => Err(LinkFault::Memory),
    }
}

// Adds the lines of packets on a channel, a line for each run.
fn write_runs<W: Write>(
    out: &mut Output<W>,
    names: ChannelName,
    channel: u16,
    station: Station,
    left: &[Left],
) -> Written
    ensures lines { OnOk result (Adds W.contents out.old
        (left_text false station (channel_name names channel) left.now) out.new) }
    ensures lent { KeepsWriter out.old out.new }
    ensures fault { IfErr result (StopsWriting W.contents out.old.writer.now out.new.writer.now
        (out.old.lines ++ left_text false station (channel_name names channel) left.now) ⊥) }
{
    let mut written = 0;
    while written < left.len() {
        out.make_room()?;
        let (_, later) = left.split_at(written);
        let (run, _) = later.split_at(first_run(later));
        push_run(&mut out.lines, names, channel, station, run);
        written += run.len();
    }
    Ok(())
}

// Adds the lines of packets on a channel, each as `packets` lists it.
fn write_packets<W: Write>(
    out: &mut Output<W>,
    names: ChannelName,
    channel: u16,
    station: Station,
    left: &[Left],
) -> Written
    ensures lines { OnOk result (Adds W.contents out.old
        (left_text true station (channel_name names channel) left.now) out.new) }
    ensures lent { KeepsWriter out.old out.new }
    ensures fault { IfErr result (StopsWriting W.contents out.old.writer.now out.new.writer.now
        (out.old.lines ++ left_text true station (channel_name names channel) left.now) ⊥) }
{
    let mut written = 0;
    while written < left.len() {
        write_packet(out, names, channel, station, &left[written])?;
        written += 1;
    }
    Ok(())
}

// Adds the line of a packet.
fn write_packet<W: Write>(
    out: &mut Output<W>,
    names: ChannelName,
    channel: u16,
    station: Station,
    one: &Left,
) -> Written
    ensures line { OnOk result (Adds W.contents out.old (mark station
        ++ packet_line (channel_name names channel) one.now.packet) out.new) }
    ensures lent { KeepsWriter out.old out.new }
    ensures fault { IfErr result (StopsWriting W.contents out.old.writer.now out.new.writer.now
        (out.old.lines ++ (mark station ++ packet_line (channel_name names channel) one.now.packet))
        ⊥) }
{
    out.make_room()?;
    push_mark(&mut out.lines, station);
    push_channel(&mut out.lines, names, channel);
    push_packet_text(out, one.packet())?;
    Ok(())
}

// Adds the line of a run.
fn push_run(lines: &mut Lines, names: ChannelName, channel: u16, station: Station, run: &[Left])
    requires some { 0 < length run.now }
    requires room { HasRoom lines.old }
    ensures { lines.new ≡ lines.old ++ run_line station (channel_name names channel) run.now }
{
    let first = &run[0];
    let last = &run[run.len() - 1];
    push_mark(lines, station);
    push_channel(lines, names, channel);
    push_run_text(
        lines,
        first.apid(),
        first.count(),
        last.count(),
        run.len() as u64,
    );
}

fn push_mark(lines: &mut Lines, station: Station)
    requires { HasRoom lines.old }
    ensures text { lines.new ≡ lines.old ++ mark station }
    ensures short { length lines.new ≤ length lines.old + 2 }
{
    match station {
        Station::First => lines.push(b"< "),
        Station::Second => lines.push(b"> "),
    }
}

fn push_run_text(lines: &mut Lines, apid: u16, first: u16, last: u16, packets: u64)
    requires { HasRoomFor line_width lines.old }
    ensures { lines.new ≡ lines.old ++ run_text apid first last packets }
{
    lines.push(b" apid ");
    lines.push_number(u64::from(apid));
    lines.push(b" counts ");
    push_counts(lines, first, last, packets);
    lines.push(b" packets ");
    lines.push_number(packets);
    lines.push(b"\n");
}

fn push_counts(lines: &mut Lines, first: u16, last: u16, packets: u64)
    requires { HasRoomFor fields_width lines.old }
    ensures text { lines.new ≡ lines.old ++ counts_text first last packets }
    ensures short { length lines.new ≤ length lines.old + fields_width }
{
    lines.push_number(u64::from(first));
    if packets != 1 {
        lines.push(b"..");
        lines.push_number(u64::from(last));
    }
}
