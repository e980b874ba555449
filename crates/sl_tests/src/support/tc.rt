//! TC frames, what FARM-1 answers to them, and what they bring.
ghost use Rattle.std.specs.Prelude.{◌≤◌};

use super::cop::window;
use super::packets::delivered_of;
use super::rows::Stop;
use sl_cop::{Starts, Verdict};
use sl_packet::{FlowFault, PacketSink};
use sl_tcflow::{Farms, Receiver, TcStep, UnitCounter, fits_tc, reframe_tc};
use sl_tcframe::{TcFrame, TcShape, TcSkip, VcSet};
use std::alloc::Global;

/// Frames of at most this length, with error control or without.
pub fn shape(max: u16, fecf: bool) -> Result<TcShape, Stop> {
    TcShape::new(max, fecf).or(Err(Stop::Absent))
}

/// What is read for spacecraft 1 of octets that have to be one frame.
pub fn read<'a>(shape: &TcShape, octets: &'a [u8]) -> Result<Result<TcFrame<'a>, TcSkip>, Stop> {
    if !shape.is_cut(octets) {
        return Err(Stop::Absent);
    }
    Ok(TcFrame::read(shape, 1, octets))
}

/// The frame of spacecraft 1 that octets are.
pub fn frame<'a>(shape: &TcShape, octets: &'a [u8]) -> Result<TcFrame<'a>, Stop> {
    read(shape, octets)?.or(Err(Stop::Absent))
}

/// The set of these virtual channels.
pub fn set_of(channels: &[u8]) -> VcSet {
    let mut set = VcSet::new();
    for vc in channels {
        if *vc <= 63 {
            set = set.with(*vc);
        }
    }
    set
}

/// A receiver with a window of 10, this V(R) and segment headers on each virtual channel.
pub fn receiver(alloc: Global, vr: u8) -> Result<Receiver, Stop> {
    receiver_with(alloc, &Starts::all(vr), VcSet::new())
}

/// The same with these V(R), and without segment headers on these virtual channels.
pub fn receiver_with(alloc: Global, starts: &Starts, plain: VcSet) -> Result<Receiver, Stop> {
    let window = window(10)?;
    Ok(Receiver::new(alloc, window, starts, plain))
}

/// A counter with a window of 10, V(R) 0 and segment headers on each virtual channel.
pub fn counter(alloc: Global) -> Result<UnitCounter, Stop> {
    let window = window(10)?;
    let starts = Starts::all(0);
    Ok(UnitCounter::new(alloc, window, &starts, VcSet::new()))
}

/// FARM-1 of each virtual channel, with a window of 10 and this V(R).
pub fn farms(vr: u8) -> Result<Farms, Stop> {
    let window = window(10)?;
    Ok(Farms::new(window, &Starts::all(vr)))
}

/// What a receiver answers to a frame of spacecraft 1.
pub fn hand_in<S: PacketSink>(
    receiver: &mut Receiver,
    octets: &[u8],
    sink: &mut S,
) -> Result<Result<TcStep, FlowFault>, Stop> {
    let shape = shape(1024, false)?;
    let frame = frame(&shape, octets)?;
    Ok(receiver.frame(&frame, sink))
}

/// What such a frame brought.
pub fn step_of<S: PacketSink>(
    receiver: &mut Receiver,
    octets: &[u8],
    sink: &mut S,
) -> Result<TcStep, Stop> {
    Ok(hand_in(receiver, octets, sink)??)
}

/// The verdict on a frame, and the packets and the idle ones that end with its unit.
pub fn counts(step: &TcStep) -> (Verdict, u32, u32) {
    (step.verdict(), step.packets(), step.idle())
}

/// The anomalies of a unit: whether it is out of sequence, how many octets of an incomplete series
/// are dropped, whether its series is too long, and how many octets are left after its packets.
pub fn anomalies(step: &TcStep) -> (bool, Option<u32>, bool, u32) {
    (step.stray(), step.dropped(), step.long(), step.tail())
}

/// The verdict on a frame of spacecraft 1, and the packets and idle ones that end with its unit.
pub fn received<S: PacketSink>(
    receiver: &mut Receiver,
    octets: &[u8],
    sink: &mut S,
) -> Result<(Verdict, u32, u32), Stop> {
    let step = step_of(receiver, octets, sink)?;
    Ok(counts(&step))
}

/// The anomalies of the unit of a frame of spacecraft 1.
pub fn anomalies_of<S: PacketSink>(
    receiver: &mut Receiver,
    octets: &[u8],
    sink: &mut S,
) -> Result<(bool, Option<u32>, bool, u32), Stop> {
    let step = step_of(receiver, octets, sink)?;
    Ok(anomalies(&step))
}

/// The octets of the CLCW of a virtual channel.
pub fn clcw(receiver: &Receiver, vc: u8) -> [u8; 4]
    requires { vc ≤ 63 }
{
    receiver.clcw(vc).write()
}

/// How many octets are held for a MAP, and whether a series is incomplete there.
pub fn held(receiver: &Receiver, vc: u8, map: u8) -> (u32, bool)
    requires vc { vc ≤ 63 }
    requires map { map ≤ 63 }
{
    (receiver.held(vc, map), receiver.is_open(vc, map))
}

/// The normal form of packets on their channels, of spacecraft 1, with these V(R), and without
/// segment headers on these virtual channels.
pub fn form_of(
    alloc: Global,
    shape: &TcShape,
    starts: &Starts,
    plain: &VcSet,
    packets: &[(u16, &[u8])],
) -> Result<Vec<u8>, Stop> {
    let delivered = delivered_of(alloc, packets)?;
    if !fits_tc(shape, plain, &delivered) {
        return Err(Stop::Absent);
    }
    Ok(reframe_tc(alloc, shape, 1, starts, plain, &delivered)?)
}

/// Whether that of frames of at most this length, with error control or without, is this one.
pub fn is_form(
    alloc: Global,
    (max, fecf): (u16, bool),
    (starts, plain): (&Starts, &VcSet),
    packets: &[(u16, &[u8])],
    wanted: &[u8],
) -> Result<bool, Stop> {
    let form = form_of(alloc, &shape(max, fecf)?, starts, plain, packets)?;
    Ok(form.as_slice() == wanted)
}
