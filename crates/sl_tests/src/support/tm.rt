//! TM frames, and what they bring.
ghost use Rattle.std.specs.Prelude.{◌≤◌};

use super::rows::Stop;
use sl_packet::{Delivered, FlowFault, PacketSink};
use sl_tmflow::{Extractor, TmStep, reframe_tm};
use sl_tmframe::{TmFrame, TmShape, TmSkip};
use std::alloc::Global;

/// Frames of this length, with error control or without.
pub fn shape(len: u16, fecf: bool) -> Result<TmShape, Stop> {
    TmShape::new(len, fecf).or(Err(Stop::Absent))
}

/// What is read of octets that have to be as long as a frame.
pub fn read<'a>(
    shape: &TmShape,
    spacecraft: u16,
    octets: &'a [u8],
) -> Result<Result<TmFrame<'a>, TmSkip>, Stop> {
    if octets.len() != usize::from(shape.len()) {
        return Err(Stop::Absent);
    }
    Ok(TmFrame::read(shape, spacecraft, octets))
}

/// The frame of spacecraft 1 that octets are.
pub fn frame<'a>(shape: &TmShape, octets: &'a [u8]) -> Result<TmFrame<'a>, Stop> {
    read(shape, 1, octets)?.or(Err(Stop::Absent))
}

/// An extractor that has processed no frame.
pub fn extractor(alloc: Global) -> Extractor {
    Extractor::new(alloc)
}

/// What an extractor answers to a frame of 32 octets of spacecraft 1.
pub fn hand_in<S: PacketSink>(
    extractor: &mut Extractor,
    octets: &[u8; 32],
    sink: &mut S,
) -> Result<Result<TmStep, FlowFault>, Stop> {
    let shape = shape(32, false)?;
    let frame = frame(&shape, octets)?;
    Ok(extractor.frame(&frame, sink))
}

/// What such a frame brought.
pub fn step_of<S: PacketSink>(
    extractor: &mut Extractor,
    octets: &[u8; 32],
    sink: &mut S,
) -> Result<TmStep, Stop> {
    Ok(hand_in(extractor, octets, sink)??)
}

/// The packets, and the idle ones, that end in a frame.
pub fn ended<S: PacketSink>(
    extractor: &mut Extractor,
    octets: &[u8; 32],
    sink: &mut S,
) -> Result<(u32, u32), Stop> {
    let step = step_of(extractor, octets, sink)?;
    Ok((step.packets(), step.idle()))
}

/// The fault at a frame, if there is one.
pub fn fault<S: PacketSink>(
    extractor: &mut Extractor,
    octets: &[u8; 32],
    sink: &mut S,
) -> Result<Option<FlowFault>, Stop> {
    Ok(hand_in(extractor, octets, sink)?.err())
}

/// The octets that are held for a virtual channel.
pub fn held(extractor: &Extractor, vc: u8) -> u32
    requires { vc ≤ 7 }
{
    extractor.held(vc)
}

/// The normal form of packets in frames of 32 octets.
pub fn form_of(alloc: Global, delivered: &Delivered) -> Result<Vec<u8>, Stop> {
    if !delivered.fits_tm() {
        return Err(Stop::Absent);
    }
    let shape = shape(32, false)?;
    Ok(reframe_tm(alloc, &shape, 1, delivered)?)
}

/// Whether that is this one.
pub fn is_form(alloc: Global, delivered: &Delivered, wanted: &[u8]) -> Result<bool, Stop> {
    let form = form_of(alloc, delivered)?;
    Ok(form.as_slice() == wanted)
}
