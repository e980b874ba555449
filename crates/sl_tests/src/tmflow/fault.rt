//! An extractor whose sink refuses packets.
use super::{BEGUN, ENDED, Frame, IDLE, OF_23, end};
use crate::support::rows::{Stop, passes};
use crate::support::sinks::Keeps;
use crate::support::tm::{extractor, fault};
use sl_packet::{FlowFault, SinkFault};
use sl_tmflow::Extractor;
use std::alloc::Global;

// The packets of 23 and of ten octets.
const BOTH: [u8; 33] = [
    0x00, 0x02, 0xC0, 0x05, 0x00, 0x10, //
    0x11, 0x11, 0x11, 0x11, 0x11, 0x11, 0x11, 0x11, 0x11, 0x11, 0x11, 0x11, 0x11, 0x11, 0x11, 0x11,
    0x11, //
    0x00, 0x03, 0xC0, 0x00, 0x00, 0x03, 0x01, 0x02, 0x03, 0x04,
];

const FRAMES: [Frame; 2] = [(&BEGUN, (1, 0)), (&IDLE, (0, 0))];

// How many packets a sink keeps, frames that go well, one with a packet more, and what is kept.
static REFUSED: [(u32, &[Frame], &[u8; 32], &[u8]); 3] = [
    (0, &[], &BEGUN, &[]),
    (1, &FRAMES, &ENDED, &OF_23),
    (2, &FRAMES, &ENDED, &BOTH),
];

// The faults at that frame, which is tried again.
static FAULTS: [FlowFault; 3] = [
    FlowFault::Sink(SinkFault::Refused),
    FlowFault::Failed,
    FlowFault::Failed,
];

// Whether a frame fails whenever it is tried, and its packet is offered only once.
fn fails(extractor: &mut Extractor, sink: &mut Keeps, frame: &[u8; 32]) -> Result<bool, Stop> {
    for wanted in &FAULTS {
        let fault = fault(extractor, frame, sink)?;
        if fault != Some(*wanted) || sink.refused != 1 {
            return Ok(false);
        }
    }
    Ok(true)
}

// Whether what was accepted stays where a frame fails.
fn keeps(
    alloc: Global,
    most: u32,
    frames: &[Frame],
    last: &[u8; 32],
    kept: &[u8],
) -> Result<bool, Stop> {
    let mut extractor = extractor(alloc);
    let mut sink = Keeps::new(most);
    let has_begun = end(&mut extractor, &mut sink, frames)?;
    let has_failed = fails(&mut extractor, &mut sink, last)?;
    Ok(has_begun && has_failed && sink.kept() == Some(kept))
}

#[test]
fn an_extractor_stops_at_a_fault(rt: HostRuntime) {
    for (most, frames, last, kept) in &REFUSED {
        passes(&rt, most, keeps(rt.alloc(), *most, frames, last, kept));
    }
}
