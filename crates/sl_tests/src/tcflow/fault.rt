//! A receiver whose sink refuses a packet.
use crate::support::recordings::TC_FRAME;
use crate::support::rows::{Stop, holds, passes};
use crate::support::sinks::Keeps;
use crate::support::tc::{clcw, hand_in, receiver};
use sl_packet::{FlowFault, SinkFault};
use sl_tcflow::Receiver;

// The faults at a frame, which is tried again.
static FAULTS: [FlowFault; 2] = [FlowFault::Sink(SinkFault::Refused), FlowFault::Failed];

// Whether the frame fails with this fault, and its packet is offered only once.
fn fails(receiver: &mut Receiver, sink: &mut Keeps, wanted: FlowFault) -> Result<bool, Stop> {
    let fault = hand_in(receiver, &TC_FRAME, sink)?.err();
    Ok(fault == Some(wanted) && sink.refused == 1)
}

// The frame is counted all the same.
#[test]
fn a_receiver_stops_at_a_fault(rt: HostRuntime) -> Result<(), Stop> {
    let mut receiver = receiver(rt.alloc(), 0)?;
    let mut sink = Keeps::new(0);
    for fault in &FAULTS {
        passes(&rt, fault, fails(&mut receiver, &mut sink, *fault));
    }
    holds(&rt, &"CLCW", clcw(&receiver, 0) == [0x01, 0x00, 0x00, 0x01]);
    Ok(())
}
