//! What tests assert of the rows of their tables.
use sl_link::LinkFault;
use sl_packet::{FlowFault, SinkFault};
use std::alloc::{AllocError, Global};
use std::fmt::{Debug, Display};
use std::process::Abort;

/// Why a row wasn't tried to its end.
#[derive(Debug, Drop)]
pub enum Stop {
    /// Memory was refused to the test.
    Memory,
    /// An extractor, a receiver or a sink had this fault.
    Flow(FlowFault),
    Sink(SinkFault),
    /// An engine had this fault.
    Link(LinkFault),
    /// A format, a window or a frame isn't there.
    Absent,
}

impl From<AllocError> for Stop {
    fn from(_error: AllocError) -> Stop {
        Stop::Memory
    }
}

impl From<FlowFault> for Stop {
    fn from(fault: FlowFault) -> Stop {
        Stop::Flow(fault)
    }
}

impl From<SinkFault> for Stop {
    fn from(fault: SinkFault) -> Stop {
        Stop::Sink(fault)
    }
}

impl From<LinkFault> for Stop {
    fn from(fault: LinkFault) -> Stop {
        Stop::Link(fault)
    }
}

/// Whether this is the text of a fault.
pub fn is_text(alloc: Global, fault: &impl Display, wanted: &str) -> Result<bool, Stop> {
    let text = format!(in alloc; "{fault}")?;
    Ok(text.as_str() == wanted)
}

/// A row is as it should be.
pub fn holds(rt: &impl Abort, row: &impl Debug, is_so: bool) {
    assert!(rt; is_so, "at {row:?}");
}

/// A row was tried to its end, and is as it should be.
pub fn passes(rt: &impl Abort, row: &impl Debug, outcome: Result<bool, Stop>) {
    match outcome {
        Ok(is_so) => assert!(rt; is_so, "at {row:?}"),
        Err(stop) => assert!(rt; false, "at {row:?}: {stop:?}"),
    }
}
