//! What tests assert of the rows of their tables.
use hex::FromHexError;
use sl_link::LinkFault;
use std::alloc::{AllocError, AllocFailed, Global};
use std::fmt::{Debug, Display};
use std::process::Abort;

/// Why a row wasn't tried to its end.
#[derive(Debug, Drop)]
pub enum Stop {
    /// Memory was refused to the test.
    Memory,
    /// An engine met this fault.
    Link(LinkFault),
    /// A recording isn't in hexadecimal.
    Hex(FromHexError),
    /// Parameters, octets or lines aren't there.
    Absent,
}

impl From<AllocError> for Stop {
    fn from(_error: AllocError) -> Stop {
        Stop::Memory
    }
}

impl From<AllocFailed<u8>> for Stop {
    fn from(_failed: AllocFailed<u8>) -> Stop {
        Stop::Memory
    }
}

impl From<LinkFault> for Stop {
    fn from(fault: LinkFault) -> Stop {
        Stop::Link(fault)
    }
}

impl From<FromHexError> for Stop {
    fn from(error: FromHexError) -> Stop {
        Stop::Hex(error)
    }
}

/// Whether this is the text of a fault.
pub fn is_text(alloc: Global, fault: &impl Display, wanted: &str) -> Result<bool, Stop> {
    let text = format!(in alloc; "{fault}")?;
    Ok(text.as_str() == wanted)
}

/// A row is as it should be.
pub fn holds(rt: &impl Abort, row: &impl Debug, is_so: bool) {
    assert!(rt; is_so, "at {row:?}");
}

/// A row was tried to its end, and is as it should be.
pub fn passes(rt: &impl Abort, row: &impl Debug, outcome: Result<bool, Stop>) {
    match outcome {
        Ok(is_so) => assert!(rt; is_so, "at {row:?}"),
        Err(stop) => assert!(rt; false, "at {row:?}: {stop:?}"),
    }
}
