//! Streams with a count of their faults, single reads and whole writes, and why an engine that reads
//! and writes them stopped.
#![tactic(auto)]

mod counted;
mod fault;
mod streams;

pub use counted::Counted;
pub use fault::LinkFault;
pub use streams::{flush, read_some, write_text};
