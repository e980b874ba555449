//! Two recordings of space packets (CCSDS 133.0-B): which packets only one of them has.
//!
//! On each channel the first copy of a packet in one recording stands for the first copy of it in
//! the other, the second for the second, and so on. A packet without a counterpart is one that only
//! its recording has. The order of the other recording doesn't matter.
#![tactic(auto)]

mod channel;
pub mod laws;
mod left;
mod numbering;
mod octets;
mod pairing;
mod runs;
mod side;
mod waiting;

pub use channel::Station;
pub use left::Left;
pub use pairing::{Answer, Pairing};
pub use runs::first_run;
