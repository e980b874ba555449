//! FARM-1, the frame acceptance and reporting mechanism of CCSDS 232.1-B, on one virtual channel:
//! [`Farm`] decides which frames are accepted, and reports by a Communications Link Control Word
//! (CLCW) of CCSDS 232.0-B. V(R) is the frame sequence number that FARM-1 expects next. [`Starts`]
//! has its initial value for each virtual channel.
//!
//! Each [`step`](Farm::step) takes one frame, and is one entry of the FARM-1 state table. Buffers
//! are always free, so FARM-1 never reaches the wait state. The [`laws`] state what holds for the
//! table, for whole lists of frames, and for the texts that [`Starts::read`] reads.
#![tactic(auto)]

mod farm;
mod farm_event;
pub mod laws;
mod starts;
mod verdict;
mod window;

pub use farm::Farm;
pub use farm_event::FarmEvent;
pub use starts::Starts;
pub use verdict::Verdict;
pub use window::Window;
