//! TM transfer frames of CCSDS 132.0-B: how a frame is read, how a frame of packets is written, and
//! how a recording that comes in chunks is delimited into frames.
//!
//! A recording is frames of one managed length, end to end, and a remainder shorter than a frame.
//! Any octets of the managed length are read as a frame, or are skipped for a reason. A frame that
//! is read borrows its data field from the octets. A frame that [`push_tm`] adds is read back as it
//! was given ([`laws`]).
#![tactic(auto)]

pub mod laws;
mod packet_frame;
mod tm_frame;
mod tm_framer;
mod tm_shape;

pub use packet_frame::push_tm;
pub use tm_frame::{TmField, TmFrame, TmSkip};
pub use tm_framer::TmFramer;
pub use tm_shape::TmShape;
