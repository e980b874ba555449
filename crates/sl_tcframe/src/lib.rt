//! TC transfer frames of CCSDS 232.0-B: which octets are a frame, how a frame is read, how a frame
//! of type AD is written, with a segment header or without, and how a recording that comes in
//! chunks is delimited into frames. Any list of octets is a recording. It divides into whole frames
//! end to end, any number of them, and a remainder that doesn't begin with a whole frame. The
//! remainder may be the beginning of a frame whose other octets are missing.
//!
//! A frame is read, or is skipped for a reason, whatever its octets are. What a frame of type AD or
//! BD carries is called its unit: the whole data field. Reading a frame copies nothing: the unit is
//! borrowed from the frame's octets. A frame that [`push_tc`] or [`push_tc_plain`] adds is read
//! back as it was given ([`laws`]).
//!
//! Management says for each virtual channel whether its frames of types AD and BD have segment
//! headers. A [`VcSet`] holds the virtual channels whose frames have none. No call of this crate
//! that reads or writes frames takes one; calls of `sl_tcflow` and `sl_link` do. The word `plain`
//! in a name, as in [`push_tc_plain`], means such a channel or frame, but [`TcShape::plain_room`]
//! is also the bound of a whole data field, with a segment header or without.
#![tactic(auto)]

mod ad_frame;
pub mod laws;
mod tc_frame;
mod tc_framer;
mod tc_shape;
mod vc_set;

pub use ad_frame::{push_tc, push_tc_plain};
pub use tc_frame::{TcContent, TcFrame, TcSkip};
pub use tc_framer::TcFramer;
pub use tc_shape::TcShape;
pub use vc_set::VcSet;
