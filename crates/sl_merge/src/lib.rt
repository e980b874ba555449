//! Two recordings of TM transfer frames (CCSDS 132.0-B), merged frame by frame.
//!
//! A merge is told by a list of fates: what becomes of each frame of both recordings, in order.
//! Each fate takes the next frame of the recording, or of both, that it names. So the order of each
//! recording is kept. [`is_merge_tm`] reports whether the fates are those of a merge;
//! [`merged_recording`] makes the merged recording.
#![tactic(auto)]

mod channel;
mod counts;
mod fate;
mod item;
mod merge;
mod octets;
mod twice;

pub use counts::{FateCounts, LeftOut, count_fates};
pub use fate::Fate;
pub use merge::{is_merge_tm, merged_recording};
