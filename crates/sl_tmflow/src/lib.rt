//! Packets in TM transfer frames of CCSDS 132.0-B: how packets are delivered from the frames of a
//! virtual channel, and the normal form of delivered packets.
//!
//! A packet is found by its start in a frame and by the run of later frames up to the one in which
//! it ends ([`laws`]). The normal form is this project's own: the delivered packets, written into
//! new frames in one fixed way.
//!
//! The format of the frames, which is their length and whether they have an error control field, is
//! a [`TmShape`](sl_tmframe::TmShape); clauses call its value a `TmFormat`.
#![tactic(auto)]

// From the bottom: `packet_octets`, `report`, `frame_count`, `hand_over`, `progress`, `channel` and
// `extractor` take packets out of frames; `channel_outline` and `counter` count them; `form` and
// `reframe` write frames, with `packet_octets`.
mod channel;
mod channel_outline;
mod counter;
mod extractor;
mod form;
mod frame_count;
mod hand_over;
pub mod laws;
mod packet_octets;
mod progress;
mod reframe;
mod report;

pub use counter::PacketCounter;
pub use extractor::Extractor;
pub use form::TmForm;
pub use reframe::reframe_tm;
pub use report::TmStep;
