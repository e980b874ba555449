//! Packets in TC transfer frames of CCSDS 232.0-B. Packets are delivered from the units that FARM-1
//! (CCSDS 232.1-B) accepts on a virtual channel. Delivered packets have a normal form: a recording
//! of frames of type AD that delivers exactly these packets. The normal form is this project's own.
//!
//! A unit is the data field of a frame of type AD or BD. On a virtual channel with segment headers
//! a unit is a segment on the multiplexer access point (MAP) of its header. On a virtual channel
//! without segment headers each unit counts as one segment with no segmentation (sequence flags 3),
//! which is on MAP 0, by this project's choice.
//!
//! A series of segments of a MAP carries one service data unit. A series is one segment with no
//! segmentation; or a first segment, continuing ones or none, and a last one. The [`laws`] say that
//! all series of a list of segments are found. A series is incomplete while its last segment is
//! still to come: after its first segment, the MAP has had only continuing segments, or no segment.
//! An incomplete series is dropped where the next segment begins another one. A series of more than
//! 65,542 octets, the greatest length of a packet, is given up, by this project's choice.
//!
//! The packets of virtual channel `v` and MAP `m` are on channel `64 * v + m`, 0 to 4095.
//!
//! The format of the frames, which is their greatest length and whether they have an error control
//! field, is a [`TcShape`](sl_tcframe::TcShape); clauses call its value a `TcFormat`.
#![tactic(auto)]

// From the bottom: `segment`, `report`, `hand_over`, `incomplete`, `series_store`, `farms` and
// `receiver` take packets out of frames; `unit_count`, `series_count`, `count_store` and
// `unit_counter` count them; `frames`, `form` and `reframe` write frames, and `fits` tests which
// packets these can carry.
mod count_store;
mod farms;
mod fits;
mod form;
mod frames;
mod hand_over;
mod incomplete;
pub mod laws;
mod receiver;
mod reframe;
mod report;
mod segment;
mod series_count;
mod series_store;
mod unit_count;
mod unit_counter;

pub use farms::Farms;
pub use fits::fits_tc;
pub use form::{PIECE_ROOM, TcForm};
pub use receiver::Receiver;
pub use reframe::reframe_tc;
pub use report::TcStep;
pub use unit_counter::UnitCounter;
