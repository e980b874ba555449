//! Transfer frames out of what a station writes: channel access data units (CADUs) of CCSDS 131.0-B,
//! frames with octets of the station around each, and communications link transmission units
//! (CLTUs) of CCSDS 231.0-B.
//!
//! A file is divided into units and stray octets, by one definition for both sorts of unit. Each
//! frame of each unit is written, end to end, and what else there is is counted.
#![tactic(auto)]

mod cadu;
mod cadu_units;
mod cltu;
mod cltu_units;
mod code_block;
mod ends;
mod kept;
pub mod laws;
mod marker;
mod randomiser;
mod read;
mod tc_frames;
mod totals;
mod units;
mod window;

pub use cadu::CaduShape;
pub use cltu::CltuShape;
pub use marker::SyncMarker;
pub use read::{read_cadus, read_cltus};
pub use totals::Totals;
