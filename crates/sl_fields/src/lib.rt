//! The fixed parts of CCSDS frames and packets: the primary headers of TM transfer frames
//! (132.0-B), TC transfer frames (232.0-B) and space packets (133.0-B), the segment header and the
//! Communications Link Control Word (CLCW) of 232.0-B, and the frame error control field of TM and
//! TC.
//!
//! Each header, and the CLCW, has a type with the values of all its fields, the spare bits too, so
//! that every bit belongs to a field. [`read`](TmHeader::read) refuses no octets, and
//! [`write`](TmHeader::write) returns the octets that `read` took. [`new`](TmHeader::new) refuses a
//! value that its field's bits can't hold.
//!
//! The crate also has three things that several crates above use: the first and the last octets of
//! a slice ([`front`], [`back`]), a number from 0 to 255 that is read from text ([`read_decimal`]),
//! and the reason why frame lengths are refused ([`ShapeFault`]). The definitions `is_outside`,
//! `NeverFall` and `with_fecf`, and lemmas on lists, joined texts and tests, are for crates above.
#![tactic(auto)]

mod bits;
mod clcw;
mod decimal;
mod ends;
mod error_control;
mod folds;
mod halves;
pub mod laws;
mod packet_header;
mod segment_header;
mod shape_fault;
mod tc_header;
mod tm_header;
mod words;

pub use clcw::Clcw;
pub use decimal::read_decimal;
pub use ends::{back, front};
pub use error_control::{fecf, fecf_field, fecf_good, without_fecf};
pub use packet_header::PacketHeader;
pub use segment_header::SegmentHeader;
pub use shape_fault::ShapeFault;
pub use tc_header::TcHeader;
pub use tm_header::TmHeader;
