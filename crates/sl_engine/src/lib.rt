//! Engines over recordings of a spacecraft's link.
//!
//! A recording is TM transfer frames (CCSDS 132.0-B) or TC transfer frames (CCSDS 232.0-B) end to
//! end, nothing else. Its remainder is the octets after the last whole frame. For each of the two
//! kinds of frames there are these calls:
//!
//! - `show_` lists the frames, and `check_` their anomalies;
//! - `packets_` lists the packets that the frames deliver;
//! - `normalise_` writes these packets into new frames in one fixed way, the normal form;
//! - `same_packets_` reports whether two recordings deliver the same packets;
//! - `same_packets_in_memory_` does so for recordings that are slices;
//! - `compare_` has the packets that only one of two recordings delivers, and `write_difference_`
//!   writes them.
//!
//! Each call is under the [`Managed`] parameters of the link, and answers why it stopped, a
//! [`LinkFault`], or what it found. Those of the first three points read a [`Counted`] stream,
//! write another one and answer what they counted, their [`Totals`]. `same_packets_` and
//! `same_packets_in_memory_` answer a `bool`, and `compare_` a [`Compared`]; all but the second read
//! two such streams. [`run_engine`] makes a call of the first three points, that of an [`Engine`],
//! which has a [`VerbName`] and a [`RecordingKind`].
//!
//! How a recording goes through the modules is drawn in docs/architecture.md.
#![tactic(auto)]

mod compare;
mod engine;
mod framing;
mod io;
mod kind;
mod link;
mod listings;
mod normalise;
mod same;
mod tally;
mod verbs;

pub use compare::{
    CheckWord, Compared, Signs, Summary, WordCounts, compare_tc, compare_tm, write_difference_tc,
    write_difference_tm,
};
pub use engine::{Engine, RecordingKind, VerbName, run_engine};
pub use link::managed::{Managed, ManagedFault};
pub use link::totals::Totals;
pub use listings::{check_tc, check_tm, packets_tc, packets_tm, show_tc, show_tm};
pub use normalise::{normalise_tc, normalise_tm};
pub use same::{
    same_packets_in_memory_tc, same_packets_in_memory_tm, same_packets_tc, same_packets_tm,
};
pub use sl_io::{Counted, LinkFault};
