//! The libraries' calls for programs in C and for what calls C: whole recordings in memory, FARM-1
//! on one virtual channel, the headers, and the frame error control field.
//!
//! Each call is an export of a static library and does what one call of the libraries does.
//! `include/sllink.h` has the calls as C sees them, and what C has to uphold, which nothing checks.
//! There `alloc` is no parameter, and a slice is two: a pointer, and a length.
#![tactic(auto)]

mod answer;
mod error_control;
mod farm;
mod headers;
mod link;
mod recording;
mod same;
