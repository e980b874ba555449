//! Lines of a listing, the buffer that they wait in, and single reads and writes of streams.
pub mod digits;
pub mod hexadecimal;
pub mod lines;
pub mod output;
pub mod words;
