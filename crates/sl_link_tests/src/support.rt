//! What the tests share: recordings, streams, and runs of the engines and of the program. A run
//! stands in a function without a contract, so that the proof of a test doesn't carry all that the
//! run ensures.
pub mod engines;
pub mod recordings;
pub mod rows;
pub mod run;
pub mod streams;
