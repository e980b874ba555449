//! What the tests share. A public call stands in a function without a contract, here or in a test's
//! own module, so that the proof of a test doesn't carry all that the call ensures.
pub mod cop;
pub mod packets;
pub mod recordings;
pub mod rows;
pub mod sinks;
pub mod tc;
pub mod tm;
