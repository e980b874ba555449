//! Why packets from frames were no longer handed to a sink.

use crate::sink::SinkFault;
use thiserror::Error;

/// Why a call that takes packets out of transfer frames and hands them to a sink stopped. Calls of
/// `sl_tmflow` and `sl_tcflow` return this fault, and so both have one from here; no call of this
/// crate returns it.
#[derive(Clone, Copy, Debug, PartialEq, Eq, Error)]
pub enum FlowFault {
    /// The call itself was refused memory, and the sink refused no packet. Where the sink was
    /// refused memory, the fault is `Sink`.
    #[error("memory")]
    Memory,
    /// The sink refused a packet, for this reason.
    #[error("sink: {0}")]
    Sink(SinkFault),
    /// An earlier call of the same extractor or receiver stopped with `Memory` or `Sink`. This call
    /// changed nothing.
    #[error("failed")]
    Failed,
}
