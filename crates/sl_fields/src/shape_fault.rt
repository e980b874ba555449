//! Why frame lengths are refused.
use thiserror::Error;

/// Why the frame length that is managed for a physical channel is refused. Returned by
/// `TmShape::new` of `sl_tmframe` and `TcShape::new` of `sl_tcframe`, which check the bounds.
#[derive(Clone, Copy, Debug, PartialEq, Eq, Error)]
pub enum ShapeFault {
    /// The length of TM transfer frames is outside 32 to 2048 octets. Both bounds are this
    /// project's choice.
    #[error("tm length")]
    TmLength,
    /// The greatest length of TC transfer frames is outside 16 to 1024 octets. The bound of 1024 is
    /// that of CCSDS 232.0-B, and the bound of 16 is this project's choice.
    #[error("tc length")]
    TcLength,
}
