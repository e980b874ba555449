//! The verdicts of FARM-1.

/// The verdict of FARM-1 (CCSDS 232.1-B) on a frame. The frame data unit that the frame carries is
/// accepted under `Accept` alone.
#[derive(Clone, Copy, Debug, PartialEq, Eq)]
pub enum Verdict {
    /// The frame is accepted, in one of two cases:
    ///
    /// - A frame of type AD arrives in the open state, and N(S) equals V(R). V(R) is incremented
    ///   modulo 256, and the Retransmit flag is reset.
    /// - A frame of type BD arrives in the open or the lockout state. The FARM-B counter is
    ///   incremented modulo 4.
    Accept,
    /// The frame is discarded. A frame of type AD arrives in the open state, and N(S) is after
    /// V(R), in the positive part of the window. The Retransmit flag is set.
    Early,
    /// The frame is discarded. A frame of type AD arrives in the open state, and N(S) is before
    /// V(R), in the negative part of the window. The state stays.
    Late,
    /// The frame is discarded. A frame of type AD arrives in the open state, and N(S) is in the
    /// lockout area. The Lockout flag is set: the lockout state begins. The Retransmit flag stays,
    /// by this project's choice.
    Outside,
    /// The frame is discarded. A frame of type AD arrives in the lockout state, with any N(S). The
    /// state stays.
    Refused,
    /// A frame of type BC with the control command Unlock or Set V(R) arrives in the open or the
    /// lockout state. [`Farm::step`](crate::Farm::step) says what each command does to the state.
    Command,
}
