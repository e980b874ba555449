//! The events of FARM-1.

/// An event of FARM-1 (CCSDS 232.1-B): a valid frame of the virtual channel arrives. Frames that
/// aren't valid are skipped before FARM-1.
#[derive(Clone, Copy, Debug, PartialEq, Eq)]
pub enum FarmEvent {
    /// A frame of type AD, with its frame sequence number N(S), 0 to 255.
    Ad(u8),
    /// A frame of type BD.
    Bd,
    /// A frame of type BC with the control command Unlock.
    Unlock,
    /// A frame of type BC with the control command Set V(R), and the value to set, 0 to 255.
    SetVr(u8),
}
