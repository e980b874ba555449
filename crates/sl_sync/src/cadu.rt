//! Channel access data units, and other units of one length.
ghost use Rattle.std.specs.Prelude.{◌≤◌};

use crate::marker::SyncMarker;

/// The shape of units of one length: a sync marker, `lead` octets, a frame and `trail` octets. With
/// the attached sync marker and no lead these are the channel access data units (CADUs) of
/// CCSDS 131.0-B. Octets that a station writes before the marker are trail of the unit before.
#[derive(Drop)]
pub struct CaduShape {
    /// The sync marker, if there is one.
    pub marker: SyncMarker,
    /// The octets between marker and frame, as a station's header.
    pub lead: u16,
    /// The octets of a frame, 1 or more.
    pub len: u16,
    /// The octets between a frame and the next unit, as the parity of a code.
    pub trail: u16,
    /// Whether the frames, and nothing else, have the sequence of the pseudo-randomiser on them.
    pub randomised: bool,
    ghost some: { 1 ≤ len },
}

impl CaduShape {
    ghost use Rattle.std.specs.Prelude.{◌≡◌};
    ghost use Rattle.sl_sync.specs.Cadu.{before, has_marker, needed, stride};

    /// The octets of a unit before its frame.
    pub(crate) fn before(&self) -> usize
        ensures value { result ≡ before self.now }
        ensures most { result ≤ 65551 }
    {
        self.marker.len() + usize::from(self.lead)
    }

    /// The octets of a unit up to the end of its frame.
    pub(crate) fn needed(&self) -> usize
        ensures value { result ≡ needed self.now }
        ensures most { result ≤ 131086 }
    {
        self.before() + usize::from(self.len)
    }

    /// The octets of a unit.
    pub(crate) fn stride(&self) -> usize
        ensures value { result ≡ stride self.now }
        ensures most { result ≤ 196621 }
    {
        self.needed() + usize::from(self.trail)
    }
}
