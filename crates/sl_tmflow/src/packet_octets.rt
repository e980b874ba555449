//! Octets of packets, with the offset of the first packet start in them.

/// Octets of the data fields of frames of packets, and the offset in them at which the first packet
/// starts, or `None` where no packet starts in them. For one data field the offset is the frame's
/// first header pointer.
#[derive(Clone, Copy)]
pub struct PacketOctets<'a> {
    pub first: Option<u16>,
    pub octets: &'a [u8],
}
