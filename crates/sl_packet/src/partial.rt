//! What octets that are a part of a packet lack. The function that answers it, `need`, stands in
//! `packet.rt`: a module can't have two names that differ in case alone.

/// What octets lack for a whole space packet (CCSDS 133.0-B) at their front.
#[derive(Clone, Copy, Debug, PartialEq, Eq)]
pub enum Need {
    /// The first octet has another version than 0.
    Foreign,
    /// The primary header lacks this number of octets, 1 to 6.
    Header(u32),
    /// The primary header is complete, and the packet lacks this number of octets, 1 to 65,536.
    Octets(u32),
    /// Nothing: the octets begin with a packet of this number of octets, 7 to 65,542.
    Whole(u32),
}
