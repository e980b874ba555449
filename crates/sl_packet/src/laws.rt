//! The laws on this crate's definitions. Each function is empty; its clauses are the laws.
ghost use Rattle.sl_packet.specs.Front.{WholeIsAPacket, APacketIsWhole, ForeignIsNoPacket};
ghost use Rattle.sl_packet.specs.Front.{IncompleteMayBecomeWhole};
ghost use Rattle.sl_packet.specs.IdlePacket.{IdlePacketsAreIdle};
ghost use Rattle.sl_packet.specs.Packet.{PacketsArePrefixFree, OnePacketIsPrefix};
ghost use Rattle.sl_packet.specs.Packet.{HeaderFieldsStandFirst};
ghost use Rattle.sl_packet.specs.Packets.{EachHasPackets, HasPacketsOnce, OthersArePrefixes};
ghost use Rattle.sl_packet.specs.Partial.{ForeignIsForeign, WholeIsWhole, HeaderHasSixOctets};
ghost use Rattle.sl_packet.specs.Partial.{OctetsMakeAPacket};

/// No packet is a proper prefix of another, so at most one packet is a prefix of given octets.
pub fn packets_are_prefix_free()
    ensures proper { PacketsArePrefixFree }
    ensures one { OnePacketIsPrefix }
{}

/// The version is read from the first octet alone, and the APID from the first two. Where there are
/// six octets or more, these two values are those of the primary header's fields.
pub fn header_fields_stand_first()
    ensures { HeaderFieldsStandFirst }
{}

/// The front of octets is whole, foreign or incomplete. Octets begin with a packet exactly where
/// their front is whole. A whole front states the packet's length. Octets with a foreign front,
/// where the first octet has another version than 0, begin with no packet, whatever follows. Octets
/// with an incomplete front become a packet with some further octets.
pub fn fronts_tell_packets()
    ensures whole { WholeIsAPacket }
    ensures only_whole { APacketIsWhole }
    ensures foreign { ForeignIsNoPacket }
    ensures incomplete { IncompleteMayBecomeWhole }
{}

/// What octets need ([`Need`](crate::Need)) agrees with their front: the need is foreign or whole
/// exactly where the front is. The number in `Need::Header` is how many octets complete the header.
/// That in `Need::Octets` is how many complete the packet, whatever their values are.
pub fn needs_tell_packets()
    ensures foreign { ForeignIsForeign }
    ensures whole { WholeIsWhole }
    ensures header { HeaderHasSixOctets }
    ensures octets { OctetsMakeAPacket }
{}

/// Octets can be divided in exactly one way into packets that lie end to end and a rest that begins
/// with no whole packet.
pub fn octets_have_packets()
    ensures each { EachHasPackets }
    ensures once { HasPacketsOnce }
{}

/// Every list of packets that lie end to end at the front of octets is a prefix of the list of
/// [`octets_have_packets`]. So no list is longer.
pub fn front_packets_are_longest()
    ensures { OthersArePrefixes }
{}

/// For each length from 7 to 65,542 octets, the idle packet of this length is a packet, is idle and
/// has this length.
pub fn idle_packets_are_idle()
    ensures { IdlePacketsAreIdle }
{}
