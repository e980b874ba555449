//! The packet at the front of octets.
ghost use Rattle.std.specs.Prelude.{◌≡◌, option_map};
ghost use Rattle.sl_packet.specs.Front.{first_packet_of, is_foreign};
ghost use Rattle.sl_packet.specs.Partial.{need_of};

use crate::partial::Need;
use sl_fields::PacketHeader;

/// The space packet (CCSDS 133.0-B) that is a prefix of the octets. Its version is 0, and its
/// length is the one that its header states, 7 to 65,542 octets. `None` exactly where no packet is
/// a prefix.
pub fn first_packet<'a>(octets: &'a [u8]) -> Option<&'a [u8]>
    ensures { option_map (λ packet. packet.now) result ≡ first_packet_of octets.now }
{
    let header = PacketHeader::read(octets.first_chunk::<6>()?);
    if header.version() != 0 {
        return None;
    }
    // The packet has the six octets of its header, and one octet more than the length field states.
    octets.get(..7 + usize::from(header.length()))
}

/// What the octets lack for a whole space packet (CCSDS 133.0-B) at their front. The first case
/// that holds decides:
///
/// - `Foreign`: the first octet has another version than 0.
/// - `Header(n)`: there are fewer than six octets. The primary header lacks `n` octets.
/// - `Octets(n)`: there are fewer octets than the header states. The packet lacks `n` octets.
/// - `Whole(n)`: the octets begin with a packet of `n` octets.
pub fn need(octets: &[u8]) -> Need
    ensures { result ≡ need_of octets.now }
{
    if is_foreign(octets) {
        return Need::Foreign;
    }
    let Some(header) = octets.first_chunk::<6>() else {
        return Need::Header(6 - octets.len() as u32);
    };
    let stated = 7 + usize::from(PacketHeader::read(header).length());
    if octets.len() < stated {
        Need::Octets((stated - octets.len()) as u32)
    } else {
        Need::Whole(stated as u32)
    }
}

// Whether there is a first octet, and it has another version than 0. The version is the first three
// bits of the octet. The clause cites the definition of the same name in specs/Front.antt.
fn is_foreign(octets: &[u8]) -> bool
    ensures { result ≡ is_foreign octets.now }
{
    match octets.first() {
        Some(first) => first / 32 != 0,
        None => false,
    }
}
