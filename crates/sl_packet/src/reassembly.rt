//! Packets and service data units that come in parts, and the memory that they take. A service data
//! unit is what TC frames carry as a whole: one packet or several.
ghost use Rattle.std.specs.Prelude.{◌≡◌, ◌+◌, ◌≤◌, ◌<◌, ◌++◌, [], length, OnOk, OnErr};
ghost use Rattle.std.specs.Vec.{vec_capacity, vec_len};
ghost use Rattle.sl_packet.specs.Packet.{longest_packet};

use std::alloc::AllocError;

/// The length of the longest packet in octets: 6 of its header and 65,536 of its data. Service data
/// units that are put together have the same bound, by this project's choice. Public clauses have
/// the number itself, and private ones `longest_packet`.
pub const LONGEST_PACKET: usize = 65542;

/// Adds a part of a packet or of a service data unit to the octets so far. The caller sees to it
/// that the octets so far and the part are 65,542 octets together at most, the length of the
/// longest packet.
///
/// Memory is refused only where the capacity has no room for the part, and then nothing is added.
/// The capacity doubles, or grows to what is needed, up to 65,542. (No clause says so.)
#[inline(always)]
pub fn add_part(octets: &mut Vec<u8>, part: &[u8]) -> Result<(), AllocError>
    requires { vec_len octets.old + length part.now ≤ 65542 }
    // The part is added. Where memory is refused, nothing is added.
    ensures added { OnOk result (octets.new.items ≡ octets.old.items ++ part.now) }
    ensures unchanged { OnErr result (octets.new.items ≡ octets.old.items) }

    // Memory is refused only where there is no room. The capacity never becomes smaller.
    ensures full { OnErr result (vec_capacity octets.old < vec_len octets.old + length part.now) }
    ensures capacity { vec_capacity octets.old ≤ vec_capacity octets.new }
{
    if octets.capacity() - octets.len() < part.len() {
        grow(octets, part.len())?;
    }
    octets.extend_from_slice(part)
}

// Makes room for `more` octets where there is none. The octets stay, and the capacity becomes
// 65,542 octets at most.
fn grow(octets: &mut Vec<u8>, more: usize) -> Result<(), AllocError>
    requires full { vec_capacity octets.old < vec_len octets.old + more }
    requires fits { vec_len octets.old + more ≤ longest_packet }
    ensures same { octets.new.items ≡ octets.old.items }
    ensures room { OnOk result (vec_len octets.old + more ≤ vec_capacity octets.new) }
    ensures bounded { vec_capacity octets.new ≤ longest_packet }
    ensures capacity { vec_capacity octets.old ≤ vec_capacity octets.new }
{
    let wanted = octets.len() + more;
    let doubled = (2 * octets.capacity()).min(LONGEST_PACKET);
    octets.reserve_exact(doubled.max(wanted) - octets.len())
}

/// Clears octets that are given up, and gives all their memory back: the capacity is 0.
pub fn give_back(octets: &mut Vec<u8>)
    ensures none { octets.new.items ≡ [] }
    ensures capacity { vec_capacity octets.new ≡ 0 }
{
    octets.clear();
    octets.shrink_to_fit();
}
