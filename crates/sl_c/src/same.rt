//! Whether two recordings in memory deliver the same packets.
ghost use Rattle.std.specs.Prelude.{◌≡◌, IfOk, OnErr};
ghost use Rattle.sl_engine.specs.Kind.Tc.{tc_packets};
ghost use Rattle.sl_engine.specs.Kind.Tm.{tm_packets};
ghost use Rattle.sl_engine.specs.Same.{MayRefuseStoreMemoryInTc, MayRefuseStoreMemoryInTm};
ghost use Rattle.sl_c.specs.Answer.{Says};
ghost use Rattle.sl_c.specs.Recording.{SaysWhetherSame};

use crate::answer::Answer;
use crate::link::{ManagedFields, managed_for};
use sl_link::{LinkFault, same_packets_in_memory_tc, same_packets_in_memory_tm};
use std::alloc::Global;

/// Writes to `same` whether two recordings of TM transfer frames deliver the same packets on each
/// virtual channel, idle packets left out. The answer is `Done`. Under any other, a refused
/// parameter, `TooLong` or `Memory`, nothing is written. `Memory` comes only where, in one of the
/// recordings, a packet is incomplete before a frame or after it, or was delivered.
#[unsafe(no_mangle)]
pub extern "C" fn sllink_same_packets_tm(
    alloc: Global,
    managed: &ManagedFields,
    one: &[u8],
    other: &[u8],
    same: &mut bool,
) -> u32
    ensures { SaysWhetherSame tm_packets MayRefuseStoreMemoryInTm managed.now one.now other.now
        same.old same.new result }
{
    let managed = match managed_for(managed, one.len().max(other.len())) {
        Ok(managed) => managed,
        Err(answer) => return answer.number(),
    };
    hand_out(same_packets_in_memory_tm(alloc, &managed, one, other), same)
}

/// Writes to `same` whether FARM-1 lets the same packets of two recordings of TC transfer frames
/// through on each virtual channel and MAP, idle packets left out. The answer is `Done`. Under any
/// other, a refused parameter, `TooLong` or `Memory`, nothing is written. `Memory` comes only
/// where, in one of the recordings, a series is incomplete before a frame or after it, or a packet
/// was delivered.
#[unsafe(no_mangle)]
pub extern "C" fn sllink_same_packets_tc(
    alloc: Global,
    managed: &ManagedFields,
    one: &[u8],
    other: &[u8],
    same: &mut bool,
) -> u32
    ensures { SaysWhetherSame tc_packets MayRefuseStoreMemoryInTc managed.now one.now other.now
        same.old same.new result }
{
    let managed = match managed_for(managed, one.len().max(other.len())) {
        Ok(managed) => managed,
        Err(answer) => return answer.number(),
    };
    hand_out(same_packets_in_memory_tc(alloc, &managed, one, other), same)
}

// Writes what was found, and answers `Done`. After a fault the answer is `Memory`: neither
// recording is over the limit, so there is no other fault.
fn hand_out(found: Result<bool, LinkFault>, same: &mut bool) -> u32
    ensures found { IfOk found (λ is_same. Says result Answer.Done × (same.new ≡ is_same)) }
    ensures refused { OnErr found (Says result Answer.Memory × (same.new ≡ same.old)) }
{
    match found {
        Ok(is_same) => {
            *same = is_same;
            Answer::Done.number()
        }
        Err(_) => Answer::Memory.number(),
    }
}
