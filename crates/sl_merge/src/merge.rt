//! Whether fates tell a merge, and the merged recording.
ghost use Rattle.std.specs.Prelude.{◌≡◌, ◌||◌, ◌<◌, ℕ, not, is_some, IfOk, IsTrue};
ghost use Rattle.std.specs.List.{list_all};
ghost use Rattle.sl_merge.specs.Fates.{merged_octets, stands};
ghost use Rattle.sl_merge.specs.Merge.{DeliversRecorded, LosesNoPacket, is_merge};
ghost use Rattle.sl_merge.specs.Merge.{is_merge_on};

use crate::channel::keeps_side;
use crate::fate::Fate;
use crate::item::{Item, Seen, next_frame, on_channel, take_frames};
use crate::twice::is_none_twice;
use sl_tmframe::TmShape;
use std::alloc::{AllocError, Global};
use std::hash::BuildHasher;

/// The merged recording that fates tell: the frames that stand in it, end to end. The fates take
/// frames up to the first one that finds none. It fails only where memory is refused.
pub fn merged_recording(
    alloc: Global,
    shape: &TmShape,
    one: &[u8],
    other: &[u8],
    fates: &[Fate],
) -> Result<Vec<u8>, AllocError>
    ensures { IfOk result (λ merged.
        merged.items ≡ merged_octets shape.now.len one.now other.now fates.now) }
{
    let mut merged = Vec::new(alloc);
    let mut firsts = one;
    let mut seconds = other;
    for fate in fates {
        match next_frame(shape, *fate, &mut firsts, &mut seconds) {
            Some((frame, _)) => {
                if fate.stands() {
                    merged.extend_from_slice(frame)?;
                }
            }
            None => return Ok(merged),
        }
    }
    Ok(merged)
}

/// Reports whether fates tell a merge of two recordings of TM transfer frames (CCSDS 132.0-B) of
/// this format, read for this spacecraft, 0 to 1023. What a merge is, is this project's own choice:
///
/// - The fates take all frames of both recordings and no others. What follows the last whole frame
///   of a recording belongs to no merge. Frames of both have the same octets.
/// - Each frame that stands is one that is read.
/// - On each virtual channel no run of a recording is broken: where the count of a frame that
///   stands follows that of the recording's frame that stands before it, no frame of the other
///   recording alone stands between the two. So frames of the other recording during an outage of
///   exactly 256 frames, or a multiple, can't stand in their place: the counts don't tell the outage
///   from none.
/// - A frame that is left out is skipped, or it is the frame before it of its recording and channel
///   once more, octet for octet. Else it lies between two frames of both, and of this stretch no
///   more frames of the recording are left out, repeats aside, than frames of the other one alone
///   stand there; so the same frame of both may be left out of each. Or, where frames have no error
///   control field, so that a count may be damaged, at most eight are left out of it, and the count
///   of the second frame of both follows that of the first.
/// - No octets stand on a channel both as a frame of the first recording alone and as one of the
///   second alone, but where their payload comes twice among the frames of a recording that stand,
///   as that of idle frames.
///
/// So one recording behind the other is no merge where both have a frame, octet for octet, whose
/// payload comes once in each; where all payloads come twice, as those of idle frames, it may be
/// one. To leave out all of a recording is no merge, but where all its frames are skipped.
///
/// The test fails only where memory is refused, which no clause says.
pub fn is_merge_tm<S: BuildHasher + Copy>(
    alloc: Global,
    hasher: S,
    shape: &TmShape,
    spacecraft: u16,
    one: &[u8],
    other: &[u8],
    fates: &[Fate],
) -> Result<bool, AllocError>
    // The answer is what the definition says.
    ensures exactly { IfOk result (λ is.
        is ≡ is_merge shape.now spacecraft one.now other.now fates.now) }
    // A merge delivers all packets that each recording delivers without what is left out.
    ensures packets { IfOk result (λ is. IsTrue is → (vc : ℕ) → vc < 8
        → LosesNoPacket shape.now spacecraft vc one.now other.now fates.now) }
    // Where nothing of a recording is left out on a channel but repeats, the merge delivers each
    // packet of the recording there; where nothing is, all of them in order.
    ensures recorded { IfOk result (λ is. IsTrue is → (vc : ℕ) → vc < 8
        → DeliversRecorded shape.now spacecraft vc one.now other.now fates.now) }
{
    let told = take_frames(alloc, shape, spacecraft, one, other, fates)?;
    if !told.fits {
        return Ok(false);
    }
    if !are_read(&told.items) {
        return Ok(false);
    }
    for vc in 0..8 {
        let channel = on_channel(alloc, &told.items, vc)?;
        let is_right = is_merge_on(alloc, hasher, shape, &channel)?;
        if !is_right {
            return Ok(false);
        }
    }
    Ok(true)
}

// Whether each frame that stands is one that is read.
fn are_read(seen: &[Seen]) -> bool
    ensures { result ≡ list_all (λ s. not (stands s.item.fate) || is_some s.vc) seen.now }
{
    for one in seen {
        if one.item.fate().stands() && one.vc.is_none() {
            return false;
        }
    }
    true
}

// Whether the frames of one virtual channel are as a merge asks.
fn is_merge_on<S: BuildHasher + Copy>(
    alloc: Global,
    hasher: S,
    shape: &TmShape,
    items: &[Item],
) -> Result<bool, AllocError>
    ensures { IfOk result (λ is. is ≡ is_merge_on shape.now items.now) }
{
    if !keeps_side(shape, items, false) {
        return Ok(false);
    }
    if !keeps_side(shape, items, true) {
        return Ok(false);
    }
    is_none_twice(alloc, hasher, shape, items)
}
