//! The normal form of delivered packets, made in one call.
ghost use Rattle.std.specs.Prelude.{◌≡◌, ◌≤◌, take, IfOk, OnErr};
ghost use Rattle.sl_packet.specs.Delivered.{FitsTm, HasNone};
ghost use Rattle.sl_tmflow.specs.NormalForm.{normal_form};
ghost use Rattle.sl_tmflow.specs.Recording.{tm_lists};

use crate::form::TmForm;
use sl_packet::Delivered;
use sl_tmframe::TmShape;
use std::alloc::{AllocError, Global};

/// The normal form of the packets that were delivered on channels 0 to 7, which are the virtual
/// channels: frames of CCSDS 132.0-B of this format, end to end, and none where there are no
/// packets. The form is this project's own (docs/normal-form.md).
///
/// Read as a recording of this format, for this spacecraft, the form delivers exactly these packets
/// again.
///
/// `spacecraft`, the spacecraft identifier of all frames, is 0 to 1023. The channels of `delivered`
/// from 8 on have no packets, which [`Delivered::fits_tm`] tests. The call is refused only memory,
/// and only where there are packets.
pub fn reframe_tm(
    alloc: Global,
    shape: &TmShape,
    spacecraft: u16,
    delivered: &Delivered,
) -> Result<Vec<u8>, AllocError>
    // Packets on channels from 8 on would be left out of the form, as `TmForm::new` leaves them
    // out. This keeps a caller from losing them.
    requires fits { FitsTm delivered.now }
    requires spacecraft { spacecraft ≤ 1023 }
    // The form is the normal form of these packets, and delivers them again.
    ensures form { IfOk result (λ form. form.items
        ≡ normal_form shape.now spacecraft (take 8 delivered.now.lists)) }
    ensures delivers { IfOk result (λ form.
        tm_lists shape.now spacecraft form.items ≡ take 8 delivered.now.lists) }

    // Memory is refused only where there are packets.
    ensures packets { OnErr result (HasNone delivered.now 0 8 → ⊥) }
{
    let mut form = Vec::new(alloc);
    let mut pieces = TmForm::new(alloc, shape, spacecraft, delivered);
    while pieces.next(&mut form)? {}
    Ok(form)
}
