//! The whole normal form of delivered packets, in one call.
ghost use Rattle.std.specs.Prelude.{◌≡◌, ℕ, ◌≤◌, IfOk, OnErr};
ghost use Rattle.sl_packet.specs.Delivered.{HasNone, channel_count};
ghost use Rattle.sl_tcflow.specs.Fits.{FitsTc};
ghost use Rattle.sl_tcflow.specs.Recording.{tc_lists};
ghost use Rattle.sl_tcflow.specs.TcNormalForm.{tc_normal_form_of};

use crate::form::TcForm;
use sl_cop::Starts;
use sl_packet::Delivered;
use sl_tcframe::{TcShape, VcSet};
use std::alloc::{AllocError, Global};

/// The normal form of delivered packets, where those of virtual channel `v` and MAP `m` are on
/// channel `64 * v + m`. The form is frames of CCSDS 232.0-B of type AD and of this `shape`, end to
/// end, and no octets where there are no packets. The form is this project's own
/// (docs/normal-form.md).
///
/// - `spacecraft` is 0 to 1023.
/// - `starts` has the initial V(R) of each virtual channel, which is the N(S) of the virtual
///   channel's first frame.
/// - `plain` has the virtual channels whose frames have no segment headers. There each frame
///   carries one packet.
/// - `delivered` has packets that frames can carry, as [`fits_tc`](crate::fits_tc) tests.
///
/// Read as a recording, with these `starts` and this `plain`, the form delivers exactly these
/// packets again, for every window of FARM-1. The call is refused only memory, and only where there
/// are packets.
pub fn reframe_tc(
    alloc: Global,
    shape: &TcShape,
    spacecraft: u16,
    starts: &Starts,
    plain: &VcSet,
    delivered: &Delivered,
) -> Result<Vec<u8>, AllocError>
    requires spacecraft { spacecraft ≤ 1023 }
    requires fits { FitsTc shape.now plain.now delivered.now.lists }
    // The form is the normal form, and delivers the packets again.
    ensures form { IfOk result (λ form. form.items
        ≡ tc_normal_form_of shape.now spacecraft starts.now plain.now delivered.now.lists) }
    ensures delivers { IfOk result (λ form. (w : ℕ) → tc_lists shape.now spacecraft
        (record { window = w; starts = starts.now; plain = plain.now }) form.items
        ≡ delivered.now.lists) }

    // Memory is refused only where there are packets.
    ensures packets { OnErr result (HasNone delivered.now 0 channel_count → ⊥) }
{
    let mut form = Vec::new(alloc);
    let mut pieces = TcForm::new(*shape, spacecraft, *starts, *plain, delivered);
    while pieces.next(&mut form)? {}
    Ok(form)
}
