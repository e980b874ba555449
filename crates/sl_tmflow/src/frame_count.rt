//! Whether a frame follows the last frame of its virtual channel, by their virtual channel frame
//! counts. Each clause cites the definition of its function's name.
ghost use Rattle.std.specs.Prelude.{◌≡◌};
ghost use Rattle.sl_tmflow.specs.Anomaly.{gap_after};
ghost use Rattle.sl_tmflow.specs.Channel.{is_after};

/// The count that was expected after the last one, if `count` is another. `None` if it isn't, and
/// where no frame came before.
#[inline(always)]
pub fn gap_after(last: Option<u8>, count: u8) -> Option<u8>
    ensures { result ≡ gap_after last count }
{
    if is_after(last, count) {
        None
    } else {
        Some(last?.wrapping_add(1))
    }
}

/// Whether a frame with this count follows the last frame. No frame follows where there was none
/// before.
#[inline(always)]
pub fn is_after(last: Option<u8>, count: u8) -> bool
    ensures { result ≡ is_after last count }
{
    match last {
        Some(last) => count == last.wrapping_add(1),
        None => false,
    }
}
