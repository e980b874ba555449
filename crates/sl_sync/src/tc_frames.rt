//! The frames in the data of a CLTU.
ghost use Rattle.std.specs.Prelude.{◌≡◌, ◌-◌, ◌≤◌, true, false, length, IfSome, IfNone};
ghost use Rattle.std.specs.List.{concat};
ghost use Rattle.sl_sync.specs.Cltu.{cut_octets, frames_in, has_frame, stated};

use crate::ends::behind;

/// The whole frames at the front of octets, end to end: their number, and that of their octets.
pub fn whole_frames(octets: &[u8]) -> (u64, usize)
    ensures count { result.0 ≡ length (frames_in octets.now) }
    ensures len { result.1 ≡ length (concat (frames_in octets.now)) }
    ensures inside { result.1 ≤ length octets.now }
{
    let mut rest = octets;
    let mut count = 0;
    'each: while let Some(len) = frame_len(rest) {
        rest = behind(rest, len);
        count += 1;
    }
    (count, octets.len() - rest.len())
}

// The octets of the frame at the front, as its header states them, where a whole one is there.
#[tactic(auto, unfolding(crate::specs::Cltu::has_frame))]
fn frame_len(octets: &[u8]) -> Option<usize>
    ensures some { IfSome result
        (λ len. (has_frame octets.now ≡ true) × (len ≡ stated octets.now)) }
    ensures none { IfNone result (has_frame octets.now ≡ false) }
{
    if octets.len() < 5 {
        return None;
    }
    let len = usize::from(octets[2] % 4) * 256 + usize::from(octets[3]) + 1;
    if len < 5 || len > octets.len() || octets[0] > 63 {
        return None;
    }
    Some(len)
}

/// Of octets behind the last whole frame, those of a frame that isn't whole: fewer than seven are
/// fill.
pub fn cut_octets(left: usize) -> usize
    ensures { result ≡ cut_octets left }
{
    if left < 7 { 0 } else { left }
}
