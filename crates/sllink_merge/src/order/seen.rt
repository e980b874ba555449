//! What of the frames of a recording their order needs.
ghost use Rattle.std.specs.Prelude.{◌≡◌, length};

use crate::order::recording::Recording;
use sl_tmframe::{TmFrame, TmShape};
use std::alloc::{AllocError, Global};

/// What a frame is to the order.
#[derive(Clone, Copy, PartialEq)]
pub enum Role {
    /// It is skipped, and left out.
    Skipped,
    /// It is its predecessor on its channel once more, and left out.
    Repeat,
    /// It stands in the merge.
    Stands,
    /// It stands, and the other recording has it too: its octets are equal, and its payload comes
    /// once in either recording.
    Anchor,
    /// It is left out, as the order of its stretch isn't known.
    LeftOut,
}

/// A frame of a recording.
#[derive(Clone, Copy)]
pub struct Seen {
    /// Twice the number of anchors before it, and one more for an anchor.
    pub bracket: u32,
    /// How far it is behind the anchor before it, of all channels.
    pub position: u32,
    pub role: Role,
    pub vc: u8,
    /// The virtual channel frame count.
    pub count: u8,
    /// The master channel frame count.
    pub mc_count: u8,
}

impl Seen {
    /// Whether it isn't left out.
    pub fn stands(&self) -> bool {
        matches!(self.role, Role::Stands | Role::Anchor)
    }
}

/// The frames of a recording, of which skipped frames and repeats are left out.
pub fn seen_frames(
    alloc: Global,
    shape: &TmShape,
    spacecraft: u16,
    recording: &Recording<'_>,
) -> Result<Vec<Seen>, AllocError> {
    let len = usize::from(shape.len());
    let mut rest = recording.octets();
    let frames = rest.len() / len;
    let mut seen = Vec::with_capacity(alloc, frames)?;
    let mut last = [None; 8];
    let mut place = 0u32;
    for _ in 0..frames {
        let Some((frame, later)) = rest.split_at_checked(len) else {
            break;
        };
        rest = later;
        seen.push(seen_as(shape, spacecraft, recording, frame, &mut last, place))?;
        place = place.saturating_add(1);
    }
    Ok(seen)
}

// What is seen of a frame. `last` are the places of the last frames of the channels.
fn seen_as(
    shape: &TmShape,
    spacecraft: u16,
    recording: &Recording<'_>,
    frame: &[u8],
    last: &mut [Option<u32>; 8],
    place: u32,
) -> Seen
    requires { length frame.now ≡ shape.now.len }
{
    let Ok(read) = TmFrame::read(shape, spacecraft, frame) else {
        return Seen {
            bracket: 0,
            position: 0,
            role: Role::Skipped,
            vc: 0,
            count: 0,
            mc_count: 0,
        };
    };
    let vc = read.vc();
    let before = last[usize::from(vc)];
    last[usize::from(vc)] = Some(place);
    let role = match before {
        Some(before) if recording.frame(before) == frame => Role::Repeat,
        _ => Role::Stands,
    };
    Seen {
        bracket: 0,
        position: 0,
        role,
        vc,
        count: read.vc_count(),
        mc_count: read.mc_count(),
    }
}
