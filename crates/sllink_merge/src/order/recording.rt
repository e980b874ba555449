//! The frames of a recording, by their places.
use sl_tmframe::TmShape;

/// The octets of a recording, and how its frames are laid out.
#[derive(Clone, Copy)]
pub struct Recording<'a> {
    octets: &'a [u8],
    len: usize,
    fecf: bool,
}

/// What makes a frame another one than a later frame with the same counts: its virtual channel, and
/// its octets without the first four, the operational control field and the frame error control
/// field.
#[derive(Clone, Copy)]
pub struct Payload<'a> {
    pub vc: u8,
    pub octets: &'a [u8],
}

impl<'a> Recording<'a> {
    pub fn new(shape: &TmShape, octets: &'a [u8]) -> Recording<'a> {
        Recording {
            octets,
            len: usize::from(shape.len()),
            fecf: shape.fecf(),
        }
    }

    /// The octets of the recording from its first frame on.
    pub fn octets(&self) -> &'a [u8] {
        self.octets
    }

    /// Whether the frames have an error control field.
    pub fn fecf(&self) -> bool {
        self.fecf
    }

    /// The frame at a place, and no octets behind the last frame.
    pub fn frame(&self, place: u32) -> &'a [u8] {
        let start = (place as usize).saturating_mul(self.len);
        let end = start.saturating_add(self.len);
        self.octets.get(start..end).unwrap_or(&[])
    }

    /// The payload of the frame at a place.
    pub fn payload(&self, place: u32) -> Payload<'a> {
        let frame = self.frame(place);
        let identifiers = frame.get(1).copied().unwrap_or(0);
        let control = if identifiers % 2 == 1 { 4 } else { 0 };
        let errors = if self.fecf { 2 } else { 0 };
        let end = frame.len().saturating_sub(control + errors);
        Payload {
            vc: identifiers / 2 % 8,
            octets: frame.get(4..end).unwrap_or(&[]),
        }
    }

    /// The master channel frame count of the frame at a place, if there is one.
    pub fn mc_count(&self, place: u32) -> Option<u8> {
        self.frame(place).get(2).copied()
    }

    /// Whether the data field status of the frame at a place is right, if packets are in it: its
    /// flags are those of packets, and its pointer names an octet of the data field, or none.
    pub fn has_status(&self, place: u32) -> bool {
        match self.payload(place).octets {
            [status, pointer, field @ ..] if *status / 64 % 2 == 0 => {
                let first = u16::from_be_bytes([*status % 8, *pointer]);
                *status / 8 % 8 == 3 && (usize::from(first) < field.len() || first >= 2046)
            }
            _ => true,
        }
    }

    /// Whether the frame at a place has only idle data.
    pub fn is_idle(&self, place: u32) -> bool {
        match self.frame(place) {
            [_, _, _, _, status, pointer, ..] => {
                *status < 64 && *status % 8 == 7 && *pointer == 254
            }
            _ => false,
        }
    }
}

/// Whether two frames differ in at most a tenth of their bits.
pub fn are_near(one: &[u8], other: &[u8]) -> bool {
    let mut wrong = 0usize;
    for (octet, counterpart) in one.iter().zip(other) {
        wrong = wrong.saturating_add((octet ^ counterpart).count_ones() as usize);
    }
    wrong.saturating_mul(10) <= one.len().saturating_mul(8)
}
