//! Sinks that refuse packets, or keep little of them.
ghost use Rattle.std.specs.Prelude.{◌≡◌, ⊤};

use sl_packet::{PacketSink, SinkFault};

/// Keeps only how many packets it was handed.
#[derive(Drop)]
pub struct Counts {
    pub packets: u32,
}

impl PacketSink for Counts {
    ghost taking = { λ old channel packet new. ⊤ };

    ghost failing = { λ old channel packet fault new. ⊥ };

    ghost failures = { λ sink. 0 };

    fn packet(&mut self, _channel: u16, _p: &[u8]) -> Result<(), SinkFault> {
        self.packets = self.packets.saturating_add(1);
        Ok(())
    }
}

/// Keeps this number of packets, `left`, end to end, and refuses the others.
#[derive(Drop)]
pub struct Keeps {
    octets: [u8; 64],
    len: usize,
    left: u32,
    pub refused: u64,
}

impl Keeps {
    pub fn new(left: u32) -> Keeps {
        Keeps {
            octets: [0; 64],
            len: 0,
            left,
            refused: 0,
        }
    }

    pub fn kept(&self) -> Option<&[u8]> {
        self.octets.get(..self.len)
    }
}

impl PacketSink for Keeps {
    ghost use Rattle.sl_packet.specs.declared.sink.SinkFault.TheVariants.{Refused};

    ghost taking = { λ old channel packet new. ⊤ };

    ghost failing = { λ old channel packet fault new. fault ≡ Refused };

    ghost failures = { λ sink. sink.refused };

    fn packet(&mut self, _channel: u16, p: &[u8]) -> Result<(), SinkFault> {
        let end = self.len.saturating_add(p.len());
        if let (Some(left), Some(place)) = (
            self.left.checked_sub(1),
            self.octets.get_mut(self.len..end),
        ) {
            place.copy_from_slice(p);
            self.left = left;
            self.len = end;
            return Ok(());
        }
        self.refused = self.refused.saturating_add(1);
        Err(SinkFault::Refused)
    }
}
