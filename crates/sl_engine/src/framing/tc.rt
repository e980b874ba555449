//! TC frames, cut out of chunks.
ghost use Rattle.sl_fields.specs.Field.{IsOctets};

use crate::framing::framer::Framer;
use crate::link::managed::Managed;
use sl_tcframe::TcFramer;

impl Framer for TcFramer {
    ghost use Rattle.sl_engine.specs.Framing.Tc.{TcWaits, is_tc_frame, tc_frames, tc_front_is_first, tc_nothing_has_none};

    ghost is_frame = { is_tc_frame };

    ghost frames_of = { tc_frames };

    ghost waits = { TcWaits };

    fn begin(managed: &Managed) -> TcFramer {
        TcFramer::new(&managed.tc)
    }

    #[inline(always)]
    fn next_frame<'a, 'p: 'a>(&'a mut self, chunk: &mut &'p [u8]) -> Option<&'a [u8]> {
        are_octets(chunk);
        self.next_from(chunk)
    }

    ghost front = { tc_front_is_first };

    ghost empty = { tc_nothing_has_none };
}

// Recalls that the items of a slice of `u8` are octets, 0 to 255, for the clauses of `next_from`.
#[inline(always)]
fn are_octets(octets: &[u8])
    ensures { IsOctets octets.now }
{
    let _ = octets;
}
