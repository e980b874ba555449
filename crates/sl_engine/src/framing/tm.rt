//! TM frames, cut out of chunks.
use crate::framing::framer::Framer;
use crate::link::managed::Managed;
use sl_tmframe::TmFramer;

impl Framer for TmFramer {
    ghost use Rattle.sl_engine.specs.Framing.Tm.{TmWaits, tm_front_is_first, is_tm_frame, tm_nothing_has_none, tm_frames};

    ghost is_frame = { is_tm_frame };

    ghost frames_of = { tm_frames };

    ghost waits = { TmWaits };

    fn begin(managed: &Managed) -> TmFramer {
        TmFramer::new(&managed.tm)
    }

    #[inline(always)]
    fn next_frame<'a, 'p: 'a>(&'a mut self, chunk: &mut &'p [u8]) -> Option<&'a [u8]> {
        self.next_from(chunk)
    }

    ghost front = { tm_front_is_first };

    ghost empty = { tm_nothing_has_none };
}
