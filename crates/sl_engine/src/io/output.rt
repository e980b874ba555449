//! Lines that wait, and the writer that they go to.
ghost use Rattle.std.specs.Prelude.{◌≡◌, [], IfErr, OnErr, OnOk};
ghost use Rattle.sl_engine.specs.Io.Output.{Adds, KeepsWriter};
ghost use Rattle.sl_engine.specs.Io.Lines.{HasRoom};
ghost use Rattle.sl_engine.specs.Io.Streams.{StopsWriting};

use crate::io::lines::Lines;
use sl_io::{Counted, LinkFault, write_text};
use std::io::Write;

/// What a step answers that writes.
pub type Written = Result<(), LinkFault>;

/// Lines that are written where room is wanted. Each step keeps the writer that was lent, also
/// where it fails.
#[derive(Drop)]
pub struct Output<'a, W: Write> {
    pub writer: &'a mut Counted<W>,
    pub lines: Lines,
}

impl<'a, W: Write> Output<'a, W> {
    /// Makes room for the lines of a frame: writes the lines so far where fewer than `FRAME_ROOM`
    /// octets are free.
    #[inline(always)]
    pub fn make_room(&mut self) -> Written
        ensures kept { OnOk result (Adds W.contents self.old [] self.new) }
        ensures room { OnOk result (HasRoom self.new.lines) }
        ensures lent { OnErr result (KeepsWriter self.old self.new) }
        // The fault is never `Memory`: that is the ⊥, here and in other clauses.
        ensures fault { IfErr result
            (StopsWriting W.contents self.old.writer.now self.new.writer.now self.old.lines ⊥) }
    {
        if !self.lines.lacks_room_for_a_frame() {
            return Ok(());
        }
        self.flush()
    }

    /// Writes the lines so far, and empties the buffer. The stream itself isn't flushed.
    pub fn flush(&mut self) -> Written
        ensures kept { OnOk result (Adds W.contents self.old [] self.new) }
        ensures emptied { OnOk result (self.new.lines ≡ []) }
        ensures lent { OnErr result (KeepsWriter self.old self.new) }
        ensures fault { IfErr result
            (StopsWriting W.contents self.old.writer.now self.new.writer.now self.old.lines ⊥) }
    {
        write_text(self.writer, self.lines.octets())?;
        self.lines.clear();
        Ok(())
    }
}
