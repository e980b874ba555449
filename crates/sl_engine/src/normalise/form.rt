//! A normal form that is written piece by piece.
ghost use Rattle.std.specs.Prelude.{◌≡◌, ◌≢◌, ◌≤◌, [], IfErr, OnErr, OnOk, false, true, vec_len};
ghost use Rattle.std.specs.Vec.{vec_capacity};
ghost use Rattle.sl_engine.specs.Io.Streams.{AddsText, StopsWriting, WritesText};
ghost use Rattle.sl_engine.specs.Framing.{chunk_size};
ghost use Rattle.sl_engine.specs.Normalise.Form.{form_size};

mod tc;
mod tm;

use crate::framing::CHUNK_SIZE;
use sl_io::{Counted, LinkFault, write_text};
use std::alloc::Global;
use std::io::Write;

/// Octets enough for those that wait when a piece is added, `CHUNK_SIZE` at most, and for a piece
/// of either kind, for which 0x30000 are enough (`piece_size`).
const FORM_SIZE: usize = 0x40000;

/// A normal form that is made piece by piece, so that it need not be held whole.
pub trait Form {
    ghost use Rattle.std.specs.Prelude.{◌≡◌, ◌≢◌, ◌+◌, ◌≤◌, ◌<◌, ℕ, List, [], IfErr, IfOk, OnOk, OnErr, IsTrue, IsFalse, vec_len};
    ghost use Rattle.std.specs.Vec.{vec_capacity};
    // One definition for both kinds; that of `sl_tcflow`, `AddsPieceTc`, implies it.
    ghost use Rattle.sl_tmflow.specs.Form.{AddsPiece};
    ghost use Rattle.sl_engine.specs.Normalise.Form.{piece_size};
    ghost use Rattle.sl_io.specs.declared.fault.LinkFault.{LinkFault};

    /// The octets that are still to come.
    ghost left: { Self → List ℕ };

    /// The form has taken the memory that it wants for itself.
    ghost ready: { Self → Type 0 };

    /// Adds the next piece to a text, and answers whether there was one. Memory is refused only
    /// where a piece is left, and never to a form that is ready and whose text has room for a
    /// piece.
    fn next(&mut self, text: &mut Vec<u8>) -> Result<bool, LinkFault>
        ensures piece { IfOk result (λ some. IsTrue some
            → AddsPiece (left self.old) text.old.items (left self.new) text.new.items) }
        ensures end { IfOk result (λ some. IsFalse some
            → (left self.old ≡ []) × (text.new.items ≡ text.old.items)) }
        ensures pieces { OnErr result (left self.old ≢ []) }
        ensures fault { IfErr result (λ fault. fault ≡ LinkFault.Memory) }
        ensures full { OnErr result (ready self.old
            → vec_capacity text.old < vec_len text.old + piece_size) }
        ensures keeps { ready self.old → ready self.new }
        ensures capacity { vec_capacity text.old ≤ vec_capacity text.new };

    /// Takes the memory that the form wants for itself. The text has room for a piece, and keeps
    /// its octets. Only TM needs this argument: `TmForm::reserve` reserves room in the text too,
    /// which is there already.
    fn reserve(&mut self, text: &mut Vec<u8>) -> Result<(), LinkFault>
        requires room { vec_len text.old + piece_size ≤ vec_capacity text.old }
        ensures ready { OnOk result (ready self.new) }
        ensures left { OnOk result (left self.new ≡ left self.old) }
        ensures text { OnOk result (text.new.items ≡ text.old.items) }
        ensures capacity { vec_capacity text.old ≤ vec_capacity text.new }
        ensures fault { IfErr result (λ fault. fault ≡ LinkFault.Memory) };
}

/// Writes a normal form. The memory that it wants is taken before anything is written.
// Apart from `run_engine`, as the listings are.
#[inline(never)]
pub fn write_form<F: Form, W: Write>(
    alloc: Global,
    form: &mut F,
    writer: &mut Counted<W>,
) -> Result<(), LinkFault>
    ensures written { OnOk result
        (WritesText W.contents writer.old writer.new (F.left form.old)) }
    // Nothing is written where memory was refused, and it is refused only where there are pieces.
    ensures fault { IfErr result (StopsWriting W.contents writer.old writer.new (F.left form.old)
        ((writer.new ≡ writer.old) × (F.left form.old ≢ []))) }
    ensures some { OnErr result (F.left form.old ≢ []) }
{
    let mut text = Vec::new(alloc);
    let mut is_ready = false;
    // `next` is called here alone, so that it becomes a part of this loop, and no piece costs a
    // call.
    while form.next(&mut text)? {
        take_room(form, &mut text, is_ready)?;
        is_ready = true;
        write_chunk(writer, &mut text)?;
    }
    write_text(writer, text.as_slice())
}

// Takes the memory that is wanted beyond that of the first piece, unless it was taken before.
fn take_room<F: Form>(form: &mut F, text: &mut Vec<u8>, is_ready: bool) -> Result<(), LinkFault>
    requires { is_ready ≡ true → F.ready form.old × (form_size ≤ vec_capacity text.old) }
    ensures ready { OnOk result (F.ready form.new) }
    ensures room { OnOk result (form_size ≤ vec_capacity text.new) }
    ensures left { OnOk result (F.left form.new ≡ F.left form.old) }
    ensures text { OnOk result (text.new.items ≡ text.old.items) }
    ensures fault { IfErr result (λ fault. fault ≡ LinkFault.Memory) }
    ensures first { OnErr result (is_ready ≡ false) }
{
    if is_ready {
        return Ok(());
    }
    // This is room beyond the first piece, which may be longer than a chunk. Once that is written,
    // a chunk at most waits when a piece is added.
    if text.reserve(FORM_SIZE).is_err() {
        return Err(LinkFault::Memory);
    }
    form.reserve(text)
}

// Writes octets that wait, where they are more than a chunk.
fn write_chunk<W: Write>(writer: &mut Counted<W>, waiting: &mut Vec<u8>) -> Result<(), LinkFault>
    ensures kept { OnOk result
        (AddsText W.contents writer.old writer.new waiting.old.items waiting.new.items []) }
    ensures few { OnOk result (vec_len waiting.new ≤ chunk_size) }
    ensures capacity { OnOk result (vec_capacity waiting.new ≡ vec_capacity waiting.old) }
    ensures fault { IfErr result
        (StopsWriting W.contents writer.old writer.new waiting.old.items ⊥) }
    ensures some { OnErr result (waiting.old.items ≢ []) }
{
    if waiting.len() <= CHUNK_SIZE {
        return Ok(());
    }
    write_text(writer, waiting.as_slice())?;
    waiting.clear();
    Ok(())
}
