//! The normal form of TC packets, written piece by piece.
use crate::normalise::form::Form;
use sl_io::LinkFault;
use sl_tcflow::TcForm;

impl<'d> Form for TcForm<'d> {
    ghost use Rattle.std.specs.Prelude.{⊤};

    // In clauses a `TcForm` is itself the octets that are still to come.
    ghost left = { λ form. form };

    ghost ready = { λ form. ⊤ };

    fn next(&mut self, text: &mut Vec<u8>) -> Result<bool, LinkFault> {
        match TcForm::next(self, text) {
            Ok(more) => Ok(more),
            Err(_) => Err(LinkFault::Memory),
        }
    }

    // This form wants no memory for itself.
    fn reserve(&mut self, text: &mut Vec<u8>) -> Result<(), LinkFault> {
        Ok(())
    }
}
