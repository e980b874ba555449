//! The normal form of TM packets, written piece by piece.
use crate::normalise::form::Form;
use sl_io::LinkFault;
use sl_tmflow::TmForm;

impl<'d> Form for TmForm<'d> {
    ghost use Rattle.sl_tmflow.specs.Form.{IsReserved};

    ghost left = { λ form. form.left };

    ghost ready = { λ form. IsReserved form };

    fn next(&mut self, text: &mut Vec<u8>) -> Result<bool, LinkFault> {
        match TmForm::next(self, text) {
            Ok(more) => Ok(more),
            Err(_) => Err(LinkFault::Memory),
        }
    }

    fn reserve(&mut self, text: &mut Vec<u8>) -> Result<(), LinkFault> {
        match TmForm::reserve(self, text) {
            Ok(()) => Ok(()),
            Err(_) => Err(LinkFault::Memory),
        }
    }
}
