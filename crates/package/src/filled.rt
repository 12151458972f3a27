//! A section of elements as the tables keep them: in an array whose free places hold the elements' filler.
ghost use Rattle.std.specs.Prelude.{length};
ghost use Rattle.package.specs.Taking.{taken};

use crate::Earlier;
use crate::element::Element;
use counted::{Filled, Filler};
use sections::{Refusal, Section};
use text::Frame;

// Room is judged first, then the length, then the numbers; and then the element is stored.
impl<'a, E: Element + Filler, const N: usize> Section<Earlier<'a>> for Filled<E, N> {
    ghost SECTION = { E.KIND };

    ghost take = { λ earlier elements line frame. taken N (E.is_declared earlier (length elements) frame) (E.of frame) elements frame };

    fn section(_earlier: &Earlier<'a>) -> u8 {
        E::KIND
    }

    #[inline(always)]
    fn take(&mut self, earlier: &Earlier<'a>, _line: usize, frame: &Frame) -> Result<(), Refusal> {
        if self.is_full() {
            return Err(Refusal::TooMany);
        }
        if !frame.fits() {
            return Err(Refusal::BadLength);
        }
        if !E::is_declared(frame, earlier, self.len()) {
            return Err(Refusal::BadNumber);
        }
        self.push(E::of(frame));
        Ok(())
    }
}
