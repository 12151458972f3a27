//! The elements of a package's tables: one for each frame of a kind.
ghost use Rattle.std.specs.Prelude.{◌≡◌, ℕ, Bool, length};
ghost use Rattle.text.specs.declared.frame.Frame.{Frame};
ghost use Rattle.package.specs.declared.earlier.Earlier.{Earlier};
ghost use Rattle.package.specs.Taking.{taken};

use crate::Earlier;
use counted::Counted;
use sections::{Refusal, Section};
use text::Frame;

/// An element that a frame stands for, where each number in the frame is declared.
pub trait Element: Copy {
    /// The kind of the frames that stand for such elements, and the section of that kind.
    const KIND: u8;

    ghost KIND: { ℕ };

    ghost of: { Frame → Self };

    ghost is_declared: { Earlier → ℕ → Frame → Bool };

    /// The element of a frame whose length and numbers are judged elsewhere.
    fn of(frame: &Frame) -> Self
        ensures { result ≡ of frame.now };

    /// Whether each number in the frame is declared, with so many elements of this kind before it.
    fn is_declared(frame: &Frame, earlier: &Earlier, before: usize) -> bool
        ensures { result ≡ is_declared earlier.now before frame.now };
}

// Room is judged first, then the length, then the numbers; and then the element is stored.
impl<'a, E: Element, const N: usize> Section<Earlier<'a>> for Counted<E, N> {
    ghost SECTION = { E.KIND };

    ghost take = { λ earlier elements line frame. taken N (E.is_declared earlier (length elements) frame) (E.of frame) elements frame };

    fn section(_earlier: &Earlier<'a>) -> u8 {
        E::KIND
    }

    #[inline(always)]
    fn take(&mut self, earlier: &Earlier<'a>, _line: usize, frame: &Frame) -> Result<(), Refusal> {
        if self.is_full() {
            return Err(Refusal::TooMany);
        }
        if !frame.fits() {
            return Err(Refusal::BadLength);
        }
        if !E::is_declared(frame, earlier, self.len()) {
            return Err(Refusal::BadNumber);
        }
        self.push(E::of(frame));
        Ok(())
    }
}

#[cfg(test)]
mod tests {
    use super::*;
    use sections::read_section;
    use tables::Pair;
    use text::Lines;

    // The lines of a section go into an array of any `Copy` items, up to one of another section; an undeclared domain and a line too many are refused.
    #[test]
    fn pairs_in_an_array_without_a_filler(rt: HostRuntime) {
        let earlier = Earlier {
            domains: 2,
            classes: 0,
            fields: &[],
            methods: &[],
        };
        let mut pairs: Counted<Pair, 1> = Counted::new(Pair { low: 9, high: 9 });
        let mut lines = Lines::new(b"020001\n07\n");
        assert!(rt; read_section(&mut lines, &mut pairs, &earlier).is_ok());
        assert_eq!(rt; lines.number(), 1);
        assert_eq!(rt; pairs.as_slice(), [Pair { low: 0, high: 1 }].as_slice());
        for (text, refusal) in [
            (b"020100\n", Refusal::TooMany),
            (b"020002\n", Refusal::BadNumber),
        ] {
            let mut pairs: Counted<Pair, 1> = Counted::new(Pair { low: 9, high: 9 });
            if refusal == Refusal::TooMany {
                pairs.push(Pair { low: 0, high: 1 });
            }
            let mut lines = Lines::new(text);
            let Err(refused) = read_section(&mut lines, &mut pairs, &earlier) else {
                panic!(rt; "taken");
            };
            assert!(rt; refused.refusal == refusal);
            assert_eq!(rt; refused.line, 1);
        }
    }
}
