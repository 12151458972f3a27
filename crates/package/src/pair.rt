//! `02 EE DD`.
ghost use Rattle.package.specs.Judging.{pair_declared};
ghost use Rattle.package.specs.Elements.{pair_in};

use crate::{Earlier, Element};
use tables::Pair;
use text::Frame;

impl Element for Pair {
    const KIND: u8 = 2;

    ghost KIND = { 2 };

    ghost of = { pair_in };

    ghost is_declared = { λ earlier. pair_declared earlier.domains };

    fn of(frame: &Frame) -> Self {
        let [_, low, high, ..] = frame.bytes;
        Pair { low, high }
    }

    fn is_declared(frame: &Frame, earlier: &Earlier, _before: usize) -> bool {
        let [_, low, high, ..] = frame.bytes;
        earlier.is_domain(low) && earlier.is_domain(high)
    }
}
