//! `03 dd k s..`: the supertypes have lower numbers than the class.
ghost use Rattle.package.specs.Judging.{class_declared};
ghost use Rattle.package.specs.Elements.{class_in};

use crate::counted_bytes::{are_counted, up_to};
use crate::{Earlier, Element};
use tables::Class;
use text::Frame;

impl Element for Class {
    const KIND: u8 = 3;

    ghost KIND = { 3 };

    ghost of = { class_in };

    ghost is_declared = { λ earlier. class_declared earlier.domains };

    fn of(frame: &Frame) -> Self {
        let [_, domain, count, first, second, third, fourth, ..] = frame.bytes;
        Class {
            domain,
            supertype_count: up_to(4, count),
            supertypes: [first, second, third, fourth],
        }
    }

    fn is_declared(frame: &Frame, earlier: &Earlier, before: usize) -> bool {
        earlier.is_domain(frame.bytes[1]) && are_counted(frame, 2, 4, before)
    }
}
