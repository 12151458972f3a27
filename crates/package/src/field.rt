//! `04 cc tt ss`.
ghost use Rattle.std.specs.Prelude.{◌≡◌};
ghost use Rattle.package.specs.Judging.{field_declared};
ghost use Rattle.package.specs.Elements.{mode_in, field_in};

use crate::{Earlier, Element};
use tables::{Field, Mode};
use text::Frame;

// The mode of a byte 00 or 01. A byte over 01 is refused by `is_declared`.
pub(crate) fn mode_of(byte: u8) -> Mode
    ensures { result ≡ mode_in byte }
{
    Mode::try_from(byte).unwrap_or(Mode::Static)
}

impl Element for Field {
    const KIND: u8 = 4;

    ghost KIND = { 4 };

    ghost of = { field_in };

    ghost is_declared = { λ earlier. field_declared earlier.classes };

    fn of(frame: &Frame) -> Self {
        let [_, class, typ, mode, ..] = frame.bytes;
        Field {
            class,
            typ,
            mode: mode_of(mode),
        }
    }

    fn is_declared(frame: &Frame, earlier: &Earlier, _before: usize) -> bool {
        let [_, class, typ, mode, ..] = frame.bytes;
        earlier.is_class(class) && earlier.is_class(typ) && mode <= 1
    }
}
