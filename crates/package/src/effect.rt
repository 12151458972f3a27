//! `06 mm op xx`.
ghost use Rattle.std.specs.Prelude.{◌≡◌};
ghost use Rattle.package.specs.Judging.{named_in, effect_declared};
ghost use Rattle.package.specs.Elements.{operation_in, effect_in};

use crate::{Earlier, Element};
use tables::{Effect, Mode, Operation};
use text::Frame;

// The operation of a byte 00 to 07. A byte over 07 is refused by `is_declared`.
#[tactic(auto, unfolding(crate::specs::Elements::operation_in))]
fn operation_of(byte: u8) -> Operation
    ensures { result ≡ operation_in byte }
{
    Operation::try_from(byte).unwrap_or(Operation::InvokeMethod)
}

// Whether what the operation of this byte names is declared: a class, a static field, an instance field, a static or an instance method.
#[tactic(auto, unfolding(crate::specs::Judging::named_in))]
fn is_named(earlier: &Earlier, operation: u8, number: u8) -> bool
    ensures { result ≡ named_in earlier.now.classes earlier.now.fields.now earlier.now.methods.now operation number }
{
    match Operation::try_from(operation) {
        Ok(Operation::New | Operation::CheckCast) => earlier.is_class(number),
        Ok(Operation::GetStatic | Operation::PutStatic) => earlier.is_field(number, Mode::Static),
        Ok(Operation::GetField | Operation::PutField) => earlier.is_field(number, Mode::Instance),
        Ok(Operation::InvokeStatic) => earlier.is_method(number, Mode::Static),
        Ok(Operation::InvokeMethod) => earlier.is_method(number, Mode::Instance),
        Err(_) => false,
    }
}

impl Element for Effect {
    const KIND: u8 = 6;

    ghost KIND = { 6 };

    ghost of = { effect_in };

    ghost is_declared = { λ earlier. effect_declared earlier.classes earlier.fields.now earlier.methods.now };

    fn of(frame: &Frame) -> Self {
        let [_, method, operation, number, ..] = frame.bytes;
        Effect {
            method,
            operation: operation_of(operation),
            number,
        }
    }

    fn is_declared(frame: &Frame, earlier: &Earlier, _before: usize) -> bool {
        let [_, method, operation, number, ..] = frame.bytes;
        usize::from(method) < earlier.methods.len() && is_named(earlier, operation, number)
    }
}
