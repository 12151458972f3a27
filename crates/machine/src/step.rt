//! The steps of a run, and the effect that each one needs.

ghost use Rattle.std.specs.Prelude.{◌≡◌};
ghost use Rattle.machine.specs.Fits.{Fits};
ghost use Rattle.machine.specs.Step.{need_of, no_step};

use crate::arguments::Arguments;
use counted::Filler;
use tables::Operation;

/// A step. `runs` is the method that runs where `method` is called; a return gives back an object, or nothing.
#[derive(Clone, Copy, Debug, PartialEq, Eq)]
pub enum Step {
    Widen {
        object: u8,
        class: u8,
    },
    New {
        object: u8,
        class: u8,
    },
    CheckCast {
        object: u8,
        class: u8,
    },
    GetStatic {
        field: u8,
        value: u8,
    },
    PutStatic {
        field: u8,
        value: u8,
    },
    GetField {
        field: u8,
        owner: u8,
        value: u8,
    },
    PutField {
        field: u8,
        owner: u8,
        value: u8,
    },
    InvokeStatic {
        method: u8,
        arguments: Arguments,
    },
    InvokeMethod {
        method: u8,
        runs: u8,
        receiver: u8,
        arguments: Arguments,
    },
    Return {
        value: Option<u8>,
    },
}

/// The effect that a step asks of the running method: an operation on a class, a field or a method.
#[derive(Clone, Copy, Debug, PartialEq, Eq)]
pub struct Need {
    pub operation: Operation,
    pub number: u8,
}

impl Step {
    /// The effect that the step needs; widening and returning need none.
    pub fn need(self) -> Option<Need>
        ensures need { result ≡ need_of self }
        ensures fits { Fits self }
    {
        let (operation, number) = match self {
            Step::Widen { .. } | Step::Return { .. } => return None,
            Step::New { class, .. } => (Operation::New, class),
            Step::CheckCast { class, .. } => (Operation::CheckCast, class),
            Step::GetStatic { field, .. } => (Operation::GetStatic, field),
            Step::PutStatic { field, .. } => (Operation::PutStatic, field),
            Step::GetField { field, .. } => (Operation::GetField, field),
            Step::PutField { field, .. } => (Operation::PutField, field),
            Step::InvokeStatic { method, .. } => (Operation::InvokeStatic, method),
            Step::InvokeMethod { method, .. } => (Operation::InvokeMethod, method),
        };
        Some(Need { operation, number })
    }
}

/// A step, with the line of the run text on which it stands.
#[derive(Clone, Copy, Debug, PartialEq, Eq)]
pub struct Placed {
    pub line: u16,
    pub step: Step,
}

impl Filler for Placed {
    ghost filler = { no_step };

    #[inline(always)]
    fn filler() -> Self {
        Placed {
            line: 0,
            step: Step::Return { value: None },
        }
    }
}
