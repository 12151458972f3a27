//! What stands in the places of the tables that are free: elements of zeros.
ghost use Rattle.tables.specs.Fillers.{no_pair, no_class, no_field, no_method, no_effect};

use crate::elements::{Class, Effect, Field, Method, Mode, Operation, Pair};
use counted::Filler;

impl Filler for Pair {
    ghost filler = { no_pair };

    #[inline(always)]
    fn filler() -> Self {
        Pair { low: 0, high: 0 }
    }
}

impl Filler for Class {
    ghost filler = { no_class };

    #[inline(always)]
    fn filler() -> Self {
        Class {
            domain: 0,
            supertype_count: 0,
            supertypes: [0; 4],
        }
    }
}

impl Filler for Field {
    ghost filler = { no_field };

    #[inline(always)]
    fn filler() -> Self {
        Field {
            class: 0,
            typ: 0,
            mode: Mode::Instance,
        }
    }
}

impl Filler for Method {
    ghost filler = { no_method };

    #[inline(always)]
    fn filler() -> Self {
        Method {
            class: 0,
            label: 0,
            slot: 0,
            result: None,
            mode: Mode::Instance,
            parameter_count: 0,
            parameters: [0; 6],
        }
    }
}

impl Filler for Effect {
    ghost filler = { no_effect };

    #[inline(always)]
    fn filler() -> Self {
        Effect {
            method: 0,
            operation: Operation::New,
            number: 0,
        }
    }
}
