//! Why a step is refused.

ghost use Rattle.std.specs.Prelude.{◌≡◌};
ghost use Rattle.machine.specs.Refusal.{number_of};

use std::error::Error;
use std::fmt;

/// Why a step is refused, in the order in which the reasons are looked for.
#[derive(Clone, Copy, Debug, PartialEq, Eq)]
pub enum Refusal {
    NoSavedFrame,
    NotPermitted,
    PremiseMissing,
    NoRoom,
}

/// The number that an answer gives it.
impl From<Refusal> for u8 {
    ghost from_gives = { λ refusal number. number ≡ number_of refusal };

    fn from(refusal: Refusal) -> u8 {
        match refusal {
            Refusal::NoSavedFrame => 64,
            Refusal::NotPermitted => 61,
            Refusal::PremiseMissing => 62,
            Refusal::NoRoom => 63,
        }
    }
}

impl fmt::Display for Refusal {
    fn fmt<W: fmt::Write>(&self, f: &mut fmt::Formatter<W>) -> fmt::Result {
        f.write_str(match self {
            Refusal::NoSavedFrame => "a return without a saved frame",
            Refusal::NotPermitted => "no effect of the running method permits the step",
            Refusal::PremiseMissing => "a premise of the step is missing",
            Refusal::NoRoom => "no room for a link, a label or a saved frame",
        })
    }
}

impl Error for Refusal {}
