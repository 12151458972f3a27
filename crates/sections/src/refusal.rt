//! Why a text is refused, and where.
ghost use Rattle.std.specs.Prelude.{◌≡◌, ◌+◌};
ghost use Rattle.sections.specs.Refusals.{number_of, run_number_of};

use std::error::Error;
use std::fmt;

#[derive(Clone, Copy, Debug, PartialEq, Eq)]
pub enum Refusal {
    TooLong,
    BadLine,
    BadHeader,
    BadGeneration,
    BadKind,
    BadLength,
    BadNumber,
    TooMany,
    NoEnd,
    IllTyped,
}

impl Refusal {
    /// The number with which a package text is refused. Nothing in one is ill typed: only a run text is refused for that.
    pub fn number(self) -> u8
        ensures { result ≡ number_of self }
    {
        match self {
            Refusal::TooLong => 1,
            Refusal::BadLine => 2,
            Refusal::BadHeader => 3,
            Refusal::BadGeneration => 4,
            Refusal::BadKind => 5,
            Refusal::BadLength => 6,
            Refusal::BadNumber => 7,
            Refusal::TooMany => 8,
            Refusal::NoEnd => 9,
            Refusal::IllTyped => 10,
        }
    }

    /// The number with which a run text is refused.
    pub fn run_number(self) -> u8
        ensures { result ≡ run_number_of self }
    {
        50 + self.number()
    }
}

impl fmt::Display for Refusal {
    fn fmt<W: fmt::Write>(&self, f: &mut fmt::Formatter<W>) -> fmt::Result {
        f.write_str(match self {
            Refusal::TooLong => "the text is too long",
            Refusal::BadLine => "the line is not pairs of digits with an LF behind them",
            Refusal::BadHeader => "the first line is not what such a text begins with",
            Refusal::BadGeneration => "the generation is not 2",
            Refusal::BadKind => "no frame of this kind may stand here",
            Refusal::BadLength => "the frame has not the length of its kind",
            Refusal::BadNumber => "the frame has a number that is not declared",
            Refusal::TooMany => "there are too many frames of this kind",
            Refusal::NoEnd => "the last line is missing",
            Refusal::IllTyped => "an object is not of the type that is asked of it",
        })
    }
}

impl Error for Refusal {}

/// A refusal and its line. Lines count from 1, and 0 is the text itself.
#[derive(Clone, Copy, Debug, PartialEq, Eq)]
pub struct Refused {
    pub refusal: Refusal,
    pub line: usize,
}

impl fmt::Display for Refused {
    fn fmt<W: fmt::Write>(&self, f: &mut fmt::Formatter<W>) -> fmt::Result {
        write!(f, "line {}: {}", self.line, self.refusal)
    }
}

impl Error for Refused {}
