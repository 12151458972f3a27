//! The bytes of a frame that say a mode and an operation.
ghost use Rattle.tables.specs.Bytes.{DecodesMode, DecodesOperation};

use crate::elements::{Mode, Operation};
use std::error::Error;
use std::fmt;

/// A byte that says no mode, or no operation.
#[derive(Clone, Copy, Debug, PartialEq, Eq)]
pub struct UnknownByte(pub u8);

impl TryFrom<u8> for Mode {
    type Error = UnknownByte;

    ghost try_from_gives = { DecodesMode };

    fn try_from(byte: u8) -> Result<Self, UnknownByte> {
        match byte {
            0 => Ok(Mode::Instance),
            1 => Ok(Mode::Static),
            _ => Err(UnknownByte(byte)),
        }
    }
}

impl TryFrom<u8> for Operation {
    type Error = UnknownByte;

    ghost try_from_gives = { DecodesOperation };

    fn try_from(byte: u8) -> Result<Self, UnknownByte> {
        match byte {
            0 => Ok(Operation::New),
            1 => Ok(Operation::CheckCast),
            2 => Ok(Operation::GetStatic),
            3 => Ok(Operation::PutStatic),
            4 => Ok(Operation::GetField),
            5 => Ok(Operation::PutField),
            6 => Ok(Operation::InvokeStatic),
            7 => Ok(Operation::InvokeMethod),
            _ => Err(UnknownByte(byte)),
        }
    }
}

impl fmt::Display for UnknownByte {
    fn fmt<W: fmt::Write>(&self, f: &mut fmt::Formatter<W>) -> fmt::Result {
        write!(f, "the byte {} says nothing here", self.0)
    }
}

impl Error for UnknownByte {}
