//! A package's tables: an element for each frame of its text, and the tables that hold them. What they mean is specs/View.antt.
#![tactic(auto)]

mod bytes;
mod elements;
mod fillers;
mod held;

pub use bytes::UnknownByte;
pub use elements::{Class, Effect, Field, Method, Mode, Operation, Pair};
pub use held::Tables;
