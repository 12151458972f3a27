//! Lines of hexadecimal digits, each one frame, and the kinds of frames.
#![tactic(auto)]

mod digits;
mod frame;
mod kinds;
mod lines;

pub use frame::Frame;
pub use kinds::Kind;
pub use lines::{BadLine, Lines};
