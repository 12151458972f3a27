//! Reading a run text: from bytes to the start and the steps, or to the first refusal of 51 to 60 with its line. Each section of the text is read by
//! itself: the lines of its kinds are taken by what is read so far, and the first other line is left to the sections behind it.
#![tactic(auto)]

mod declared;
mod draft;
mod labels;
mod links;
mod objects;
mod reading;
mod step_lines;
mod steps;

pub use draft::{Draft, Script};
pub use reading::read;
