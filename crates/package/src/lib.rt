//! A package text: read line by line into tables, or refused at the first line that breaks a rule.
//! Kinds never fall from line to line, so the text is read section by section. A line that is not of a section ends it, and is left to those behind it.
#![tactic(auto)]

mod class;
mod counted_bytes;
mod earlier;
mod effect;
mod element;
mod field;
mod filled;
mod method;
mod pair;
mod reading;

pub use earlier::Earlier;
pub use element::Element;
pub use reading::read;
