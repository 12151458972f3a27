//! What the readers of both texts share: why a text is refused and where, sections of frames, and a text's last line.
#![tactic(auto)]

mod reading;
mod refusal;
mod section;

pub use reading::{next_frame, read_end};
pub use refusal::{Refusal, Refused};
pub use section::{Section, read_section};
