//! The run machine: a state of flat arrays, and one step of it at a time over the tables of a package.
#![tactic(auto)]

mod arguments;
mod calls;
mod label;
mod link;
mod loaded;
mod moves;
mod refusal;
mod run;
mod state;
mod step;

pub use arguments::{ARGUMENTS, Arguments};
pub use label::Label;
pub use link::{Link, NO_OWNER};
pub use loaded::Loaded;
pub use refusal::Refusal;
pub use run::{Report, Stopped};
pub use state::{FRAME_LABELS, LINKS, SAVED_FRAMES, State, has_room};
pub use step::{Need, Placed, Step};
