//! Which operations a package's effects permit: the effects as chains, made once for a run.
#![tactic(auto)]

mod chains;
mod declared;

pub use chains::Permits;
pub use declared::{field_at, method_at};
