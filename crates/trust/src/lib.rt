//! Trust between the classes of a package, as rows of bits: who dominates whom, which class is a subtype of which, which classes are suspicious.
#![tactic(auto)]

mod classes;
mod domains;
mod known;
mod suspicion;

pub use classes::{is_subtype, supertypes};
pub use domains::dominance;
pub use known::Trust;
