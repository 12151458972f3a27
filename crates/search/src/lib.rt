//! The first pair of numbers, in rising order, that breaks a rule: among all pairs, or among those of one key.
#![tactic(auto)]

mod chained;
mod chains;
mod pairs;
mod rule;

pub use chained::first_broken_in;
pub use chains::Chains;
pub use pairs::first_broken;
pub use rule::PairRule;
