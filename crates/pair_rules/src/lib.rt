//! The first broken rule of 10 to 25, at its first place. What each rule asks of a pair is in `pair_tests`.
#![tactic(auto)]

mod clearing;
mod judge;
mod slots;

pub use judge::{domain_rules, table_rules};
