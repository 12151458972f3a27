//! The rules of pairs, 10 to 25: each asks one pair of domains, classes or methods, as `meaning` does.
#![tactic(auto)]

mod classes;
mod domains;
mod methods;
mod overriding;
mod slots;
mod together;

pub use classes::{DistrustedSubtype, LostSuspicion};
pub use domains::MutualDominance;
pub use methods::{method, types_differ};
pub use overriding::{DistrustingOverride, OverriddenParameter, OverriddenResult};
pub use slots::{SlotDeclaredTwice, SlotTypesDiffer};
pub use together::AnyOfOneSlot;
