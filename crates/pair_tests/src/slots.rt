// The rules of two methods of one slot.
ghost use Rattle.std.specs.Prelude.{◌≡◌, length};
ghost use Rattle.meaning.specs.Tests.{breaks11, breaks12};
ghost use Rattle.tables.specs.View.{view};

use crate::methods::{are_of_one_slot, method, types_differ};
use search::PairRule;
use tables::Tables;

/// 11: instance methods of one slot differ in parameters or return type.
#[derive(Clone, Copy)]
pub struct SlotTypesDiffer<'a> {
    pub tables: &'a Tables,
}

impl PairRule for SlotTypesDiffer<'_> {
    ghost count = { λ rule. length rule.tables.now.methods };

    ghost breaks = { λ rule. breaks11 (view rule.tables.now) };

    fn count(&self) -> usize {
        self.tables.methods().len()
    }

    #[tactic(auto, unfolding(meaning::specs::Tests::breaks11))]
    fn is_broken(&self, first: usize, second: usize) -> bool {
        first < second
            && are_of_one_slot(self.tables, first, second)
            && types_differ(self.tables, first, second)
    }
}

/// 12: two instance methods of one class and slot.
#[derive(Clone, Copy)]
pub struct SlotDeclaredTwice<'a> {
    pub tables: &'a Tables,
}

impl PairRule for SlotDeclaredTwice<'_> {
    ghost count = { λ rule. length rule.tables.now.methods };

    ghost breaks = { λ rule. breaks12 (view rule.tables.now) };

    fn count(&self) -> usize {
        self.tables.methods().len()
    }

    #[tactic(auto, unfolding(meaning::specs::Tests::breaks12))]
    fn is_broken(&self, first: usize, second: usize) -> bool {
        first < second
            && are_of_one_slot(self.tables, first, second)
            && method(self.tables, first).class == method(self.tables, second).class
    }
}
