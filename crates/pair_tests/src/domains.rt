// The rule of two domains.
ghost use Rattle.std.specs.Prelude.{◌≡◌};
ghost use Rattle.meaning.specs.Tests.{breaks10};
ghost use Rattle.tables.specs.View.{view};
ghost use Rattle.trust.specs.Relations.{dominance_rows};

use relation::{Narrow, Relation};
use search::PairRule;
use tables::Tables;

/// 10: distinct domains dominate each other; the two, lower first.
#[derive(Clone, Copy)]
pub struct MutualDominance<'a> {
    pub tables: &'a Tables,
    pub dominance: &'a Narrow,
    pub ghost of_the_tables: { dominance.now ≡ dominance_rows (view tables.now) },
}

impl PairRule for MutualDominance<'_> {
    ghost count = { λ rule. rule.tables.now.domains };

    ghost breaks = { λ rule. breaks10 (view rule.tables.now) };

    fn count(&self) -> usize {
        usize::from(self.tables.domains())
    }

    #[tactic(auto, using(crate::proofs::Laws::law10, crate::proofs::Laws::few_domains))]
    fn is_broken(&self, first: usize, second: usize) -> bool {
        // for the proof: the tables are good
        let _ = self.tables.domains();
        first < second && self.dominance.has(first, second) && self.dominance.has(second, first)
    }
}
