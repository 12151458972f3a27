// The rules of two classes.
ghost use Rattle.std.specs.Prelude.{◌≡◌, length};
ghost use Rattle.meaning.specs.Tests.{breaks21, breaks22};
ghost use Rattle.tables.specs.View.{view};
ghost use Rattle.trust.specs.Relations.{suspect_rows};

use relation::{Relation, Wide};
use search::PairRule;
use trust::Trust;

/// 21: A <: B, not B ▷ A.
#[derive(Clone, Copy)]
pub struct DistrustedSubtype<'t, 'a> {
    pub trust: &'t Trust<'a>,
}

impl PairRule for DistrustedSubtype<'_, '_> {
    ghost count = { λ rule. length rule.trust.now.classes };

    ghost breaks = { λ rule. breaks21 (view rule.trust.now) };

    fn count(&self) -> usize {
        self.trust.tables().classes().len()
    }

    #[tactic(auto, unfolding(meaning::specs::Tests::breaks21), using(crate::proofs::Laws::few_classes))]
    fn is_broken(&self, first: usize, second: usize) -> bool {
        // for the proof: the tables are good
        let _ = self.trust.tables();
        let (a, b) = (first as u8, second as u8);
        self.trust.is_subtype(a, b) && !self.trust.trusts(b, a)
    }
}

/// 22: A', B' not suspicious, and some class suspicious with a supertype of A' is a supertype of B'.
#[derive(Clone, Copy)]
pub struct LostSuspicion<'t, 'a> {
    pub trust: &'t Trust<'a>,
    pub suspects: &'t Wide,
    pub ghost of_the_tables: { suspects.now ≡ suspect_rows (view trust.now) },
}

impl PairRule for LostSuspicion<'_, '_> {
    ghost count = { λ rule. length (view rule.trust.now).classes };

    ghost breaks = { λ rule. breaks22 (view rule.trust.now) };

    fn count(&self) -> usize {
        self.trust.tables().classes().len()
    }

    #[tactic(auto, using(crate::proofs::Laws::law22, crate::proofs::Laws::few_classes))]
    fn is_broken(&self, first: usize, second: usize) -> bool {
        // for the proof: the tables are good
        let _ = self.trust.tables();
        !self.trust.suspicion().has(first, second)
            && self.suspects.meets(first, self.trust.supertypes(), second)
    }
}
