// The rules of a method that overrides another. In all, the first method is of B' and the second, which it overrides, of B.
ghost use Rattle.std.specs.Prelude.{◌≡◌, length};
ghost use Rattle.meaning.specs.Lists.{any};
ghost use Rattle.meaning.specs.Tests.{keeps_from, breaks23, breaks24, breaks25};
ghost use Rattle.tables.specs.View.{view};

use crate::methods::{method, overrides};
use search::PairRule;
use trust::Trust;

/// 23: n' overrides n, not n' ▷ n.
#[derive(Clone, Copy)]
pub struct DistrustingOverride<'t, 'a> {
    pub trust: &'t Trust<'a>,
}

impl PairRule for DistrustingOverride<'_, '_> {
    ghost count = { λ rule. length rule.trust.now.methods };

    ghost breaks = { λ rule. breaks23 (view rule.trust.now) };

    fn count(&self) -> usize {
        self.trust.tables().methods().len()
    }

    #[tactic(auto, unfolding(meaning::specs::Tests::breaks23, meaning::specs::Tests::method_trusts))]
    fn is_broken(&self, first: usize, second: usize) -> bool {
        let tables = self.trust.tables();
        let overriding = method(tables, first);
        let overridden = method(tables, second);
        overrides(self.trust, first, second)
            && !self.trust.dominates(overriding.label, overridden.label)
    }
}

/// 24: return type C, neither C ▷ B nor B ⋈ B'.
#[derive(Clone, Copy)]
pub struct OverriddenResult<'t, 'a> {
    pub trust: &'t Trust<'a>,
}

impl PairRule for OverriddenResult<'_, '_> {
    ghost count = { λ rule. length rule.trust.now.methods };

    ghost breaks = { λ rule. breaks24 (view rule.trust.now) };

    fn count(&self) -> usize {
        self.trust.tables().methods().len()
    }

    #[tactic(auto, unfolding(meaning::specs::Tests::breaks24, meaning::specs::Tests::of_result))]
    fn is_broken(&self, first: usize, second: usize) -> bool {
        let tables = self.trust.tables();
        let own = method(tables, first).class;
        let overridden = method(tables, second);
        let class = overridden.class;
        overrides(self.trust, first, second)
            && match overridden.result {
                None => false,
                Some(result) => self.trust.keeps_from(class, class, own, result),
            }
    }
}

/// 25: some parameter type C, neither C ▷ B' nor B ⋈ B'.
#[derive(Clone, Copy)]
pub struct OverriddenParameter<'t, 'a> {
    pub trust: &'t Trust<'a>,
}

impl PairRule for OverriddenParameter<'_, '_> {
    ghost count = { λ rule. length rule.trust.now.methods };

    ghost breaks = { λ rule. breaks25 (view rule.trust.now) };

    fn count(&self) -> usize {
        self.trust.tables().methods().len()
    }

    #[tactic(auto, unfolding(meaning::specs::Tests::breaks25))]
    fn is_broken(&self, first: usize, second: usize) -> bool {
        let tables = self.trust.tables();
        let own = method(tables, first).class;
        let overridden = method(tables, second);
        let class = overridden.class;
        overrides(self.trust, first, second)
            && some_is_kept(self.trust, own, class, overridden.parameters())
    }
}

// Neither C ▷ B' nor B ⋈ B' for some parameter type C.
#[tactic(auto, using(crate::proofs::Laws::any_is))]
fn some_is_kept(trust: &Trust, own: u8, class: u8, parameters: &[u8]) -> bool
    ensures { result ≡ any (keeps_from (view trust.now) own class own) parameters.now }
{
    parameters
        .iter()
        .any(|parameter| trust.keeps_from(own, class, own, *parameter))
}
