// The rules of two methods together, but for that of a slot's types: a package that is accepted is searched once, not once for each rule.
ghost use Rattle.std.specs.Prelude.{◌≡◌, ◌<◌, ◌||◌, length};
ghost use Rattle.meaning.specs.Tests.{breaks23, breaks24, breaks25};
ghost use Rattle.tables.specs.View.{view};
ghost use Rattle.pair_tests.specs.Methods.{breaks_some};

use crate::methods::method;
use crate::overriding::{DistrustingOverride, OverriddenParameter, OverriddenResult};
use crate::slots::SlotDeclaredTwice;
use search::PairRule;
use trust::Trust;

/// 12, 23, 24 or 25. Methods of two classes that are no subtypes break none.
#[derive(Clone, Copy)]
pub struct AnyOfOneSlot<'t, 'a> {
    pub trust: &'t Trust<'a>,
}

impl PairRule for AnyOfOneSlot<'_, '_> {
    ghost count = { λ rule. length rule.trust.now.methods };

    ghost breaks = { λ rule. breaks_some (view rule.trust.now) };

    fn count(&self) -> usize {
        self.trust.tables().methods().len()
    }

    fn is_broken(&self, first: usize, second: usize) -> bool {
        let trust = self.trust;
        let tables = trust.tables();
        let own = method(tables, first).class;
        let class = method(tables, second).class;
        if own == class {
            return SlotDeclaredTwice { tables }.is_broken(first, second);
        }
        trust.is_subtype(own, class) && breaks_overriding(trust, first, second)
    }
}

// 23, 24 or 25.
fn breaks_overriding(trust: &Trust, first: usize, second: usize) -> bool
    requires first_declared { first < length trust.now.methods }
    requires second_declared { second < length trust.now.methods }
    ensures { result ≡ (breaks23 (view trust.now) first second || (breaks24 (view trust.now) first second || breaks25 (view trust.now) first second)) }
{
    DistrustingOverride { trust }.is_broken(first, second)
        || OverriddenResult { trust }.is_broken(first, second)
        || OverriddenParameter { trust }.is_broken(first, second)
}
