//! The verdict on a package's tables: the first rule that is broken, at its first place.
#![tactic(auto)]

ghost use Rattle.std.specs.Prelude.{◌≡◌};
ghost use Rattle.meaning.specs.Check.{verdict};
ghost use Rattle.rules.specs.Numbers.{answered};
ghost use Rattle.tables.specs.View.{view};

use rules::Broken;
use tables::Tables;
use trust::Trust;

/// Ok where no rule is broken; else the first that is, at its first place.
pub fn verdict(tables: &Tables) -> Result<(), Broken>
    ensures { answered result ≡ verdict (view tables.now) }
{
    let dominance = trust::dominance(tables);
    // no classes, no methods and no effects: the rule of domains alone can be broken, and no other rows are made
    if tables.classes().is_empty() {
        return pair_rules::domain_rules(tables, &dominance);
    }
    let trust = Trust::new(tables, dominance);
    pair_rules::table_rules(&trust)?;
    effect_rules::effect_rules(&trust)
}
