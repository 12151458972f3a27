//! The rules over effects, 26 to 30: the lowest that is broken, at its first place. What they mean is `meaning`'s Tests.antt.
#![tactic(auto)]

ghost use Rattle.std.specs.Prelude.{◌≡◌};
ghost use Rattle.meaning.specs.Check.{first_found, effect_findings};
ghost use Rattle.rules.specs.Numbers.{answered};
ghost use Rattle.tables.specs.View.{view};

mod pass;
mod rule;
mod site;

use rules::Broken;
use trust::Trust;

/// Ok where no rule over effects is broken; else the lowest that is, at its first place.
pub fn effect_rules(trust: &Trust) -> Result<(), Broken>
    ensures { answered result ≡ first_found (effect_findings (view trust.now)) }
{
    let Some(lowest) = pass::lowest_broken(trust) else {
        return Ok(());
    };
    match pass::first_place(trust, lowest.rule, lowest.effect) {
        // a rule that is broken at some effect has a first place
        None => Ok(()),
        Some((first, second)) => Err(Broken {
            rule: lowest.rule.into(),
            first: first as u16,
            second: second as u16,
        }),
    }
}
