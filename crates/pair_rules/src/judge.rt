// The rules in their order, each asked only where the quick tests leave it in doubt.
ghost use Rattle.std.specs.Prelude.{◌≡◌, ◌≤◌, ◌<◌, [], ◌∷◌};
ghost use Rattle.meaning.specs.Check.{first_found, table_findings, of_domains, of_classes, of_methods};
ghost use Rattle.meaning.specs.Lists.{first_place};
ghost use Rattle.meaning.specs.Tests.{breaks10, breaks11, breaks12, breaks21, breaks22, breaks23, breaks24, breaks25};
ghost use Rattle.tables.specs.View.{view};
ghost use Rattle.trust.specs.Relations.{dominance_rows};
ghost use Rattle.rules.specs.Numbers.{number_of, answered};
ghost use Rattle.pair_rules.specs.Judged.{Says, AreSmall, broken_at, finding};
ghost use Rattle.pair_rules.specs.Slots.{AreInDoubt};
ghost use Rattle.search.specs.Keys.{IsKeyed};

use crate::clearing::holds_at_steps;
use crate::slots::{in_doubt, slots};
use pair_tests::{
    DistrustedSubtype, DistrustingOverride, LostSuspicion, MutualDominance, OverriddenParameter,
    OverriddenResult, SlotDeclaredTwice, SlotTypesDiffer,
};
use relation::{Narrow, Relation};
use rules::{Broken, Rule};
use search::{Chains, PairRule, first_broken, first_broken_in};
use tables::Tables;
use trust::Trust;

// What a search found, as a rule that is broken.
fn broken(rule: Rule, found: Option<(usize, usize)>) -> Result<(), Broken>
    requires { AreSmall found }
    ensures { result ≡ broken_at rule found }
{
    match found {
        None => Ok(()),
        Some((first, second)) => Err(Broken {
            rule,
            first: first as u16,
            second: second as u16,
        }),
    }
}

// The first of all pairs that breaks a rule.
fn judge<R: PairRule>(name: Rule, rule: &R) -> Result<(), Broken>
    requires { R.count rule.now ≤ 256 }
    ensures { Says result (finding (number_of name) (R.count rule.now) (R.breaks rule.now) ∷ []) }
{
    broken(name, first_broken(rule))
}

// The same of a rule that only methods of one slot break.
fn judge_in<R: PairRule>(slots: &Chains, name: Rule, rule: &R) -> Result<(), Broken>
    requires few { R.count rule.now ≤ 256 }
    requires same_count { slots.now.count ≡ R.count rule.now }
    requires keyed { IsKeyed slots.now.keys slots.now.count (R.breaks rule.now) }
    ensures { Says result (finding (number_of name) (R.count rule.now) (R.breaks rule.now) ∷ []) }
{
    broken(name, first_broken_in(slots, rule))
}

/// Rule 10, which a package without classes can break too.
pub fn domain_rules(tables: &Tables, dominance: &Narrow) -> Result<(), Broken>
    requires { dominance.now ≡ dominance_rows (view tables.now) }
    ensures { answered result ≡ first_found (of_domains (view tables.now) 10 breaks10 ∷ []) }
{
    mutual_dominance(tables, dominance)
}

fn mutual_dominance(tables: &Tables, dominance: &Narrow) -> Result<(), Broken>
    requires { dominance.now ≡ dominance_rows (view tables.now) }
    ensures { Says result (of_domains (view tables.now) 10 breaks10 ∷ []) }
{
    // for the proof: the tables are good
    let _ = tables.domains();
    let rule = MutualDominance { tables, dominance };
    judge(Rule::MutualDominance, &rule)
}

// Rules 11 and 12, unless no rule of methods is broken.
fn slot_rules(tables: &Tables, in_doubt: Option<&Chains>) -> Result<(), Broken>
    requires { AreInDoubt tables.now in_doubt }
    ensures { Says result (of_methods (view tables.now) 11 breaks11 ∷ of_methods (view tables.now) 12 breaks12 ∷ []) }
{
    let Some(slots) = in_doubt else {
        return Ok(());
    };
    judge_in(slots, Rule::SlotTypesDiffer, &SlotTypesDiffer { tables })?;
    judge_in(
        slots,
        Rule::SlotDeclaredTwice,
        &SlotDeclaredTwice { tables },
    )
}

fn distrusted_subtype(trust: &Trust) -> Result<(), Broken>
    ensures { Says result (of_classes (view trust.now) 21 breaks21 ∷ []) }
{
    if holds_at_steps(
        trust.tables(),
        |supertype, class| trust.trusts(supertype, class),
    ) {
        return Ok(());
    }
    judge(Rule::DistrustedSubtype, &DistrustedSubtype { trust })
}

// The suspicion of all supertypes is made only where a step fails.
fn lost_suspicion(trust: &Trust) -> Result<(), Broken>
    ensures { Says result (of_classes (view trust.now) 22 breaks22 ∷ []) }
{
    let suspicion = trust.suspicion();
    if holds_at_steps(trust.tables(), |supertype, class| {
        suspicion.is_within(usize::from(supertype), usize::from(class))
    }) {
        return Ok(());
    }
    let suspects = trust.suspects();
    let rule = LostSuspicion {
        trust,
        suspects: &suspects,
    };
    judge(Rule::LostSuspicion, &rule)
}

// Rules 23 to 25, unless no rule of methods is broken.
fn overriding_rules(trust: &Trust, in_doubt: Option<&Chains>) -> Result<(), Broken>
    requires { AreInDoubt trust.now in_doubt }
    ensures { Says result (of_methods (view trust.now) 23 breaks23 ∷ of_methods (view trust.now) 24 breaks24 ∷ of_methods (view trust.now) 25 breaks25 ∷ []) }
{
    let Some(slots) = in_doubt else {
        return Ok(());
    };
    judge_in(
        slots,
        Rule::DistrustingOverride,
        &DistrustingOverride { trust },
    )?;
    judge_in(slots, Rule::OverriddenResult, &OverriddenResult { trust })?;
    judge_in(
        slots,
        Rule::OverriddenParameter,
        &OverriddenParameter { trust },
    )
}

/// The first broken rule of the tables, at its first place.
pub fn table_rules(trust: &Trust) -> Result<(), Broken>
    ensures { answered result ≡ first_found (table_findings (view trust.now)) }
{
    let tables = trust.tables();
    mutual_dominance(tables, trust.dominance())?;
    let slots = slots(tables);
    let in_doubt = in_doubt(trust, &slots);
    slot_rules(tables, in_doubt)?;
    distrusted_subtype(trust)?;
    lost_suspicion(trust)?;
    overriding_rules(trust, in_doubt)
}
