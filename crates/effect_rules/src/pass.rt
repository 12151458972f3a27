//! The search over effects: one pass for the lowest rule that is broken, and then one search for its first place.
ghost use Rattle.std.specs.Prelude.{◌≡◌, ℕ, ◌<◌, ◌≤◌, false, length};
ghost use Rattle.meaning.specs.Good.{Good};
ghost use Rattle.search.specs.Pairs.{pair_of};
ghost use Rattle.tables.specs.View.{view};
ghost use Rattle.effect_rules.specs.Rules.{breaks_of, seconds_of};
ghost use Rattle.effect_rules.specs.Search.{lower, lowest_in, first_effect};

use crate::rule::EffectRule;
use crate::site::Site;
use trust::Trust;

/// A rule, and the first effect that breaks it.
#[derive(Clone, Copy)]
pub(crate) struct Lowest {
    pub rule: EffectRule,
    pub effect: usize,
}

// What was lowest, or a rule that an effect behind it breaks where that is lower.
fn lower(lowest: Option<Lowest>, broken: Option<EffectRule>, effect: usize) -> Option<Lowest>
    ensures { result ≡ lower lowest broken effect }
{
    match (lowest, broken) {
        (_, None) => lowest,
        (None, Some(rule)) => Some(Lowest { rule, effect }),
        (Some(low), Some(rule)) => if rule < low.rule {
            Some(Lowest { rule, effect })
        } else {
            lowest
        },
    }
}

/// The lowest rule that is broken at some effect and the first that breaks it, in one pass.
pub(crate) fn lowest_broken(trust: &Trust) -> Option<Lowest>
    ensures lowest { result ≡ lowest_in (view trust.now) (length trust.now.effects) }
    ensures good { Good (view trust.now) }
{
    let mut lowest = None;
    // `&*trust` lends again, since a site takes the trust and its tables for one lifetime
    for effect in 0..trust.tables().effects().len() {
        lowest = lower(lowest, Site::new(&*trust, effect).lowest_broken(), effect);
    }
    lowest
}

/// The first place of a rule, begun at an effect before which none breaks it.
pub(crate) fn first_place(trust: &Trust, rule: EffectRule, from: usize) -> Option<(usize, usize)>
    requires within { from ≤ length trust.now.effects }
    requires unbroken { (i j : ℕ) → i < from → j < seconds_of rule (view trust.now) i → breaks_of rule (view trust.now) i j ≡ false }
    ensures { result ≡ pair_of (first_effect rule (view trust.now)) }
{
    let count = trust.tables().effects().len();
    'effects: {
        for effect in from..count {
            let site = Site::new(&*trust, effect);
            for second in 0..site.places(rule) {
                if site.breaks(rule, second) {
                    break 'effects Some((effect, second));
                }
            }
        }
        None
    }
}
