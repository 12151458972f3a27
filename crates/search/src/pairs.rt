// The first of all pairs that breaks a rule.
ghost use Rattle.std.specs.Prelude.{◌≡◌, ℕ, Bool, ◌<◌};
ghost use Rattle.meaning.specs.Lists.{first_place};
ghost use Rattle.search.specs.Pairs.{pair_of};

use crate::rule::PairRule;

/// The first pair that breaks a rule.
pub fn first_broken<R: PairRule>(rule: &R) -> Option<(usize, usize)>
    ensures { result ≡ pair_of (first_place (R.count rule.now) (λ _. R.count rule.now) (R.breaks rule.now)) }
{
    let count = rule.count();
    'pairs: {
        for first in 0..count {
            for second in 0..count {
                if rule.is_broken(first, second) {
                    break 'pairs Some((first, second));
                }
            }
        }
        None
    }
}
