// The first pair of one key that breaks a rule.
ghost use Rattle.std.specs.Prelude.{◌≡◌, ℕ, Bool, ◌<◌};
ghost use Rattle.meaning.specs.Lists.{first_place};
ghost use Rattle.search.specs.Pairs.{pair_of};
ghost use Rattle.search.specs.Keys.{IsKeyed};

use crate::chains::Chains;
use crate::rule::PairRule;

/// The first pair that breaks a rule which only pairs of one key break: no other pair is asked.
pub fn first_broken_in<R: PairRule>(chains: &Chains, rule: &R) -> Option<(usize, usize)>
    requires same_count { chains.now.count ≡ R.count rule.now }
    requires keyed { IsKeyed chains.now.keys chains.now.count (R.breaks rule.now) }
    ensures { result ≡ pair_of (first_place (R.count rule.now) (λ _. R.count rule.now) (R.breaks rule.now)) }
{
    let count = chains.count();
    'pairs: {
        for first in 0..count {
            // a chain is walked along its links, so no range counts its places
            let mut second = chains.start(first);
            while second < count {
                if rule.is_broken(first, second) {
                    break 'pairs Some((first, second));
                }
                second = chains.next(second);
            }
        }
        None
    }
}
