// The methods of each slot, and whether any two of them break a rule.
ghost use Rattle.std.specs.Prelude.{◌≡◌, ◌≤◌, ◌↔◌, IsFalse, IsNone, length};
ghost use Rattle.tables.specs.View.{view};
ghost use Rattle.pair_rules.specs.Slots.{AreSlots, AreInDoubt, HaveOneType, IsKeptByMethods};

use pair_tests::{AnyOfOneSlot, method, types_differ};
use search::{Chains, first_broken_in};
use tables::Tables;
use trust::Trust;

/// The methods in chains, each of one slot. A static method has the slot 0 and is in none.
pub(crate) fn slots(tables: &Tables) -> Chains
    ensures { AreSlots tables.now result }
{
    let mut keys = [0; 256];
    let count = tables.methods().len();
    for number in 0..count {
        keys[number] = method(tables, number).slot;
    }
    Chains::new(keys, count)
}

// Whether a method differs from the first one of its slot: some do exactly where two of a slot differ.
fn some_differ(tables: &Tables, slots: &Chains) -> bool
    requires { AreSlots tables.now slots.now }
    ensures { IsFalse result ↔ HaveOneType (view tables.now) }
{
    let count = slots.count();
    for number in 0..count {
        let first = slots.start(number);
        if first < count && types_differ(tables, first, number) {
            return true;
        }
    }
    false
}

// Whether some rule of methods is broken.
fn some_broken(trust: &Trust, slots: &Chains) -> bool
    requires { AreSlots trust.now slots.now }
    ensures { IsFalse result ↔ IsKeptByMethods (view trust.now) }
{
    if some_differ(trust.tables(), slots) {
        return true;
    }
    first_broken_in(slots, &AnyOfOneSlot { trust }).is_some()
}

/// The methods' slots, unless no rule of methods is broken: a package that is accepted is searched once, not once for each rule.
pub(crate) fn in_doubt<'s>(trust: &Trust, slots: &'s Chains) -> Option<&'s Chains>
    requires { AreSlots trust.now slots.now }
    ensures slots { AreInDoubt trust.now result }
    ensures none { IsNone result ↔ IsKeptByMethods (view trust.now) }
{
    if some_broken(trust, slots) {
        Some(slots)
    } else {
        None
    }
}
