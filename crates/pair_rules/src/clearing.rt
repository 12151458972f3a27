// Rules 21 and 22 asked of direct supertypes alone: where no step from a direct supertype down to its class fails, the rule is broken nowhere.
ghost use Rattle.std.specs.Prelude.{◌≡◌, ℕ, ◌<◌, ◌≤◌, true, false, IsTrue, IsFalse, length, slice_index};
ghost use Rattle.tables.specs.View.{view};
ghost use Rattle.meaning.specs.Tables.{supers_of};
ghost use Rattle.pair_rules.specs.Clearing.{HoldsAtSteps, FailsAtStep};

use tables::Tables;

// The direct supertypes of a class.
fn supertypes_of(tables: &Tables, class: usize) -> &[u8]
    requires { class < length tables.now.classes }
    ensures value { result.now ≡ supers_of (view tables.now) class }
    ensures low { (j : ℕ) → j < length result.now → slice_index result.now j < length tables.now.classes }
    ensures few { length tables.now.classes ≤ 127 }
{
    let declared = &tables.classes()[class];
    declared.supertypes()
}

// Whether a test of a direct supertype and its class passes at all of them.
pub(crate) fn holds_at_steps<F: Fn(u8, u8) -> bool>(tables: &Tables, holds: F) -> bool
    requires { (s c : ℕ) → s < length tables.now.classes → c < length tables.now.classes → F.pre holds s c }
    ensures holds { IsTrue result → HoldsAtSteps (view tables.now) (λ s c. F.post holds s c true) }
    ensures fails { IsFalse result → FailsAtStep (view tables.now) (λ s c. F.post holds s c false) }
{
    for class in 0..tables.classes().len() {
        let supertypes = supertypes_of(tables, class);
        for supertype in supertypes {
            if !holds(*supertype, class as u8) {
                return false;
            }
        }
    }
    true
}
