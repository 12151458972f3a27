// What two methods are to each other.
ghost use Rattle.std.specs.Prelude.{◌≡◌, ◌<◌, length, take};
ghost use Rattle.meaning.specs.Tables.{method_at, owner_of, slot_of, label_of, result_of, params_of};
ghost use Rattle.meaning.specs.Tests.{one_slot, overrides};
ghost use Rattle.tables.specs.View.{view, method_view};
ghost use Rattle.pair_tests.specs.Methods.{type_of, differ_by, one_slot_by, types_differ};

use tables::{Method, Mode, Tables};
use trust::Trust;

/// The method of a number that is declared.
#[tactic(auto, using(crate::proofs::At::declared))]
pub fn method(tables: &Tables, number: usize) -> &Method
    requires { number < length tables.now.methods }
    ensures found { method_at (view tables.now) number ≡ method_view result.now }
    ensures class { owner_of (view tables.now) number ≡ result.now.class }
    ensures slot { slot_of (view tables.now) number ≡ result.now.slot }
    ensures label { label_of (view tables.now) number ≡ result.now.label }
    ensures return_type { result_of (view tables.now) number ≡ type_of result.now.result }
    ensures parameters { params_of (view tables.now) number ≡ take result.now.parameter_count result.now.parameters }
    ensures class_declared { result.now.class < length (view tables.now).classes }
    ensures label_declared { result.now.label < tables.now.domains }
{
    &tables.methods()[number]
}

// Their parameters or return types differ.
fn differ(x: &Method, y: &Method) -> bool
    ensures { result ≡ differ_by x.now y.now }
{
    x.result != y.result || x.parameters() != y.parameters()
}

// Both are instance methods of one slot.
fn have_one_slot(x: &Method, y: &Method) -> bool
    ensures { result ≡ one_slot_by x.now y.now }
{
    x.mode == Mode::Instance && y.mode == Mode::Instance && x.slot == y.slot
}

// Both numbers are of instance methods of one slot.
pub(crate) fn are_of_one_slot(tables: &Tables, first: usize, second: usize) -> bool
    requires first_declared { first < length tables.now.methods }
    requires second_declared { second < length tables.now.methods }
    ensures { result ≡ one_slot (view tables.now) first second }
{
    have_one_slot(method(tables, first), method(tables, second))
}

// The first method overrides the second.
#[tactic(auto, unfolding(meaning::specs::Tests::overrides))]
pub(crate) fn overrides(trust: &Trust, first: usize, second: usize) -> bool
    requires first_declared { first < length trust.now.methods }
    requires second_declared { second < length trust.now.methods }
    ensures { result ≡ overrides (view trust.now) first second }
{
    let tables = trust.tables();
    let x = method(tables, first);
    let y = method(tables, second);
    are_of_one_slot(tables, first, second)
        && x.class != y.class
        && trust.is_subtype(x.class, y.class)
}

/// The parameters or the return types of two methods differ.
#[tactic(auto, using(crate::proofs::Laws::differs))]
pub fn types_differ(tables: &Tables, first: usize, second: usize) -> bool
    requires first_declared { first < length tables.now.methods }
    requires second_declared { second < length tables.now.methods }
    ensures { result ≡ types_differ (view tables.now) first second }
{
    differ(method(tables, first), method(tables, second))
}
