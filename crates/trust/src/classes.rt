//! Which class is a subtype of which.
ghost use Rattle.std.specs.Prelude.{◌≡◌, ℕ, ◌≤◌, ◌<◌, length, get_or};
ghost use Rattle.std.specs.List.{fold};
ghost use Rattle.meaning.specs.Tables.{Package};
ghost use Rattle.meaning.specs.Tests.{subtype};
ghost use Rattle.tables.specs.View.{view};
ghost use Rattle.relation.specs.Fold.{up_to};
ghost use Rattle.trust.specs.Below.{Supers, below_by};
ghost use Rattle.trust.specs.Relations.{subtype_rows};
ghost use Rattle.trust.specs.Turns.{own_at, join_supertype, fill_at};

use relation::{Relation, Wide};
use tables::Tables;

// Each class is a subtype of itself.
fn add_classes(rows: &mut Wide, classes: usize)
    requires { classes ≤ 127 }
    ensures { rows.new ≡ up_to classes own_at rows.old }
{
    for class in 0..classes {
        rows.add(class, class);
    }
}

// The rows of some classes join that of a class.
fn join_rows(rows: &mut Wide, class: usize, others: &[u8])
    requires class_below { class < 127 }
    requires others_below { (i : ℕ) → i < length others.now → get_or others.now i 0 < 127 }
    ensures { rows.new ≡ fold (join_supertype class) rows.old others.now }
{
    for other in others {
        rows.join(class, usize::from(*other));
    }
}

// The rows of a class's direct supertypes join its own.
fn join_supertypes(rows: &mut Wide, tables: &Tables, class: usize)
    requires { class < length tables.now.classes }
    ensures { rows.new ≡ fill_at (view tables.now) class rows.old }
{
    let declared = &tables.classes()[class];
    join_rows(rows, class, declared.supertypes());
}

// Fills the rows of the classes below a number: those below the last of them first, then its own. A direct supertype has a lower number, so its row is full by then.
pub(crate) fn fill(rows: &mut Wide, tables: &Tables, end: usize)
    requires { end ≤ length tables.now.classes }
    ensures { rows.new ≡ up_to end (fill_at (view tables.now)) rows.old }
{
    if end == 0 {
        return;
    }
    fill(rows, tables, end - 1);
    join_supertypes(rows, tables, end - 1);
}

/// Row a has the bit b exactly where A <: B.
pub fn supertypes(tables: &Tables) -> Wide
    ensures { result ≡ subtype_rows (view tables.now) }
{
    let classes = tables.classes().len();
    let mut rows = Wide::new();
    add_classes(&mut rows, classes);
    fill(&mut rows, tables, classes);
    rows
}

fn is_below(supertypes: &Wide, a: u8, b: u8) -> bool
    ensures { result ≡ below_by supertypes.now a b }
{
    a == b || (a < 127 && b < 127 && supertypes.has(usize::from(a), usize::from(b)))
}

/// Whether A <: B, of any two numbers: one that is not declared is a subtype of itself alone.
pub fn is_subtype(supertypes: &Wide, a: u8, b: u8) -> bool
    ensures value { result ≡ below_by supertypes.now a b }
    ensures of_package { (P : Package) → Supers P supertypes.now → result ≡ subtype P a b }
{
    is_below(supertypes, a, b)
}
