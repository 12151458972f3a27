//! What the tables of a package declare, as a line of a run text asks for it.

ghost use Rattle.std.specs.Prelude.{◌≡◌, eqb};
ghost use Rattle.meaning.specs.Reading.{is_type, is_field, is_method_of, is_method};
ghost use Rattle.tables.specs.View.{view, mode_number};
ghost use Rattle.script.specs.Taking.{fields_of};

use relation::{Relation, Wide};
use tables::{Field, Mode, Tables};

/// Whether a class of this number is declared.
#[tactic(auto, using(crate::proofs::Places::declared), unfolding(meaning::specs::Reading::is_type, meaning::specs::Reading::is_class))]
pub(crate) fn is_class(tables: &Tables, number: u8) -> bool
    ensures { result ≡ is_type (view tables.now) number }
{
    tables.class(number).is_some()
}

/// Whether a field of this number and this mode is declared.
#[tactic(auto, using(crate::proofs::Places::declared), unfolding(meaning::specs::Reading::is_field))]
pub(crate) fn is_field(tables: &Tables, number: u8, mode: Mode) -> bool
    ensures { result ≡ is_field (view tables.now) number (mode_number mode) }
{
    match tables.field(number) {
        Some(field) => field.mode == mode,
        None => false,
    }
}

/// Whether a method of this number and this mode is declared.
#[tactic(auto, using(crate::proofs::Places::declared), unfolding(meaning::specs::Reading::is_method_of))]
pub(crate) fn is_method(tables: &Tables, number: u8, mode: Mode) -> bool
    ensures { result ≡ is_method_of (view tables.now) number (mode_number mode) }
{
    match tables.method(number) {
        Some(method) => method.mode == mode,
        None => false,
    }
}

fn is_of_mode(field: &Field, mode: Mode) -> bool
    ensures { result ≡ eqb (mode_number field.now.mode) (mode_number mode) }
{
    field.mode == mode
}

/// The classes and types of the fields of a mode, as rows of bits. They are made once for a section, since every line of a link asks for them.
pub(crate) fn fields_of(tables: &Tables, mode: Mode) -> Wide
    ensures { result ≡ fields_of (view tables.now) (mode_number mode) }
{
    let mut rows = Wide::new();
    for field in tables.fields() {
        if is_of_mode(field, mode) {
            rows.add(usize::from(field.class), usize::from(field.typ));
        }
    }
    rows
}
