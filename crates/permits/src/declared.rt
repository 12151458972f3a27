//! What stands at a number of the tables, also where nothing is declared: the definitions answer for each number.

ghost use Rattle.std.specs.Prelude.{◌≡◌};
ghost use Rattle.meaning.specs.Tables as M;
ghost use Rattle.tables.specs.View.{view, field_view, method_view};

use tables::{Field, Method, Mode, Tables};

const NO_FIELD: Field = Field {
    class: 0,
    typ: 0,
    mode: Mode::Static,
};

const NO_METHOD: Method = Method {
    class: 0,
    label: 0,
    slot: 0,
    result: None,
    mode: Mode::Static,
    parameter_count: 0,
    parameters: [0; 6],
};

/// The field of this number; one that is not declared is static, of the first class and type.
#[tactic(auto, using(crate::proofs::Undeclared::at), unfolding(meaning::specs::Tables::field_class, meaning::specs::Tables::field_type))]
pub fn field_at(tables: &Tables, number: u8) -> Field
    ensures field { field_view result ≡ M.field_at (view tables.now) number }
    ensures class { result.class ≡ M.field_class (view tables.now) number }
    ensures typ { result.typ ≡ M.field_type (view tables.now) number }
{
    match tables.field(number) {
        Some(field) => *field,
        None => NO_FIELD,
    }
}

/// The method of this number; one that is not declared is static, of the first class, and takes and returns nothing.
#[tactic(auto, using(crate::proofs::Undeclared::at))]
pub fn method_at(tables: &Tables, number: u8) -> Method
    ensures { method_view result ≡ M.method_at (view tables.now) number }
{
    match tables.method(number) {
        Some(method) => *method,
        None => NO_METHOD,
    }
}
