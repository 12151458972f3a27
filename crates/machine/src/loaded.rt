//! A package as a run uses it: its tables, with what is made of them once.

ghost use Rattle.std.specs.Prelude.{◌≡◌, eqb, take};
ghost use Rattle.meaning.specs.Good.{Good};
ghost use Rattle.meaning.specs.Tables as M;
ghost use Rattle.meaning.specs.Tests.{subtype};
ghost use Rattle.tables.specs.View.{view, field_view, method_view, mode_number};
ghost use Rattle.trust.specs.Relations.{subtype_rows};
ghost use Rattle.runs.specs.Steps.{runs_for};
ghost use Rattle.machine.specs.Definitions.{option_from};
ghost use Rattle.machine.specs.Allowed.{allowed};
ghost use Rattle.machine.specs.Overriding.{overrides_by};

use crate::step::Need;
use permits::Permits;
use relation::Wide;
use std::marker::Model;
use tables::{Field, Method, Mode, Operation, Tables};

/// A package's tables, its supertypes as rows of bits and its effects as chains. Clauses see the tables' contents.
#[derive(Drop)]
pub struct Loaded<'a> {
    permits: Permits<'a>,
    supertypes: Wide,
}

impl<'a> Model for Loaded<'a> {
    ghost use Rattle.tables.specs.Contents.{Contents};

    ghost Value = { Contents };

    ghost use Rattle.machine.specs.Loaded.{contents_of, IsLoaded};

    ghost view = { contents_of };

    ghost invariant = { IsLoaded };
}

fn is_instance(method: &Method) -> bool
    ensures { result ≡ eqb (mode_number method.now.mode) 0 }
{
    match method.mode {
        Mode::Instance => true,
        Mode::Static => false,
    }
}

impl<'a> Loaded<'a> {
    pub fn new(tables: &'a Tables) -> Loaded<'a>
        ensures { result ≡ tables.now }
    {
        Loaded {
            permits: Permits::new(tables),
            supertypes: trust::supertypes(tables),
        }
    }

    pub fn tables(&self) -> &'a Tables
        ensures value { result.now ≡ self.now }
        ensures good { Good (view self.now) }
    {
        self.permits.tables()
    }

    pub fn supertypes(&self) -> &Wide
        ensures value { result.now ≡ subtype_rows (view self.now) }
        ensures good { Good (view self.now) }
    {
        &self.supertypes
    }

    /// Whether the first class is the second or below it.
    pub fn is_subtype(&self, class: u8, above: u8) -> bool
        ensures { result ≡ subtype (view self.now) class above }
    {
        trust::is_subtype(&self.supertypes, class, above)
    }

    /// Whether an effect of the method gives what a step needs: for a field one on a field of the same declaring class and type.
    pub fn allows(&self, method: u8, need: Need) -> bool
        ensures { result ≡ allowed (view self.now) method need }
    {
        match need.operation {
            Operation::GetStatic
            | Operation::PutStatic
            | Operation::GetField
            | Operation::PutField => {
                self.permits
                    .permits_field(method, need.operation, need.number)
            }
            Operation::New
            | Operation::CheckCast
            | Operation::InvokeStatic
            | Operation::InvokeMethod => {
                self.permits.permits(method, need.operation, need.number)
            }
        }
    }

    /// The field of this number, also where none is declared.
    pub fn field(&self, number: u8) -> Field
        ensures field { field_view result ≡ M.field_at (view self.now) number }
        ensures class { result.class ≡ M.field_class (view self.now) number }
        ensures typ { result.typ ≡ M.field_type (view self.now) number }
    {
        permits::field_at(self.permits.tables(), number)
    }

    /// The method of this number, also where none is declared.
    #[tactic(auto, using(crate::proofs::Methods::methods))]
    pub fn method(&self, number: u8) -> Method
        ensures method { method_view result ≡ M.method_at (view self.now) number }
        ensures class { result.class ≡ M.owner_of (view self.now) number }
        ensures parameters { take result.parameter_count result.parameters ≡ M.params_of (view self.now) number }
        ensures returned { result.result ≡ option_from (M.result_of (view self.now) number) }
    {
        permits::method_at(self.permits.tables(), number)
    }

    /// Whether the first method overrides the second: both are instance methods of one slot, and the first one's class is a proper subtype.
    fn overrides(&self, first: &Method, second: &Method) -> bool
        ensures { result ≡ overrides_by (view self.now) first.now second.now }
    {
        is_instance(first)
            && is_instance(second)
            && first.slot == second.slot
            && first.class != second.class
            && self.is_subtype(first.class, second.class)
    }

    /// Whether the first method is the second or overrides it, so that it may run where the second is called.
    #[tactic(auto, using(crate::proofs::Methods::runs))]
    pub fn runs_for(&self, runs: u8, called: u8) -> bool
        ensures { result ≡ runs_for (view self.now) runs called }
    {
        if runs == called {
            return true;
        }
        self.overrides(&self.method(runs), &self.method(called))
    }
}
