//! The effects of a package as chains: those that are looked for as one are in one group, and each leads to the one before it.

ghost use Rattle.std.specs.Prelude.{◌≡◌, ◌<◌};
ghost use Rattle.meaning.specs.Good.{Good};
ghost use Rattle.meaning.specs.Lists.{any};
ghost use Rattle.meaning.specs.Tables as M;
ghost use Rattle.runs.specs.Steps.{permits, permits_field};
ghost use Rattle.tables.specs.View.{view, effect_view, operation_number};
ghost use Rattle.permits.specs.Chains.{is_of_fields, grouped_by, group};
ghost use Rattle.permits.specs.Wanted.{fits, passes, IsTogether};
ghost use Rattle.permits.specs.declared.chains.Wanted.TheVariants as W;

use crate::declared::field_at;
use std::marker::Model;
use tables::{Effect, Operation, Tables};

/// How many groups there are. Of the 1,024 effects of a package few share one, whether one method has them all or each has some.
const GROUPS: usize = 2048;

const EFFECTS: usize = 1024;

/// Which steps the effects of a package permit. Clauses see the tables' contents.
#[derive(Drop)]
pub struct Permits<'a> {
    tables: &'a Tables,
    newest: [Option<u16>; GROUPS],
    before: [Option<u16>; EFFECTS],
}

impl<'a> Model for Permits<'a> {
    ghost use Rattle.tables.specs.Contents.{Contents};

    ghost Value = { Contents };

    ghost use Rattle.permits.specs.Chained.{tables_of, IsChained};

    ghost view = { tables_of };

    ghost invariant = { IsChained };
}

/// What an effect has to name: this number, or a field of this declaring class and type.
#[derive(Clone, Copy)]
enum Wanted {
    Number(u8),
    Field { class: u8, typ: u8 },
}

fn number(operation: Operation) -> usize
    ensures { result ≡ operation_number operation }
{
    match operation {
        Operation::New => 0,
        Operation::CheckCast => 1,
        Operation::GetStatic => 2,
        Operation::PutStatic => 3,
        Operation::GetField => 4,
        Operation::PutField => 5,
        Operation::InvokeStatic => 6,
        Operation::InvokeMethod => 7,
    }
}

/// Whether the operation is one on a field.
fn is_of_fields(operation: Operation) -> bool
    ensures { result ≡ is_of_fields (operation_number operation) }
{
    match operation {
        Operation::GetStatic | Operation::PutStatic | Operation::GetField | Operation::PutField =>
            true,
        Operation::New | Operation::CheckCast | Operation::InvokeStatic | Operation::InvokeMethod =>
            false,
    }
}

/// A field of the declaring class and type of this one.
fn field_like(tables: &Tables, number: u8) -> Wanted
    ensures { result ≡ W.Field (M.field_class (view tables.now) number) (M.field_type (view tables.now) number) }
{
    let field = field_at(tables, number);
    Wanted::Field {
        class: field.class,
        typ: field.typ,
    }
}

/// What an effect of this operation on this number is grouped by. (A step on a field is permitted by an effect on any field that is like it.)
fn grouped_by(tables: &Tables, operation: Operation, number: u8) -> Wanted
    ensures { result ≡ grouped_by (view tables.now) (operation_number operation) number }
{
    if is_of_fields(operation) {
        field_like(tables, number)
    } else {
        Wanted::Number(number)
    }
}

/// The group of an effect of the method with this operation. The factors are odd: effects of one method and one operation on different numbers are of different groups.
fn group(method: u8, operation: Operation, wanted: Wanted) -> usize
    ensures value { result ≡ group method (operation_number operation) wanted }
    ensures below { result < GROUPS }
{
    let named = match wanted {
        Wanted::Number(number) => 37 * usize::from(number),
        Wanted::Field { class, typ } => 37 * usize::from(class) + 611 * usize::from(typ),
    };
    (usize::from(method) * 8 + number(operation) + named) % GROUPS
}

impl<'a> Permits<'a> {
    pub fn new(tables: &'a Tables) -> Permits<'a>
        ensures value { result ≡ tables.now }
        ensures good { Good (view tables.now) }
    {
        let mut newest = [None; GROUPS];
        let mut before = [None; EFFECTS];
        for (place, effect) in tables.effects().iter().enumerate() {
            let by = grouped_by(tables, effect.operation, effect.number);
            let group = group(effect.method, effect.operation, by);
            before[place] = newest[group];
            newest[group] = Some(place as u16);
        }
        Permits {
            tables,
            newest,
            before,
        }
    }

    pub fn tables(&self) -> &'a Tables
        ensures value { result.now ≡ self.now }
        ensures good { Good (view self.now) }
    {
        self.tables
    }

    fn is_wanted(&self, wanted: Wanted, number: u8) -> bool
        ensures { result ≡ fits (view self.now) wanted number }
    {
        match wanted {
            Wanted::Number(other) => number == other,
            Wanted::Field { class, typ } => {
                let field = field_at(self.tables, number);
                field.class == class && field.typ == typ
            }
        }
    }

    fn passes(&self, effect: &Effect, method: u8, operation: Operation, wanted: Wanted) -> bool
        ensures { result ≡ passes method (operation_number operation) (fits (view self.now) wanted) (effect_view effect.now) }
    {
        effect.method == method
            && number(effect.operation) == number(operation)
            && self.is_wanted(wanted, effect.number)
    }

    /// Whether an effect of the method with this operation names what is wanted, where all that do are in this group. (Along the group's chain: few others are in it.)
    fn names(&self, group: usize, method: u8, operation: Operation, wanted: Wanted) -> bool
        requires below { group < GROUPS }
        requires together { IsTogether (view self.now) method (operation_number operation) wanted group }
        ensures { result ≡ any (passes method (operation_number operation) (fits (view self.now) wanted)) (view self.now).effects }
    {
        let effects = self.tables.effects();
        let mut at = self.newest[group];
        while let Some(place) = at {
            let place = usize::from(place);
            if self.passes(&effects[place], method, operation, wanted) {
                return true;
            }
            at = self.before[place];
        }
        false
    }

    /// Whether an effect of the method has this operation on this number.
    pub fn permits(&self, method: u8, operation: Operation, number: u8) -> bool
        ensures { result ≡ permits (view self.now) method (operation_number operation) number }
    {
        let by = grouped_by(self.tables, operation, number);
        let group = group(method, operation, by);
        self.names(group, method, operation, Wanted::Number(number))
    }

    /// Whether an effect of the method has this operation on a field of the declaring class and type of this one.
    pub fn permits_field(&self, method: u8, operation: Operation, number: u8) -> bool
        ensures { result ≡ permits_field (view self.now) method (operation_number operation) number }
    {
        let wanted = field_like(self.tables, number);
        if is_of_fields(operation) {
            let group = group(method, operation, wanted);
            self.names(group, method, operation, wanted)
        } else {
            self.has(method, operation, wanted)
        }
    }

    /// Whether an effect of the method with this operation names what is wanted, of whatever group. (No step asks so.)
    fn has(&self, method: u8, operation: Operation, wanted: Wanted) -> bool
        ensures { result ≡ any (passes method (operation_number operation) (fits (view self.now) wanted)) (view self.now).effects }
    {
        self.tables
            .effects()
            .iter()
            .any(|effect| self.passes(effect, method, operation, wanted))
    }
}
