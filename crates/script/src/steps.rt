//! `20` to `29`: the steps.

ghost use Rattle.std.specs.Prelude.{◌≡◌, true};
ghost use Rattle.std.specs.List.{list_all};
ghost use Rattle.meaning.specs.Reading.{is_method};
ghost use Rattle.runs.specs.Script.{is_reference};
ghost use Rattle.tables.specs.View.{view};
ghost use Rattle.script.specs.Steps.{arguments_in, step_in, are_for, is_named};

use crate::declared::{is_class, is_field, is_method};
use machine::{Arguments, Step};
use tables::{Mode, Tables};
use text::Frame;

/// References are 00 to FE.
#[tactic(auto, unfolding(runs::specs::Script::is_reference))]
pub(crate) fn is_reference(number: u8) -> bool
    ensures { result ≡ is_reference number }
{
    number != 0xFF
}

// The arguments that a count byte counts, unless it counts more than a method takes.
#[tactic(auto, using(crate::proofs::Calls::arguments))]
fn arguments(count: u8, objects: [u8; 6]) -> Option<Arguments>
    ensures { result ≡ arguments_in count objects }
{
    let [first, second, third, fourth, fifth, sixth] = objects;
    if count <= 6 {
        Some(Arguments {
            count,
            objects: [
                first, second, third, fourth, fifth, sixth, 0, 0, 0, 0, 0, 0, 0,
            ],
        })
    } else {
        None
    }
}

/// The step of a frame, by its kind; none where it counts more arguments than a method takes.
#[tactic(auto, using(crate::proofs::Calls::arguments), unfolding(crate::specs::Steps::step_in, crate::specs::Steps::step_by, runs::specs::Script::is_reference))]
pub(crate) fn step_of(frame: &Frame) -> Option<Step>
    ensures { result ≡ step_in frame.now }
{
    let [
        kind,
        first,
        second,
        third,
        fourth,
        fifth,
        sixth,
        seventh,
        eighth,
        ninth,
        tenth,
        ..
    ] = frame.bytes;
    Some(match kind {
        0x20 => Step::Widen {
            object: first,
            class: second,
        },
        0x21 => Step::New {
            object: first,
            class: second,
        },
        0x22 => Step::CheckCast {
            object: first,
            class: second,
        },
        0x23 => Step::GetStatic {
            field: first,
            value: second,
        },
        0x24 => Step::PutStatic {
            field: first,
            value: second,
        },
        0x25 => Step::GetField {
            field: first,
            owner: second,
            value: third,
        },
        0x26 => Step::PutField {
            field: first,
            owner: second,
            value: third,
        },
        0x27 => Step::InvokeStatic {
            method: first,
            arguments: arguments(second, [third, fourth, fifth, sixth, seventh, eighth])?,
        },
        0x28 => Step::InvokeMethod {
            method: first,
            runs: second,
            receiver: third,
            arguments: arguments(fourth, [fifth, sixth, seventh, eighth, ninth, tenth])?,
        },
        // 29: the section has no other kind.
        _ => Step::Return {
            value: if is_reference(first) {
                Some(first)
            } else {
                None
            },
        },
    })
}

#[tactic(auto, unfolding(runs::specs::Script::is_reference))]
fn are_references(objects: &[u8]) -> bool
    ensures { result ≡ list_all is_reference objects.now }
{
    objects.iter().all(|object| *object != 0xFF)
}

// As many arguments as the method takes, and each a reference.
#[tactic(auto, using(crate::proofs::Places::declared), unfolding(meaning::specs::Reading::is_method))]
fn are_for(tables: &Tables, method: u8, arguments: Arguments) -> bool
    requires { is_method (view tables.now) method ≡ true }
    ensures { result ≡ are_for (view tables.now) method arguments }
{
    match tables.method(method) {
        Some(called) => {
            arguments.objects().len() == called.parameters().len()
                && are_references(arguments.objects())
        }
        None => false,
    }
}

/// Whether the numbers that a step names are declared, and its references none of them FF.
#[tactic(auto, using(crate::proofs::Calls::method_declared), unfolding(meaning::specs::Reading::is_method))]
pub(crate) fn is_named(tables: &Tables, step: Step) -> bool
    ensures { result ≡ is_named (view tables.now) step }
{
    match step {
        Step::Widen { object, class }
        | Step::New { object, class }
        | Step::CheckCast { object, class } => is_reference(object) && is_class(tables, class),
        Step::GetStatic { field, value } | Step::PutStatic { field, value } => {
            is_field(tables, field, Mode::Static) && is_reference(value)
        }
        Step::GetField {
            field,
            owner,
            value,
        }
        | Step::PutField {
            field,
            owner,
            value,
        } => {
            is_field(tables, field, Mode::Instance) && is_reference(owner) && is_reference(value)
        }
        Step::InvokeStatic { method, arguments } => {
            is_method(tables, method, Mode::Static) && are_for(tables, method, arguments)
        }
        Step::InvokeMethod {
            method,
            runs,
            receiver,
            arguments,
        } => {
            is_method(tables, method, Mode::Instance)
                && is_method(tables, runs, Mode::Instance)
                && is_reference(receiver)
                && are_for(tables, method, arguments)
        }
        Step::Return { .. } => true,
    }
}
