//! What is read so far of a run text.

ghost use Rattle.std.specs.Prelude.{◌≡◌};
ghost use Rattle.tables.specs.View.{view};
ghost use Rattle.script.specs.Start.{is_object, is_instance};
ghost use Rattle.script.specs.Readings.{begun};

use counted::Filled;
use machine::{Loaded, Placed, State};

/// The start and the steps, as they are read.
#[derive(Clone, Copy)]
pub struct Script {
    pub start: State,
    pub steps: Filled<Placed, 1024>,
}

/// A script with how many lines of links and of labels were read, repeated ones too: the start has each once.
#[derive(Clone, Copy)]
pub struct Draft {
    pub script: Script,
    pub link_lines: usize,
    pub label_lines: usize,
}

impl Draft {
    /// A script before anything is there; its entry method is read first.
    pub fn new() -> Draft
        ensures { result ≡ begun 0 }
    {
        Draft {
            script: Script {
                start: State::new(0),
                steps: Filled::new(),
            },
            link_lines: 0,
            label_lines: 0,
        }
    }
}

/// Whether there is an object of this number.
pub(crate) fn is_object(start: &State, number: u8) -> bool
    ensures { result ≡ is_object start.now number }
{
    start.class_of(number).is_some()
}

/// Whether the object's class is this one or below it.
pub(crate) fn is_instance(loaded: &Loaded, start: &State, object: u8, above: u8) -> bool
    ensures { result ≡ is_instance (view loaded.now) start.now object above }
{
    match start.class_of(object) {
        Some(class) => loaded.is_subtype(class, above),
        None => false,
    }
}
