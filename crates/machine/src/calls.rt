//! The steps that call and return: each asks its premises in order, and writes only after the last one.

ghost use Rattle.std.specs.Prelude.{◌≡◌, ◌+◌, ◌≤◌, length, OnErr};
ghost use Rattle.tables.specs.View.{view};
ghost use Rattle.machine.specs.Snapshot.{outcome_of};
ghost use Rattle.machine.specs.Steps.{holds_all, passed, taken};

use crate::arguments::Arguments;
use crate::label::Label;
use crate::loaded::Loaded;
use crate::refusal::Refusal;
use crate::state::{SAVED_FRAMES, State, has_room};

/// What is returned where nothing is: the number of no object.
const NOTHING: u8 = 0xFF;

impl State {
    ghost use Rattle.machine.specs.declared.step.Step.TheVariants as step;

    /// Whether the running frame has each object at the class in its place.
    pub(crate) fn holds_all(&self, objects: &[u8], classes: &[u8]) -> bool
        ensures { result ≡ holds_all self.now.labels objects.now classes.now }
    {
        if objects.len() != classes.len() {
            return false;
        }
        for (place, object) in objects.iter().enumerate() {
            let label = Label {
                object: *object,
                class: classes[place],
            };
            if !self.holds(label) {
                return false;
            }
        }
        true
    }

    /// The objects join the running frame at the classes in their places.
    fn pass(&mut self, objects: &[u8], classes: &[u8])
        requires same_length { length objects.now ≡ length classes.now }
        requires few { length self.old.labels + length objects.now ≤ 32 }
        ensures { self.new ≡ record self.old { labels = passed self.old.labels objects.now classes.now } }
    {
        for (place, object) in objects.iter().enumerate() {
            self.insert_argument(Label {
                object: *object,
                class: classes[place], // and not the object's own class
            });
        }
    }

    pub(crate) fn invoke_static(
        &mut self,
        loaded: &Loaded,
        number: u8,
        arguments: Arguments,
    ) -> Result<(), Refusal>
        ensures outcome { outcome_of result self.new ≡ taken (view loaded.now) self.old (step.InvokeStatic number arguments) }
        ensures refused { OnErr result (self.new ≡ self.old) }
    {
        let method = loaded.method(number);
        if !self.holds_all(arguments.objects(), method.parameters()) {
            return Err(Refusal::PremiseMissing);
        }
        if self.depth() == SAVED_FRAMES {
            return Err(Refusal::NoRoom);
        }
        self.push(number, method.result);
        self.pass(arguments.objects(), method.parameters());
        Ok(())
    }

    pub(crate) fn invoke_method(
        &mut self,
        loaded: &Loaded,
        number: u8,
        runs: u8,
        receiver: u8,
        arguments: Arguments,
    ) -> Result<(), Refusal>
        ensures outcome { outcome_of result self.new ≡ taken (view loaded.now) self.old (step.InvokeMethod number runs receiver arguments) }
        ensures refused { OnErr result (self.new ≡ self.old) }
    {
        let method = loaded.method(number);
        if !self.holds_below(loaded, receiver, method.class) {
            return Err(Refusal::PremiseMissing);
        }
        if !self.holds_all(arguments.objects(), method.parameters()) {
            return Err(Refusal::PremiseMissing);
        }
        let own = loaded.method(runs).class;
        if !self.is_a(loaded, receiver, own) {
            return Err(Refusal::PremiseMissing);
        }
        if !loaded.runs_for(runs, number) {
            return Err(Refusal::PremiseMissing);
        }
        if self.depth() == SAVED_FRAMES {
            return Err(Refusal::NoRoom);
        }
        self.push(runs, method.result);
        self.insert_label(Label {
            object: receiver,
            class: own,
        });
        self.pass(arguments.objects(), method.parameters());
        Ok(())
    }

    pub(crate) fn give_back(&mut self, loaded: &Loaded, value: Option<u8>) -> Result<(), Refusal>
        ensures outcome { outcome_of result self.new ≡ taken (view loaded.now) self.old (step.Return value) }
        ensures refused { OnErr result (self.new ≡ self.old) }
    {
        let object = value.unwrap_or(NOTHING);
        match self.pending() {
            None => Err(Refusal::NoSavedFrame),
            Some(None) => {
                if object != NOTHING {
                    return Err(Refusal::PremiseMissing);
                }
                self.pop();
                Ok(())
            }
            Some(Some(class)) => {
                let label = Label { object, class };
                if !self.holds(label) {
                    return Err(Refusal::PremiseMissing);
                }
                if !has_room(self.caller_labels(), label) {
                    return Err(Refusal::NoRoom); // before anything is written
                }
                self.pop();
                self.insert_label(label);
                Ok(())
            }
        }
    }
}
