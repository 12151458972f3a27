//! The steps on labels, objects and links: each asks its premises in order, and writes only after the last one.

ghost use Rattle.std.specs.Prelude.{◌≡◌, OnErr};
ghost use Rattle.tables.specs.View.{view};
ghost use Rattle.machine.specs.Snapshot.{class_at, outcome_of};
ghost use Rattle.machine.specs.Steps.{holds_below, is_instance, link, read, write, taken};

use crate::label::Label;
use crate::link::{Link, NO_OWNER};
use crate::loaded::Loaded;
use crate::refusal::Refusal;
use crate::state::State;

/// The link of a field: it carries the declaring class and the type.
fn link(loaded: &Loaded, owner: u8, number: u8, target: u8) -> Link
    ensures { result ≡ link (view loaded.now) owner number target }
{
    let field = loaded.field(number);
    Link {
        owner,
        declared: field.class,
        typ: field.typ,
        target,
    }
}

impl State {
    ghost use Rattle.machine.specs.declared.step.Step.TheVariants as step;

    /// Whether the running frame has the object at this class or one below it.
    pub fn holds_below(&self, loaded: &Loaded, object: u8, class: u8) -> bool
        ensures { result ≡ holds_below (view loaded.now) self.now.labels object class }
    {
        self.labels().iter().any(|held| held.object == object
            && loaded.is_subtype(held.class, class))
    }

    /// Whether this is the number of an object whose class is this one or below it.
    pub fn is_a(&self, loaded: &Loaded, object: u8, class: u8) -> bool
        ensures { result ≡ is_instance (view loaded.now) (class_at self.now object) class }
    {
        match self.class_of(object) {
            Some(own) => loaded.is_subtype(own, class),
            None => false,
        }
    }

    pub(crate) fn widen(&mut self, loaded: &Loaded, object: u8, class: u8) -> Result<(), Refusal>
        ensures outcome { outcome_of result self.new ≡ taken (view loaded.now) self.old (step.Widen object class) }
        ensures refused { OnErr result (self.new ≡ self.old) }
    {
        if !self.holds_below(loaded, object, class) {
            return Err(Refusal::PremiseMissing);
        }
        self.add_label(Label { object, class })
    }

    pub(crate) fn create(&mut self, loaded: &Loaded, object: u8, class: u8) -> Result<(), Refusal>
        ensures outcome { outcome_of result self.new ≡ taken (view loaded.now) self.old (step.New object class) }
        ensures refused { OnErr result (self.new ≡ self.old) }
    {
        if self.class_of(object).is_some() {
            return Err(Refusal::PremiseMissing);
        }
        self.add_object(object, class)
    }

    pub(crate) fn check_cast(
        &mut self,
        loaded: &Loaded,
        object: u8,
        class: u8,
    ) -> Result<(), Refusal>
        ensures outcome { outcome_of result self.new ≡ taken (view loaded.now) self.old (step.CheckCast object class) }
        ensures refused { OnErr result (self.new ≡ self.old) }
    {
        if !self.sees(object) {
            return Err(Refusal::PremiseMissing);
        }
        if !self.is_a(loaded, object, class) {
            return Err(Refusal::PremiseMissing);
        }
        self.add_label(Label { object, class })
    }

    /// The target of a link that is there joins the running frame at the link's type.
    fn read(&mut self, link: Link) -> Result<(), Refusal>
        ensures outcome { outcome_of result self.new ≡ read self.old link }
        ensures refused { OnErr result (self.new ≡ self.old) }
    {
        if !self.is_linked(link) {
            return Err(Refusal::PremiseMissing);
        }
        self.add_label(Label {
            object: link.target,
            class: link.typ,
        })
    }

    /// A link whose target the running frame has at the link's type joins the links.
    fn write(&mut self, link: Link) -> Result<(), Refusal>
        ensures outcome { outcome_of result self.new ≡ write self.old link }
        ensures refused { OnErr result (self.new ≡ self.old) }
    {
        let stored = Label {
            object: link.target,
            class: link.typ,
        };
        if !self.holds(stored) {
            return Err(Refusal::PremiseMissing);
        }
        self.add_link(link)
    }

    pub(crate) fn get_static(
        &mut self,
        loaded: &Loaded,
        field: u8,
        value: u8,
    ) -> Result<(), Refusal>
        ensures outcome { outcome_of result self.new ≡ taken (view loaded.now) self.old (step.GetStatic field value) }
        ensures refused { OnErr result (self.new ≡ self.old) }
    {
        self.read(link(loaded, NO_OWNER, field, value))
    }

    pub(crate) fn put_static(
        &mut self,
        loaded: &Loaded,
        field: u8,
        value: u8,
    ) -> Result<(), Refusal>
        ensures outcome { outcome_of result self.new ≡ taken (view loaded.now) self.old (step.PutStatic field value) }
        ensures refused { OnErr result (self.new ≡ self.old) }
    {
        self.write(link(loaded, NO_OWNER, field, value))
    }

    pub(crate) fn get_field(
        &mut self,
        loaded: &Loaded,
        field: u8,
        owner: u8,
        value: u8,
    ) -> Result<(), Refusal>
        ensures outcome { outcome_of result self.new ≡ taken (view loaded.now) self.old (step.GetField field owner value) }
        ensures refused { OnErr result (self.new ≡ self.old) }
    {
        let link = link(loaded, owner, field, value);
        if !self.holds_below(loaded, owner, link.declared) {
            return Err(Refusal::PremiseMissing);
        }
        self.read(link)
    }

    pub(crate) fn put_field(
        &mut self,
        loaded: &Loaded,
        field: u8,
        owner: u8,
        value: u8,
    ) -> Result<(), Refusal>
        ensures outcome { outcome_of result self.new ≡ taken (view loaded.now) self.old (step.PutField field owner value) }
        ensures refused { OnErr result (self.new ≡ self.old) }
    {
        let link = link(loaded, owner, field, value);
        if !self.holds_below(loaded, owner, link.declared) {
            return Err(Refusal::PremiseMissing);
        }
        self.write(link)
    }
}
