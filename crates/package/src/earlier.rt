//! What stands in a text before a section.
ghost use Rattle.std.specs.Prelude.{◌≡◌, ltb};
ghost use Rattle.package.specs.Judging.{has_field, has_method};
ghost use Rattle.tables.specs.View.{mode_number};

use tables::{Field, Method, Mode};

/// How many domains and classes are declared, and the fields and methods that are.
#[derive(Clone, Copy)]
pub struct Earlier<'a> {
    pub domains: usize,
    pub classes: usize,
    pub fields: &'a [Field],
    pub methods: &'a [Method],
}

impl<'a> Earlier<'a> {
    pub(crate) fn is_domain(&self, number: u8) -> bool
        ensures { result ≡ ltb number self.now.domains }
    {
        usize::from(number) < self.domains
    }

    pub(crate) fn is_class(&self, number: u8) -> bool
        ensures { result ≡ ltb number self.now.classes }
    {
        usize::from(number) < self.classes
    }

    // A field of this number and mode.
    #[tactic(auto, unfolding(crate::specs::Judging::has_field))]
    pub(crate) fn is_field(&self, number: u8, mode: Mode) -> bool
        ensures { result ≡ has_field self.now.fields.now number (mode_number mode) }
    {
        match self.fields.get(usize::from(number)) {
            Some(field) => field.mode == mode,
            None => false,
        }
    }

    #[tactic(auto, unfolding(crate::specs::Judging::has_method))]
    pub(crate) fn is_method(&self, number: u8, mode: Mode) -> bool
        ensures { result ≡ has_method self.now.methods.now number (mode_number mode) }
    {
        match self.methods.get(usize::from(number)) {
            Some(method) => method.mode == mode,
            None => false,
        }
    }
}
