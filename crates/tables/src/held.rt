//! The tables of a package that was read: every count is in its limit, every number is declared.
ghost use Rattle.std.specs.Prelude.{◌≡◌, slice_get};
ghost use Rattle.std.specs.Option.{option_copied};
ghost use Rattle.meaning.specs.Good.{Good};
ghost use Rattle.tables.specs.Contents.{Contents};
ghost use Rattle.tables.specs.View.{view};

use crate::elements::{Class, Effect, Field, Method, Pair};
use counted::Filled;
use std::marker::Model;

#[derive(Clone, Copy)]
pub struct Tables {
    generation: u8,
    domains: u8,
    pairs: Filled<Pair, 128>,
    classes: Filled<Class, 127>,
    fields: Filled<Field, 256>,
    methods: Filled<Method, 256>,
    effects: Filled<Effect, 1024>,
}

impl Model for Tables {
    ghost use Rattle.tables.specs.Contents.{Contents};

    ghost Value = { Contents };

    ghost use Rattle.tables.specs.Held.{contents_of, inside_of, IsGood};

    ghost view = { contents_of };

    ghost invariant = { IsGood };

    ghost inverse = { inside_of };
}

impl Tables {
    /// The tables with these elements.
    pub fn new(
        generation: u8,
        domains: u8,
        pairs: Filled<Pair, 128>,
        classes: Filled<Class, 127>,
        fields: Filled<Field, 256>,
        methods: Filled<Method, 256>,
        effects: Filled<Effect, 1024>,
    ) -> Self
        requires { Good (view (record { generation = generation; domains = domains; pairs = pairs; classes = classes; fields = fields; methods = methods; effects = effects })) }
        ensures { result ≡ record { generation = generation; domains = domains; pairs = pairs; classes = classes; fields = fields; methods = methods; effects = effects } }
    {
        Tables {
            generation,
            domains,
            pairs,
            classes,
            fields,
            methods,
            effects,
        }
    }

    /// The generation byte of the package, 2.
    pub fn generation(&self) -> u8
        ensures value { result ≡ self.now.generation }
    {
        self.generation
    }

    /// How many domains there are.
    pub fn domains(&self) -> u8
        ensures value { result ≡ self.now.domains }
        ensures good { Good (view self.now) }
    {
        self.domains
    }

    pub fn pairs(&self) -> &[Pair]
        ensures value { result.now ≡ self.now.pairs }
        ensures good { Good (view self.now) }
    {
        self.pairs.as_slice()
    }

    pub fn classes(&self) -> &[Class]
        ensures value { result.now ≡ self.now.classes }
        ensures good { Good (view self.now) }
    {
        self.classes.as_slice()
    }

    pub fn fields(&self) -> &[Field]
        ensures value { result.now ≡ self.now.fields }
        ensures good { Good (view self.now) }
    {
        self.fields.as_slice()
    }

    pub fn methods(&self) -> &[Method]
        ensures value { result.now ≡ self.now.methods }
        ensures good { Good (view self.now) }
    {
        self.methods.as_slice()
    }

    pub fn effects(&self) -> &[Effect]
        ensures value { result.now ≡ self.now.effects }
        ensures good { Good (view self.now) }
    {
        self.effects.as_slice()
    }

    /// The class of this number, if one is declared.
    pub fn class(&self, number: u8) -> Option<&Class>
        ensures value { option_copied result ≡ slice_get self.now.classes number }
        ensures good { Good (view self.now) }
    {
        self.classes.as_slice().get(usize::from(number))
    }

    /// The field of this number, if one is declared.
    pub fn field(&self, number: u8) -> Option<&Field>
        ensures value { option_copied result ≡ slice_get self.now.fields number }
        ensures good { Good (view self.now) }
    {
        self.fields.as_slice().get(usize::from(number))
    }

    /// The method of this number, if one is declared.
    pub fn method(&self, number: u8) -> Option<&Method>
        ensures value { option_copied result ≡ slice_get self.now.methods number }
        ensures good { Good (view self.now) }
    {
        self.methods.as_slice().get(usize::from(number))
    }
}
