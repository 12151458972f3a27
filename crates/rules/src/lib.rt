//! The rules that a package may break, and the first place at which one is broken.
#![tactic(auto)]

ghost use Rattle.std.specs.Prelude.{◌≡◌, Some};
ghost use Rattle.answer.specs.Answers.{answer_of};
ghost use Rattle.meaning.specs.Reading.{answer};
ghost use Rattle.rules.specs.Numbers.{number_of};
ghost use Rattle.rules.specs.Texts.{rule_text, broken_text};

use answer::Answer;
use std::fmt;

/// A rule of packages, in the order in which they are asked.
#[derive(Clone, Copy, Debug, PartialEq, Eq)]
pub enum Rule {
    /// Distinct domains dominate each other. The places are the two domains.
    MutualDominance,
    /// Instance methods of one slot differ in their parameters or their return type. The places of this rule and the next are two methods.
    SlotTypesDiffer,
    /// A class declares two instance methods of one slot.
    SlotDeclaredTwice,
    /// A supertype does not trust its subtype. The places are the subtype and the supertype.
    DistrustedSubtype,
    /// Two classes are not suspicious, and have supertypes that are. The places are the two classes.
    LostSuspicion,
    /// An overriding method does not trust the method that it overrides. The places of this rule and the next two are the overriding method and the overridden one.
    DistrustingOverride,
    /// A method of another domain overrides one whose return type does not trust the class that declares it.
    OverriddenResult,
    /// A method of another domain overrides one with a parameter type that does not trust the overriding class.
    OverriddenParameter,
    /// An effect makes an object of a class, or casts to one, that does not trust the effect's class. The place of this rule and the next three is an effect.
    DistrustedCreation,
    /// An effect brings a value over a border of domains, at a type that does not trust the class that comes by it.
    DistrustedType,
    /// A static call of a class that does not trust the caller's.
    DistrustedStaticCall,
    /// A method invokes one that does not trust it.
    DistrustedInvocation,
    /// An argument of a call whose type neither trusts the receiver's class nor is granted to it. The places are the effect and the parameter.
    UngrantedArgument,
}

impl From<Rule> for u8 {
    ghost from_gives = { λ rule number. number ≡ number_of rule };

    fn from(rule: Rule) -> u8 {
        match rule {
            Rule::MutualDominance => 10,
            Rule::SlotTypesDiffer => 11,
            Rule::SlotDeclaredTwice => 12,
            Rule::DistrustedSubtype => 21,
            Rule::LostSuspicion => 22,
            Rule::DistrustingOverride => 23,
            Rule::OverriddenResult => 24,
            Rule::OverriddenParameter => 25,
            Rule::DistrustedCreation => 26,
            Rule::DistrustedType => 27,
            Rule::DistrustedStaticCall => 28,
            Rule::DistrustedInvocation => 29,
            Rule::UngrantedArgument => 30,
        }
    }
}

impl fmt::Display for Rule {
    ghost output = { λ rule. Some (rule_text rule) };

    fn fmt<W: fmt::Write>(&self, f: &mut fmt::Formatter<W>) -> fmt::Result {
        f.write_str(match self {
            Rule::MutualDominance =>
                "two domains dominate each other: remove one of the pairs that lead around",
            Rule::SlotTypesDiffer =>
                "two methods of one slot differ in their parameters or return type: give the second a slot of its own",
            Rule::SlotDeclaredTwice =>
                "a class declares a slot twice: remove one of the two methods or give it another slot",
            Rule::DistrustedSubtype =>
                "a class lies under one that does not trust it: its domain has to dominate the supertype's",
            Rule::LostSuspicion =>
                "two classes can exchange what their supertypes keep apart: move one of them to another domain",
            Rule::DistrustingOverride =>
                "a method overrides one whose label does not dominate its own: lower the label of the overriding method",
            Rule::OverriddenResult =>
                "a method overrides one of another domain, whose return type does not trust the class that declares it",
            Rule::OverriddenParameter =>
                "a method overrides one of another domain, and a parameter's type does not trust the overriding class",
            Rule::DistrustedCreation =>
                "a method makes or casts to a class that its domain does not dominate: the object has to be handed to it at a type that it may have",
            Rule::DistrustedType =>
                "a method takes or leaves a value of another domain, at a type that does not trust whoever comes by it",
            Rule::DistrustedStaticCall =>
                "a static call of a class whose domain the caller's does not dominate: call through an object that was handed over",
            Rule::DistrustedInvocation =>
                "a method invokes one whose label its own does not dominate: the caller's label has to dominate the called method's",
            Rule::UngrantedArgument =>
                "an argument's type does not trust the receiver, and the caller's label does not grant it: hand over a wider type, or let a method do it whose label dominates both domains",
        })
    }
}

/// A broken rule, and the first place at which it is broken.
#[derive(Clone, Copy, Debug, PartialEq, Eq)]
pub struct Broken {
    pub rule: Rule,
    pub first: u16,
    pub second: u16,
}

impl fmt::Display for Broken {
    ghost output = { λ broken. Some (broken_text broken) };

    fn fmt<W: fmt::Write>(&self, f: &mut fmt::Formatter<W>) -> fmt::Result {
        write!(
            f,
            "rule {} at {}, {}: {}",
            u8::from(self.rule),
            self.first,
            self.second,
            self.rule
        )
    }
}

impl From<Broken> for Answer {
    ghost from_gives = { λ broken told. told ≡ answer_of (answer (number_of broken.rule) broken.first broken.second) };

    fn from(broken: Broken) -> Answer {
        Answer {
            number: broken.rule.into(),
            first: broken.first,
            second: broken.second,
        }
    }
}
