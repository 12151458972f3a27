//! An effect with the method that has it and what it names, and the five rules asked of it. Below, A is the effect's class, m the method that has it.
ghost use Rattle.std.specs.Prelude.{◌≡◌, ℕ, ◌<◌, ◌≤◌, ◌&&◌, false, length};
ghost use Rattle.meaning.specs.Tables.{home, target_of, potency_of, params_of, caller_of, op_of, named_by};
ghost use Rattle.meaning.specs.Tests.{dominated, granted, breaks26, breaks27, breaks28, breaks29, breaks30};
ghost use Rattle.tables.specs.View.{operation_number, view};
ghost use Rattle.effect_rules.specs.declared.rule.EffectRule.TheVariants.{Argument};
ghost use Rattle.effect_rules.specs.Sites.{DoesBy, IsField, IsMethod, Names, IsDeclared, IsEffect};
ghost use Rattle.effect_rules.specs.Facts.{Names-fact};
ghost use Rattle.effect_rules.specs.Rules.{breaks_of, seconds_of, places_of};
ghost use Rattle.effect_rules.specs.Search.{broken_at, lowest_at};

use crate::rule::EffectRule;
use tables::{Effect, Field, Method, Operation, Tables};
use trust::Trust;

/// What an effect does, with what its number names: no other row of the tables is read.
#[derive(Clone, Copy)]
pub(crate) enum Named<'a> {
    Created(u8),
    CastTo(u8),
    Read(&'a Field),
    Written(&'a Field),
    CalledStatic(&'a Method),
    Called(&'a Method),
}

/// An effect of the tables.
#[derive(Clone, Copy)]
pub(crate) struct Site<'a> {
    trust: &'a Trust<'a>,
    number: usize,
    caller: &'a Method,
    named: Named<'a>,
    ghost declared: { number < length trust.now.effects },
    ghost calling: { IsMethod (view trust.now) (caller_of (view trust.now) number) caller.now },
    ghost does: { DoesBy (op_of (view trust.now) number) named },
    ghost names: { Names (view trust.now) (named_by (view trust.now) number) named } by { Names-fact (view trust.now) (named_by (view trust.now) number) named },
}

fn effect_at(tables: &Tables, number: usize) -> Effect
    requires { number < length tables.now.effects }
    ensures { IsEffect (view tables.now) number result }
{
    tables.effects()[number]
}

fn field_at(tables: &Tables, number: u8) -> &Field
    requires { number < length (view tables.now).fields }
    ensures { IsField (view tables.now) number result.now }
{
    &tables.fields()[usize::from(number)]
}

fn method_at(tables: &Tables, number: u8) -> &Method
    requires { number < length (view tables.now).methods }
    ensures { IsMethod (view tables.now) number result.now }
{
    &tables.methods()[usize::from(number)]
}

// What an effect does, and with what.
fn named_by(tables: &Tables, effect: Effect) -> Named<'_>
    requires { IsDeclared (view tables.now) effect }
    ensures does { DoesBy (operation_number effect.operation) result }
    ensures names { Names (view tables.now) effect.number result }
{
    let number = effect.number;
    match effect.operation {
        Operation::New => Named::Created(number),
        Operation::CheckCast => Named::CastTo(number),
        Operation::GetStatic | Operation::GetField => Named::Read(field_at(tables, number)),
        Operation::PutStatic | Operation::PutField => Named::Written(field_at(tables, number)),
        Operation::InvokeStatic => Named::CalledStatic(method_at(tables, number)),
        Operation::InvokeMethod => Named::Called(method_at(tables, number)),
    }
}

impl<'a> Site<'a> {
    /// Effect `number` of the tables.
    pub(crate) fn new(trust: &'a Trust<'a>, number: usize) -> Self
        requires { number < length trust.now.effects }
        ensures of { result.trust.now ≡ trust.now }
        ensures at { result.number ≡ number }
    {
        let tables = trust.tables();
        let effect = effect_at(tables, number);
        Site {
            trust,
            number,
            caller: method_at(tables, effect.method),
            named: named_by(tables, effect),
        }
    }

    /// 26: a class is created or cast to that does not trust the effect's.
    pub(crate) fn breaks_creation(&self) -> bool
        ensures { (second : ℕ) → result ≡ breaks26 (view self.now.trust.now) self.now.number second }
    {
        let trust = self.trust;
        match self.named {
            Named::Created(class) | Named::CastTo(class) => !trust.trusts(class, self.caller.class),
            Named::Read(_) | Named::Written(_) | Named::CalledStatic(_) | Named::Called(_) => false,
        }
    }

    /// 27: a value crosses over at a type that does not trust who comes by it: the effect's class by what it reads or a call
    /// returns, the field's class by what is written.
    pub(crate) fn breaks_typing(&self) -> bool
        ensures { (second : ℕ) → result ≡ breaks27 (view self.now.trust.now) self.now.number second }
    {
        let trust = self.trust;
        let here = self.caller.class;
        match self.named {
            Named::Created(_) | Named::CastTo(_) => false,
            Named::Read(field) => trust.keeps_from(here, here, field.class, field.typ),
            Named::Written(field) => trust.keeps_from(field.class, here, field.class, field.typ),
            Named::CalledStatic(method) | Named::Called(method) => match method.result {
                None => false,
                Some(result) => trust.keeps_from(here, here, method.class, result),
            },
        }
    }

    /// 28: a static call of a class that does not trust the effect's.
    pub(crate) fn breaks_static_call(&self) -> bool
        ensures { (second : ℕ) → result ≡ breaks28 (view self.now.trust.now) self.now.number second }
    {
        match self.named {
            Named::CalledStatic(method) => !self.trust.trusts(method.class, self.caller.class),
            Named::Created(_)
            | Named::CastTo(_)
            | Named::Read(_)
            | Named::Written(_)
            | Named::Called(_) => false,
        }
    }

    /// 29: a method is invoked that does not trust the one that has the effect.
    pub(crate) fn breaks_invocation(&self) -> bool
        ensures { (second : ℕ) → result ≡ breaks29 (view self.now.trust.now) self.now.number second }
    {
        match self.named {
            Named::CalledStatic(method) | Named::Called(method) => {
                let invoked = method.label;
                !self.trust.dominates(invoked, self.caller.label)
            }
            Named::Created(_) | Named::CastTo(_) | Named::Read(_) | Named::Written(_) => false,
        }
    }

    // What the label of the method that has the effect may grant to, and what it may grant: the same domain today.
    fn target(&self) -> u8
        ensures { result ≡ self.now.caller.now.label }
    {
        self.caller.label
    }

    fn potency(&self) -> u8
        ensures { result ≡ self.now.caller.now.label }
    {
        self.caller.label
    }

    // Whether the label grants a class what is of a type: the class's domain dominates the target, and the type's the potency.
    fn label_grants(&self, receiver: u8, typ: u8) -> bool
        ensures { result ≡ (dominated (view self.now.trust.now) (home (view self.now.trust.now) receiver) (target_of (view self.now.trust.now) (caller_of (view self.now.trust.now) self.now.number)) && dominated (view self.now.trust.now) (home (view self.now.trust.now) typ) (potency_of (view self.now.trust.now) (caller_of (view self.now.trust.now) self.now.number))) }
    {
        let trust = self.trust;
        trust.dominates(trust.home(receiver), self.target())
            && trust.dominates(trust.home(typ), self.potency())
    }

    // Whether a class may come by an argument of a type, in one of three ways: the type trusts it, it is a mate of the effect's
    // class, or the label grants it.
    #[tactic(auto, unfolding(meaning::specs::Tests::granted))]
    fn is_granted(&self, receiver: u8, typ: u8) -> bool
        ensures { result ≡ granted (view self.now.trust.now) (caller_of (view self.now.trust.now) self.now.number) self.now.caller.now.class receiver typ }
    {
        let trust = self.trust;
        trust.trusts(typ, receiver)
            || trust.are_mates(self.caller.class, receiver)
            || self.label_grants(receiver, typ)
    }

    /// 30: a method is called whose class may not come by an argument of this parameter's type.
    pub(crate) fn breaks_argument(&self, parameter: usize) -> bool
        requires { parameter < length (params_of (view self.now.trust.now) (named_by (view self.now.trust.now) self.now.number)) }
        ensures { result ≡ breaks30 (view self.now.trust.now) self.now.number parameter }
    {
        match self.named {
            Named::CalledStatic(method) | Named::Called(method) => {
                let typ = method.parameters()[parameter];
                !self.is_granted(method.class, typ)
            }
            Named::Created(_) | Named::CastTo(_) | Named::Read(_) | Named::Written(_) => false,
        }
    }

    /// How many second places may break a rule beside the effect: the parameters of what is called for 30, and one for the others.
    pub(crate) fn places(&self, rule: EffectRule) -> usize
        ensures value { result ≡ places_of rule self.now.named }
        ensures most { result ≤ seconds_of rule (view self.now.trust.now) self.now.number }
        ensures rest { (second : ℕ) → result ≤ second → second < seconds_of rule (view self.now.trust.now) self.now.number → breaks_of rule (view self.now.trust.now) self.now.number second ≡ false }
    {
        match rule {
            EffectRule::Creation
            | EffectRule::Typing
            | EffectRule::StaticCall
            | EffectRule::Invocation => 1,
            EffectRule::Argument => match self.named {
                Named::CalledStatic(method) | Named::Called(method) => method.parameters().len(),
                Named::Created(_) | Named::CastTo(_) | Named::Read(_) | Named::Written(_) => 0,
            },
        }
    }

    /// Whether the effect breaks a rule, at a second place.
    pub(crate) fn breaks(&self, rule: EffectRule, second: usize) -> bool
        requires { second < seconds_of rule (view self.now.trust.now) self.now.number }
        ensures { result ≡ breaks_of rule (view self.now.trust.now) self.now.number second }
    {
        match rule {
            EffectRule::Creation => self.breaks_creation(),
            EffectRule::Typing => self.breaks_typing(),
            EffectRule::StaticCall => self.breaks_static_call(),
            EffectRule::Invocation => self.breaks_invocation(),
            EffectRule::Argument => self.breaks_argument(second),
        }
    }

    // Whether the effect breaks 30 at some parameter.
    fn breaks_some_argument(&self) -> bool
        ensures { result ≡ broken_at Argument (view self.now.trust.now) self.now.number }
    {
        for parameter in 0..self.places(EffectRule::Argument) {
            if self.breaks_argument(parameter) {
                return true;
            }
        }
        false
    }

    /// The lowest rule that the effect breaks.
    #[tactic(auto, using(crate::proofs::Together::lowest_at_is))]
    pub(crate) fn lowest_broken(&self) -> Option<EffectRule>
        ensures { result ≡ lowest_at (view self.now.trust.now) self.now.number }
    {
        if self.breaks_creation() {
            Some(EffectRule::Creation)
        } else if self.breaks_typing() {
            Some(EffectRule::Typing)
        } else if self.breaks_static_call() {
            Some(EffectRule::StaticCall)
        } else if self.breaks_invocation() {
            Some(EffectRule::Invocation)
        } else if self.breaks_some_argument() {
            Some(EffectRule::Argument)
        } else {
            None
        }
    }
}
