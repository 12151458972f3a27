//! The rules over effects, in the order in which they are asked.
ghost use Rattle.std.specs.Prelude.{◌≡◌};
ghost use Rattle.effect_rules.specs.Rules.{rule_of};

use rules::Rule;

/// The five, lowest first.
#[derive(Clone, Copy, Debug, PartialEq, Eq, PartialOrd, Ord)]
pub(crate) enum EffectRule {
    Creation,
    Typing,
    StaticCall,
    Invocation,
    Argument,
}

impl From<EffectRule> for Rule {
    ghost from_gives = { λ rule named. named ≡ rule_of rule };

    fn from(rule: EffectRule) -> Rule {
        match rule {
            EffectRule::Creation => Rule::DistrustedCreation,
            EffectRule::Typing => Rule::DistrustedType,
            EffectRule::StaticCall => Rule::DistrustedStaticCall,
            EffectRule::Invocation => Rule::DistrustedInvocation,
            EffectRule::Argument => Rule::UngrantedArgument,
        }
    }
}
