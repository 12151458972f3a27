//! The checker: the answer to a package text, whatever its bytes are.
#![tactic(auto)]

ghost use Rattle.std.specs.Prelude.{◌≡◌, ◌<◌, ◌^◌, ℕ, List, Ok, IfOk, MatchResult};
ghost use Rattle.meaning.specs.Check.{check_of};
ghost use Rattle.meaning.specs.Reading as M;
ghost use Rattle.answer.specs.Answers.{answer_of};
ghost use Rattle.tables.specs.View.{view};
ghost use Rattle.checker.specs.Accepting.{Reads, IsAccepted, IsRefused};

use answer::Answer;
use sections::Refused;
use tables::Tables;
use verdict::verdict;

/// A text's refusal: its number, and the line at which it is refused.
pub fn refused_at(number: u8, line: usize) -> Answer
    requires { line < 2 ^ 16 }
    ensures { result ≡ answer_of (M.answer number line 0) }
{
    Answer {
        number,
        first: line as u16,
        second: 0,
    }
}

/// The tables, where they were read of a text that breaks no rule; or the answer to the text, which is not 0. They are lent, since they are large:
/// a copy of them costs as much as a small package.
#[tactic(auto, using(crate::proofs::Answered::answered))]
pub fn accepted(reading: &Result<Tables, Refused>) -> Result<&Tables, Answer>
    requires { (text : List ℕ) × Reads text reading.now }
    ensures meaning { (text : List ℕ) → Reads text reading.now → MatchResult result (λ tables. IsAccepted text (view tables.now)) (λ told. IsRefused text told) }
    ensures lent { IfOk result (λ tables. reading.now ≡ Ok tables.now) }
{
    // a refusal's line fits two bytes by what `read` promises of the text, which no `From` could know
    let tables = match reading {
        Ok(tables) => tables,
        Err(refused) => return Err(refused_at(refused.refusal.number(), refused.line)),
    };
    verdict(tables)?;
    Ok(tables)
}

/// The answer to a package text.
#[tactic(auto, using(crate::proofs::Answered::answered))]
pub fn check(text: &[u8]) -> Answer
    ensures { result ≡ answer_of (check_of text.now) }
{
    match accepted(&package::read(text)) {
        Ok(_) => Answer {
            number: 0,
            first: 0,
            second: 0,
        },
        Err(told) => told,
    }
}
