//! What `check` prints, as a function of its input's bytes.
#![tactic(auto)]

ghost use Rattle.std.specs.Prelude.{◌≡◌, nat_le, length};
ghost use Rattle.meaning.specs.Check.{check_of};
ghost use Rattle.runs.specs.Programs.{if_short, only_answer, check_output};
ghost use Rattle.answer.specs.Answers.{answer_of};
ghost use Rattle.programs.specs.Fitting.{fitting, written};

use answer::Answer;

/// How many bytes an input has at most: a longer one is answered with 1.
pub const LONGEST_INPUT: usize = 65536;

/// What a longer input is answered with.
pub const TOO_LONG: Answer = Answer {
    number: 1,
    first: 0,
    second: 0,
};

/// How many bytes the line of an answer has.
pub const ANSWER_LINE: usize = 13;

fn answer_to(input: &[u8]) -> Answer
    ensures { result ≡ answer_of (if_short (nat_le (length input.now) 65536) (only_answer (check_of input.now))).answer }
{
    if input.len() <= LONGEST_INPUT {
        checker::check(input)
    } else {
        TOO_LONG
    }
}

/// The answer's line at the buffer's start; the bytes behind it stay, and a buffer without room for it stays as it is.
#[tactic(auto, using(crate::proofs::Printed::printed), unfolding(runs::specs::Programs::check_output))]
pub fn check_output(input: &[u8], out: &mut [u8]) -> usize
    ensures length { result ≡ length (fitting 13 (check_output input.now) out.old) }
    ensures bytes { out.new ≡ written 13 (check_output input.now) out.old }
{
    if out.len() < ANSWER_LINE {
        return 0;
    }
    printing::put_answer(out, answer_to(input));
    ANSWER_LINE
}
