//! The functions to link from C and Rust, as Rattle calls them; `dcc_c` exports them.
#![tactic(auto)]

ghost use Rattle.std.specs.Prelude.{◌≡◌};
ghost use Rattle.meaning.specs.Check.{check_of};
ghost use Rattle.runs.specs.Programs.{run_of};
ghost use Rattle.dcc.specs.Packed.{packed, packed_run};

use answer::Answer;

/// 16 bits for the number of an answer, and 16 for each of its two places.
fn packed(answer: Answer) -> u64
    ensures { result ≡ packed (record { number = answer.number; first = answer.first; second = answer.second }) }
{
    u64::from(answer.number)
        + u64::from(answer.first) * 65536
        + u64::from(answer.second) * 4294967296
}

/// The answer to a package text in one number.
pub fn dcc_check(text: &[u8]) -> u64
    ensures { result ≡ packed (check_of text.now) }
{
    packed(checker::check(text))
}

/// The answer to a package text and a run text, with 16 bits for the length of the holdings that then stand at the buffer's start.
pub fn dcc_run(package: &[u8], script: &[u8], out: &mut [u8]) -> u64
    ensures answer { result ≡ packed_run (run_of «package».now script.now out.old) }
    ensures buffer { out.new ≡ (run_of «package».now script.now out.old).buffer }
{
    let ran = runner::run(package, script, out);
    packed(ran.answer) + u64::from(ran.length) * 281474976710656
}
