//! What `run` prints, as a function of its input's bytes.
#![tactic(auto)]

ghost use Rattle.std.specs.Prelude.{◌≡◌, length};
ghost use Rattle.runs.specs.Programs.{run_output};
ghost use Rattle.programs.specs.Fitting.{fitting, written};

mod cut;

use programs::{ANSWER_LINE, LONGEST_INPUT, TOO_LONG};

/// The room for the longest text: an answer's line and 800 holdings.
pub const ROOM: usize = 7213;

/// The answer's line and the holdings at the buffer's start; the bytes behind them stay, and a buffer with less room than the longest text needs stays as it is.
pub fn run_output(input: &[u8], out: &mut [u8]) -> usize
    ensures length { result ≡ length (fitting 7213 (run_output input.now) out.old) }
    ensures bytes { out.new ≡ written 7213 (run_output input.now) out.old }
{
    if out.len() < ROOM {
        return 0;
    }
    if LONGEST_INPUT < input.len() {
        printing::put_answer(out, TOO_LONG);
        return ANSWER_LINE;
    }
    let (package, script) = input.split_at(cut::cut(input));
    let ran = runner::run(package, script, &mut out[ANSWER_LINE..]);
    printing::put_answer(out, ran.answer);
    ANSWER_LINE + usize::from(ran.length)
}
