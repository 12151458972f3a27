//! A run: a package text and a run text in, the answer and the holdings out, whatever their bytes are.
#![tactic(auto)]

ghost use Rattle.std.specs.Prelude.{◌≡◌, ◌<◌, ◌≤◌, ◌^◌, length};
ghost use Rattle.runs.specs.Script.{read_script};
ghost use Rattle.runs.specs.Programs.{of_script, write, run_of};
ghost use Rattle.runs.specs.Reach.{Confined};
ghost use Rattle.answer.specs.Answers.{answer_of};
ghost use Rattle.tables.specs.View.{view};
ghost use Rattle.machine.specs.Reached.{answer_in};
ghost use Rattle.runner.specs.Answers.{ran_as, ran_of, Leaves};

use answer::Answer;
use machine::{Loaded, Report};
use script::Draft;
use tables::Tables;

/// How many bytes a buffer has at least: the room for the holdings of any state.
pub const BUFFER: usize = 7200;

/// What a shorter buffer is answered with.
const SHORT_BUFFER: Answer = Answer {
    number: 65,
    first: 0,
    second: 0,
};

/// The answer to a run, and how many bytes of holdings stand at the buffer's start.
#[derive(Clone, Copy, Debug, PartialEq, Eq)]
pub struct RunAnswer {
    pub answer: Answer,
    pub length: u16,
}

/// How a run ended: 0, or why a step was refused and its line; and how many steps were taken.
fn answer_to(report: Report) -> Answer
    requires { report.taken < 2 ^ 16 }
    ensures { result ≡ answer_of (answer_in report.taken report.stopped) }
{
    let (number, first) = match report.stopped {
        Some(stopped) => (stopped.refusal.into(), stopped.line),
        None => (0, 0),
    };
    Answer {
        number,
        first,
        second: report.taken as u16,
    }
}

/// The run text over the tables of an accepted package; its refusal leaves the buffer as it was.
fn run_script(tables: &Tables, script: &[u8], out: &mut [u8]) -> Result<RunAnswer, Answer>
    requires { 7200 ≤ length out.old }
    ensures { Leaves (write (of_script (view tables.now) (read_script (view tables.now) script.now)) out.old) (ran_of result) out.new }
{
    let loaded = Loaded::new(tables);
    let mut draft = Draft::new();
    match script::read(script, &loaded, &mut draft) {
        Ok(()) => {}
        Err(refused) => return Err(checker::refused_at(refused.refusal.run_number(), refused.line)),
    }
    let script = &mut draft.script;
    let report = script.start.run(&loaded, script.steps.as_slice());
    let length = holdings::write_holdings(&script.start, tables, out);
    Ok(RunAnswer {
        answer: answer_to(report),
        length: length as u16,
    })
}

/// 65; the package's own answer if it is not 0; then the run text's.
fn try_run(package: &[u8], script: &[u8], out: &mut [u8]) -> Result<RunAnswer, Answer>
    ensures { Leaves (run_of «package».now script.now out.old) (ran_of result) out.new }
{
    if out.len() < BUFFER {
        return Err(SHORT_BUFFER);
    }
    let reading = package::read(package);
    run_script(checker::accepted(&reading)?, script, out)
}

/// What is answered to the two texts; where nothing is run, no holdings are written.
pub fn run(package: &[u8], script: &[u8], out: &mut [u8]) -> RunAnswer
    ensures answer { result ≡ ran_as (run_of «package».now script.now out.old) }
    ensures buffer { out.new ≡ (run_of «package».now script.now out.old).buffer }
    ensures confined { Confined «package».now script.now out.new result.length }
{
    match try_run(package, script, out) {
        Ok(ran) => ran,
        Err(answer) => RunAnswer { answer, length: 0 },
    }
}
