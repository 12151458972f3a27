//! The holdings of a run state as text: what each domain holds, sorted, each once, as a line of nine bytes. What is held is specs/Held.antt.
#![tactic(auto)]

ghost use Rattle.std.specs.Prelude.{◌≤◌, length};
ghost use Rattle.runs.specs.Holdings.{holdings_text};
ghost use Rattle.tables.specs.View.{view};
ghost use Rattle.machine.specs.Definitions.{state_view};
ghost use Rattle.holdings.specs.Lines.{Put};

mod keys;
mod lines;

use counted::Filled;
use machine::State;
use tables::Tables;

/// The holdings text at the buffer's start; the bytes behind it stay.
pub fn write_holdings(state: &State, tables: &Tables, out: &mut [u8]) -> usize
    requires { 7200 ≤ length out.old }
    ensures text { Put (holdings_text (view tables.now) (state_view state.now)) out.old result out.new }
    ensures within { result ≤ 7200 }
{
    let mut keys = Filled::new();
    keys::add_all(&mut keys, tables, state);
    keys.sort();
    lines::write_lines(keys.as_slice(), out)
}
