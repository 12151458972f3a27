//! One step, and one step after the other.

ghost use Rattle.std.specs.Prelude.{◌≡◌, ◌≤◌, length, map, OnErr};
ghost use Rattle.tables.specs.View.{view};
ghost use Rattle.machine.specs.Snapshot.{outcome_of};
ghost use Rattle.runs.specs.Machine as M;
ghost use Rattle.runs.specs.Run.{run_from};
ghost use Rattle.runs.specs.Steps as S;
ghost use Rattle.machine.specs.Definitions.{snapshot_from, Once, numbered, outcome_from, state_view};
ghost use Rattle.machine.specs.Fits.{Fits};
ghost use Rattle.machine.specs.Run.{run_of};
ghost use Rattle.machine.specs.Reached.{reached, reached_from};
ghost use Rattle.machine.specs.Step.{need_of, step_view, placed_view};
ghost use Rattle.machine.specs.Steps.{step_of};
ghost use Rattle.machine.specs.Allowed.{all_allowed};

use crate::loaded::Loaded;
use crate::refusal::Refusal;
use crate::state::State;
use crate::step::{Placed, Step};

/// The step that ended a run: its line, and why it was refused.
#[derive(Clone, Copy, Debug, PartialEq, Eq)]
pub struct Stopped {
    pub line: u16,
    pub refusal: Refusal,
}

/// How far a run came: how many steps it took, and what stopped it, if not its end.
#[derive(Clone, Copy, Debug, PartialEq, Eq)]
pub struct Report {
    pub taken: usize,
    pub stopped: Option<Stopped>,
}

impl State {
    /// Whether some effect of the running method gives what the step needs.
    fn is_allowed(&self, loaded: &Loaded, step: Step) -> bool
        ensures allowed { result ≡ all_allowed (view loaded.now) self.now.method (need_of step) }
        ensures fits { Fits step }
    {
        match step.need() {
            Some(need) => loaded.allows(self.method(), need),
            None => true,
        }
    }

    fn take(&mut self, loaded: &Loaded, step: Step) -> Result<(), Refusal>
        ensures outcome { outcome_of result self.new ≡ step_of (view loaded.now) self.old step }
        ensures fits { Fits step }
        ensures all_numbers { length self.old.pool ≡ 256 }
        ensures refused { OnErr result (self.new ≡ self.old) }
    {
        // for the proof: the pool has a place for each number
        let _ = self.class_of(0);
        if !self.is_allowed(loaded, step) {
            return Err(Refusal::NotPermitted);
        }
        match step {
            Step::Widen { object, class } => self.widen(loaded, object, class),
            Step::New { object, class } => self.create(loaded, object, class),
            Step::CheckCast { object, class } => self.check_cast(loaded, object, class),
            Step::GetStatic { field, value } => self.get_static(loaded, field, value),
            Step::PutStatic { field, value } => self.put_static(loaded, field, value),
            Step::GetField {
                field,
                owner,
                value,
            } => self.get_field(loaded, field, owner, value),
            Step::PutField {
                field,
                owner,
                value,
            } => self.put_field(loaded, field, owner, value),
            Step::InvokeStatic { method, arguments } => {
                self.invoke_static(loaded, method, arguments)
            }
            Step::InvokeMethod {
                method,
                runs,
                receiver,
                arguments,
            } => self.invoke_method(loaded, method, runs, receiver, arguments),
            Step::Return { value } => self.give_back(loaded, value),
        }
    }

    /// Takes one step, or says why not and changes nothing.
    pub fn step(&mut self, loaded: &Loaded, step: Step) -> Result<(), Refusal>
        ensures outcome { outcome_of result self.new ≡ step_of (view loaded.now) self.old step }
        ensures definition { (s : M.State) → snapshot_from s ≡ self.old → Once s.pool → numbered (outcome_of result self.new) ≡ outcome_from (S.step (view loaded.now) s (step_view step)) }
        ensures whole { numbered (outcome_of result self.new) ≡ outcome_from (S.step (view loaded.now) (state_view self.old) (step_view step)) }
        ensures refused { OnErr result (self.new ≡ self.old) }
    {
        self.take(loaded, step)
    }

    /// Takes the steps in order, up to the first that is refused.
    pub fn run(&mut self, loaded: &Loaded, steps: &[Placed]) -> Report
        ensures outcome { run_of (view loaded.now) self.old 0 steps.now ≡ record { report = result; after = self.new } }
        ensures definition { (s : M.State) → snapshot_from s ≡ self.old → Once s.pool → reached result self.new ≡ reached_from (run_from (view loaded.now) s 0 (map placed_view steps.now)) }
        ensures taken { result.taken ≤ length steps.now }
    {
        for (taken, placed) in steps.iter().enumerate() {
            if let Err(refusal) = self.step(loaded, placed.step) {
                return Report {
                    taken,
                    stopped: Some(Stopped {
                        line: placed.line,
                        refusal,
                    }),
                };
            }
        }
        Report {
            taken: steps.len(),
            stopped: None,
        }
    }
}
