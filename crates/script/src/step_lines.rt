//! `20` to `29`: the section of the steps.

ghost use Rattle.std.specs.Prelude.{ℕ, Result};
ghost use Rattle.tables.specs.View.{view};
ghost use Rattle.script.specs.Taking.{take_step};

use crate::draft::Draft;
use crate::steps::{is_named, step_of};
use machine::{Loaded, Placed};
use sections::{Refusal, Section};
use text::Frame;

/// What a step's line is judged by.
#[derive(Drop)]
pub struct StepLines<'a> {
    pub loaded: &'a Loaded<'a>,
}

impl<'a> Section<StepLines<'a>> for Draft {
    ghost SECTION = { 0x20 };

    ghost take = { λ lines draft line frame. take_step (view lines.loaded.now) draft line frame };

    fn section(_lines: &StepLines<'a>) -> u8 {
        0x20
    }

    #[tactic(auto, unfolding(crate::specs::Taking::take_step))]
    fn take(&mut self, lines: &StepLines<'a>, line: usize, frame: &Frame) -> Result<(), Refusal> {
        if self.script.steps.is_full() {
            return Err(Refusal::TooMany);
        }
        if !frame.fits() {
            return Err(Refusal::BadLength);
        }
        match step_of(frame) {
            // No text has more lines than a u16 counts.
            Some(step) if is_named(lines.loaded.tables(), step) && line <= usize::from(u16::MAX) =>
                {
                    self.script.steps.push(Placed {
                        line: line as u16,
                        step,
                    });
                    Ok(())
                }
            _ => Err(Refusal::BadNumber),
        }
    }
}
