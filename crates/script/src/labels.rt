//! `14 rr cc`: the labels of the start.

ghost use Rattle.std.specs.Prelude.{ℕ, Result};
ghost use Rattle.tables.specs.View.{view};
ghost use Rattle.script.specs.Taking.{take_label};

use crate::declared::is_class;
use crate::draft::{Draft, is_instance, is_object};
use machine::{Label, Loaded};
use sections::{Refusal, Section};
use text::Frame;

/// What a line of a label is judged by, beside the start.
#[derive(Drop)]
pub struct LabelLines<'a> {
    pub loaded: &'a Loaded<'a>,
}

impl<'a> Section<LabelLines<'a>> for Draft {
    ghost SECTION = { 0x14 };

    ghost take = { λ lines draft line frame. take_label (view lines.loaded.now) draft frame };

    fn section(_lines: &LabelLines<'a>) -> u8 {
        0x14
    }

    #[tactic(auto, unfolding(crate::specs::Taking::take_label))]
    fn take(&mut self, lines: &LabelLines<'a>, _line: usize, frame: &Frame) -> Result<(), Refusal> {
        if self.label_lines >= 32 {
            return Err(Refusal::TooMany);
        }
        if !frame.fits() {
            return Err(Refusal::BadLength);
        }
        let [_, object, class, ..] = frame.bytes;
        if !is_object(&self.script.start, object) || !is_class(lines.loaded.tables(), class) {
            return Err(Refusal::BadNumber);
        }
        if !is_instance(lines.loaded, &self.script.start, object, class) {
            return Err(Refusal::IllTyped);
        }
        // There is room: the start has no more labels than there were lines.
        if self
            .script
            .start
            .add_label(Label { object, class })
            .is_err()
        {
            return Err(Refusal::TooMany);
        }
        self.label_lines += 1;
        Ok(())
    }
}
