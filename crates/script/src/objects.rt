//! `11 rr cc`: the objects of the start.

ghost use Rattle.std.specs.Prelude.{ℕ, Result};
ghost use Rattle.tables.specs.View.{view};
ghost use Rattle.script.specs.Taking.{take_object};

use crate::declared::is_class;
use crate::draft::Draft;
use crate::steps::is_reference;
use machine::Loaded;
use sections::{Refusal, Section};
use text::Frame;

/// What a line of an object is judged by, beside the objects before it.
#[derive(Drop)]
pub struct ObjectLines<'a> {
    pub loaded: &'a Loaded<'a>,
}

impl<'a> Section<ObjectLines<'a>> for Draft {
    ghost SECTION = { 0x11 };

    ghost take = { λ lines draft line frame. take_object (view lines.loaded.now) draft frame };

    fn section(_lines: &ObjectLines<'a>) -> u8 {
        0x11
    }

    #[tactic(auto, unfolding(crate::specs::Taking::take_object))]
    fn take(
        &mut self,
        lines: &ObjectLines<'a>,
        _line: usize,
        frame: &Frame,
    ) -> Result<(), Refusal> {
        if !frame.fits() {
            return Err(Refusal::BadLength);
        }
        let [_, object, class, ..] = frame.bytes;
        let is_declared = is_reference(object)
            && is_class(lines.loaded.tables(), class)
            && self.script.start.class_of(object).is_none();
        if !is_declared {
            return Err(Refusal::BadNumber);
        }
        self.script.start.declare(object, class);
        Ok(())
    }
}
