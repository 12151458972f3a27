//! The frames of one section that come next in a text.
ghost use Rattle.std.specs.Prelude.{◌≡◌, ℕ, Result, Ok, Err, MatchResult};
ghost use Rattle.text.specs.declared.frame.Frame.{Frame};
ghost use Rattle.sections.specs.declared.refusal.Refusal.{Refusal};
ghost use Rattle.sections.specs.Sections.{section};

use crate::{Refusal, Refused};
use text::{Frame, Lines};

/// A store that takes the frames of a section, one after another. Its context is what was read before the section.
pub trait Section<Context> {
    ghost SECTION: { ℕ };

    ghost take: { Context → Self → ℕ → Frame → Result Self Refusal };

    /// The section of the frames' kinds. It is no constant, since the check gives no clauses to one of an impl that names a lifetime.
    fn section(context: &Context) -> u8
        ensures { result ≡ SECTION };

    /// Takes the frame of this line, or says why it may not stand there.
    fn take(&mut self, context: &Context, line: usize, frame: &Frame) -> Result<(), Refusal>
        ensures { MatchResult result (λ _. take context.now self.old line frame.now ≡ Ok self.new) (λ refusal. take context.now self.old line frame.now ≡ Err refusal) };
}

/// Hands the frames of the section to the store, until a line is none. That line is left to be read.
#[tactic(auto, using(crate::proofs::SectionLemmas::steps))]
pub fn read_section<Context, S: Section<Context>>(
    lines: &mut Lines,
    store: &mut S,
    context: &Context,
) -> Result<(), Refused>
    ensures { MatchResult result (λ _. section S.SECTION (S.take context.now) store.old lines.old ≡ Ok (store.new, lines.new)) (λ refused. section S.SECTION (S.take context.now) store.old lines.old ≡ Err refused) }
{
    let section = S::section(context);
    let mut frame = Frame::new();
    while lines.next_of_section(section, &mut frame) {
        let line = lines.number();
        if let Err(refusal) = store.take(context, line, &frame) {
            return Err(Refused { refusal, line });
        }
    }
    Ok(())
}
