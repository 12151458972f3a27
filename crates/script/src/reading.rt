//! A whole run text, from its first line to its last.

ghost use Rattle.std.specs.Prelude.{◌≡◌, Ok, Err, OnOk, OnErr, MatchResult};
ghost use Rattle.tables.specs.View.{view};
ghost use Rattle.script.specs.Steps.{HaveFewArguments};
ghost use Rattle.script.specs.Readings.{entry, begun, starting, whole, read_by, IsScript, IsRefused};

use crate::draft::Draft;
use crate::labels::LabelLines;
use crate::links::read_links;
use crate::objects::ObjectLines;
use crate::step_lines::StepLines;
use machine::{Loaded, State};
use sections::{Refusal, Refused, next_frame, read_end, read_section};
use text::Lines;

const LONGEST: usize = 32768;

// `10 mm`, line 1: the entry method.
#[tactic(auto, unfolding(meaning::specs::Reading::is_method))]
fn read_entry(lines: &mut Lines, loaded: &Loaded) -> Result<u8, Refused>
    ensures { MatchResult result (λ method. entry (view loaded.now) lines.old ≡ Ok (method, lines.new)) (λ refused. entry (view loaded.now) lines.old ≡ Err refused) }
{
    let frame = next_frame(lines)?;
    let line = lines.number();
    let [kind, method, ..] = frame.bytes;
    if frame.length != 2 || kind != 0x10 || loaded.tables().method(method).is_none() {
        return Err(Refused {
            refusal: Refusal::BadHeader,
            line,
        });
    }
    Ok(method)
}

// A draft before anything is there. It is made in a function of its own, since a function clears its locals where it begins, and a draft is large.
#[inline(never)]
fn renew(draft: &mut Draft)
    ensures { draft.new ≡ begun 0 }
{
    *draft = Draft::new();
}

// The entry method runs, before anything is there. The steps' array is large: one that holds none is kept.
fn begin(draft: &mut Draft, method: u8)
    ensures { draft.new ≡ begun method }
{
    if draft.script.steps.as_slice().is_empty() {
        draft.link_lines = 0;
        draft.label_lines = 0;
    } else {
        renew(draft);
    }
    draft.script.start = State::new(method);
}

// The lines of the start behind line 1.
fn read_start(lines: &mut Lines, draft: &mut Draft, loaded: &Loaded) -> Result<(), Refused>
    ensures { MatchResult result (λ _. starting (view loaded.now) draft.old lines.old ≡ Ok (draft.new, lines.new)) (λ refused. starting (view loaded.now) draft.old lines.old ≡ Err refused) }
{
    read_section(lines, draft, &ObjectLines { loaded })?;
    read_links::<0x12>(lines, draft, loaded)?;
    read_links::<0x13>(lines, draft, loaded)?;
    read_section(lines, draft, &LabelLines { loaded })?;
    Ok(())
}

// Kinds never fall up to 14, and all steps are one section, so that each section is read by itself, and behind the steps only the last line may stand.
fn read_whole(lines: &mut Lines, loaded: &Loaded, draft: &mut Draft) -> Result<(), Refused>
    ensures { MatchResult result (λ _. whole (view loaded.now) lines.old ≡ Ok draft.new) (λ refused. whole (view loaded.now) lines.old ≡ Err refused) }
{
    begin(draft, read_entry(lines, loaded)?);
    read_start(lines, draft, loaded)?;
    read_section(lines, draft, &StepLines { loaded })?;
    read_end(lines, 0x2F)?;
    Ok(())
}

#[inline(always)]
#[tactic(auto, unfolding(crate::specs::Readings::read_by))]
fn read_sections(text: &[u8], loaded: &Loaded, draft: &mut Draft) -> Result<(), Refused>
    ensures { MatchResult result (λ _. read_by (view loaded.now) text.now ≡ Ok draft.new) (λ refused. read_by (view loaded.now) text.now ≡ Err refused) }
{
    if LONGEST < text.len() {
        return Err(Refused {
            refusal: Refusal::TooLong,
            line: 0,
        });
    }
    read_whole(&mut Lines::new(text), loaded, draft)
}

/// The start and the steps of a run text, into a draft that is lent, whatever is in it; or the first reason against the text, and its line, and the
/// draft before anything is there. A script is large: by value it would be copied at each of these calls.
pub fn read(text: &[u8], loaded: &Loaded, draft: &mut Draft) -> Result<(), Refused>
    ensures meaning { MatchResult result (λ _. IsScript (view loaded.now) text.now draft.new.script) (IsRefused (view loaded.now) text.now) }
    ensures exact { MatchResult result (λ _. read_by (view loaded.now) text.now ≡ Ok draft.new) (λ refused. read_by (view loaded.now) text.now ≡ Err refused) }
    ensures few { OnOk result (HaveFewArguments draft.new.script.steps) }
    ensures refused { OnErr result (draft.new ≡ begun 0) }
{
    // Its tables say that the package is good.
    let _tables = loaded.tables();
    match read_sections(text, loaded, draft) {
        Ok(()) => Ok(()),
        Err(refused) => {
            begin(draft, 0);
            Err(refused)
        }
    }
}
