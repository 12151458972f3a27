//! `12 cc tt qq` and `13 pp cc tt qq`: the links of the start, of static fields and of objects, counted together.

ghost use Rattle.std.specs.Prelude.{◌≡◌, ℕ, Result, Ok, Err, MatchResult};
ghost use Rattle.sections.specs.Sections.{section};
ghost use Rattle.tables.specs.View.{view, mode_number};
ghost use Rattle.script.specs.Start.{is_object};
ghost use Rattle.script.specs.Taking.{owner_passes, link_mode, link_in, take_link, fields_of, has_field, is_declared_link, is_typed_link};

use crate::declared::{fields_of, is_class};
use crate::draft::{Draft, is_instance, is_object};
use machine::{Link, Loaded, NO_OWNER, State};
use relation::{Relation, Wide};
use sections::{Refusal, Refused, Section, read_section};
use tables::Mode;
use text::{Frame, Lines};

/// What the lines of this section, 12 or 13, are judged by beside the start: the package, and its fields of one mode as rows of bits.
#[derive(Drop)]
pub struct LinkLines<'a, const SECTION: u8> {
    loaded: &'a Loaded<'a>,
    fields: Wide,
    ghost of_mode: { fields ≡ fields_of (view loaded.now) (mode_number (link_mode SECTION)) },
}

impl<'a, const SECTION: u8> LinkLines<'a, SECTION> {
    fn mode() -> Mode
        ensures { result ≡ link_mode SECTION }
    {
        if SECTION == 0x12 {
            Mode::Static
        } else {
            Mode::Instance
        }
    }

    // Whether a field of this class and type is declared.
    #[tactic(auto, using(crate::proofs::Declaring::declared), unfolding(meaning::specs::Reading::is_type))]
    fn has_field(&self, class: u8, typ: u8) -> bool
        ensures { result ≡ has_field (view self.now.loaded.now) (link_mode SECTION) class typ }
    {
        let tables = self.loaded.tables();
        if !is_class(tables, class) {
            return false;
        }
        if !is_class(tables, typ) {
            return false;
        }
        self.fields.has(usize::from(class), usize::from(typ))
    }

    // What a link names is declared: its objects, and a field of its class and type.
    fn is_declared(&self, start: &State, link: Link) -> bool
        ensures { result ≡ is_declared_link (view self.now.loaded.now) (link_mode SECTION) start.now link }
    {
        has_owner(start, Self::mode(), link.owner)
            && self.has_field(link.declared, link.typ)
            && is_object(start, link.target)
    }

    // Its target is of its type, and its owner of its class.
    fn is_typed(&self, start: &State, link: Link) -> bool
        ensures { result ≡ is_typed_link (view self.now.loaded.now) (link_mode SECTION) start.now link }
    {
        is_instance(self.loaded, start, link.target, link.typ)
            && match Self::mode() {
                Mode::Instance => is_instance(self.loaded, start, link.owner, link.declared),
                Mode::Static => true,
            }
    }
}

// A static link has no owner.
fn has_owner(start: &State, mode: Mode, owner: u8) -> bool
    ensures { result ≡ owner_passes mode (is_object start.now owner) }
{
    match mode {
        Mode::Instance => is_object(start, owner),
        Mode::Static => true,
    }
}

fn link_of(mode: Mode, frame: &Frame) -> Link
    ensures { result ≡ link_in mode frame.now }
{
    let [_, first, second, third, fourth, ..] = frame.bytes;
    match mode {
        Mode::Static => Link {
            owner: NO_OWNER,
            declared: first,
            typ: second,
            target: third,
        },
        Mode::Instance => Link {
            owner: first,
            declared: second,
            typ: third,
            target: fourth,
        },
    }
}

impl<'a, const SECTION: u8> Section<LinkLines<'a, SECTION>> for Draft {
    ghost SECTION = { SECTION };

    ghost take = { λ lines draft line frame. take_link (view lines.loaded.now) (link_mode SECTION) draft frame };

    fn section(_lines: &LinkLines<'a, SECTION>) -> u8 {
        SECTION
    }

    #[tactic(auto, unfolding(crate::specs::Taking::take_link))]
    fn take(
        &mut self,
        lines: &LinkLines<'a, SECTION>,
        _line: usize,
        frame: &Frame,
    ) -> Result<(), Refusal> {
        if self.link_lines >= 256 {
            return Err(Refusal::TooMany);
        }
        if !frame.fits() {
            return Err(Refusal::BadLength);
        }
        let link = link_of(LinkLines::<SECTION>::mode(), frame);
        if !lines.is_declared(&self.script.start, link) {
            return Err(Refusal::BadNumber);
        }
        if !lines.is_typed(&self.script.start, link) {
            return Err(Refusal::IllTyped);
        }
        // There is room: the start has no more links than there were lines.
        if self.script.start.add_link(link).is_err() {
            return Err(Refusal::TooMany);
        }
        self.link_lines += 1;
        Ok(())
    }
}

/// The lines of the section 12 or 13, with the fields of its mode.
pub(crate) fn read_links<const SECTION: u8>(
    lines: &mut Lines,
    draft: &mut Draft,
    loaded: &Loaded,
) -> Result<(), Refused>
    ensures { MatchResult result (λ _. section SECTION (λ x line f. take_link (view loaded.now) (link_mode SECTION) x f) draft.old lines.old ≡ Ok (draft.new, lines.new)) (λ refused. section SECTION (λ x line f. take_link (view loaded.now) (link_mode SECTION) x f) draft.old lines.old ≡ Err refused) }
{
    let fields = fields_of(loaded.tables(), LinkLines::<SECTION>::mode());
    read_section(lines, draft, &LinkLines::<SECTION> { loaded, fields })
}
