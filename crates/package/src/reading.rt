//! A whole text, from its header to its last line.
ghost use Rattle.std.specs.Prelude.{◌≡◌, ◌<◌, ◌≤◌, Ok, Err, MatchResult};
ghost use Rattle.package.specs.Readings.{header, read_sections};
ghost use Rattle.meaning.specs.Reading.{answer, is_read, is_refused, read_text};
ghost use Rattle.sections.specs.Refusals.{number_of};
ghost use Rattle.tables.specs.View.{view};

use crate::Earlier;
use counted::Filled;
use sections::{Refusal, Refused, next_frame, read_end, read_section};
use tables::{Class, Effect, Field, Method, Pair, Tables};
use text::Lines;

// No text is longer.
const LONGEST: usize = 32768;

// How many domains there are.
fn read_header(lines: &mut Lines) -> Result<u8, Refused>
    ensures { MatchResult result (λ domains. header lines.old ≡ Ok (domains, lines.new)) (λ refused. header lines.old ≡ Err refused) }
{
    let frame = next_frame(lines)?;
    let line = lines.number();
    let [kind, generation, domains, ..] = frame.bytes;
    if frame.length != 3 || kind != 1 || domains < 1 || 32 < domains {
        return Err(Refused {
            refusal: Refusal::BadHeader,
            line,
        });
    }
    if generation != 2 {
        return Err(Refused {
            refusal: Refusal::BadGeneration,
            line,
        });
    }
    Ok(domains)
}

/// The tables of a package text; or why it is refused, and at which line: its first line that breaks a rule.
#[tactic(auto, using(crate::proofs::Whole::whole), unfolding(crate::specs::Readings::read_sections))]
pub fn read(text: &[u8]) -> Result<Tables, Refused>
    ensures meaning { MatchResult result (λ tables. read_text text.now ≡ is_read (view tables)) (λ refused. read_text text.now ≡ is_refused (answer (number_of refused.refusal) refused.line 0)) }
    ensures exact { MatchResult result (λ tables. read_sections text.now ≡ Ok tables) (λ refused. read_sections text.now ≡ Err refused) }
{
    if LONGEST < text.len() {
        return Err(Refused {
            refusal: Refusal::TooLong,
            line: 0,
        });
    }
    let mut lines = Lines::new(text);
    let domains = read_header(&mut lines)?;
    let header = Earlier {
        domains: usize::from(domains),
        classes: 0,
        fields: &[],
        methods: &[],
    };
    let mut pairs: Filled<Pair, 128> = Filled::new();
    read_section(&mut lines, &mut pairs, &header)?;
    let mut classes: Filled<Class, 127> = Filled::new();
    read_section(&mut lines, &mut classes, &header)?;
    let with_classes = Earlier {
        classes: classes.len(),
        ..header
    };
    let mut fields: Filled<Field, 256> = Filled::new();
    read_section(&mut lines, &mut fields, &with_classes)?;
    let mut methods: Filled<Method, 256> = Filled::new();
    read_section(&mut lines, &mut methods, &with_classes)?;
    let with_members = Earlier {
        fields: fields.as_slice(),
        methods: methods.as_slice(),
        ..with_classes
    };
    let mut effects: Filled<Effect, 1024> = Filled::new();
    read_section(&mut lines, &mut effects, &with_members)?;
    read_end(&mut lines, 7)?;
    Ok(Tables::new(2, domains, pairs, classes, fields, methods, effects))
}
