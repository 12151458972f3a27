//! The next line of a text, which has to be there, and its last one.
ghost use Rattle.std.specs.Prelude.{◌≡◌, ◌+◌, [], Ok, Err, MatchResult, OnOk, OnErr};
ghost use Rattle.text.specs.Reading.{first_line, past_taken};
ghost use Rattle.sections.specs.Sections.{next_frame, ending};

use crate::{Refusal, Refused};
use text::{Frame, Lines};

/// The frame of the next line.
pub fn next_frame(lines: &mut Lines) -> Result<Frame, Refused>
    ensures next { MatchResult result (λ frame. next_frame lines.old ≡ Ok (frame, lines.new)) (λ refused. next_frame lines.old ≡ Err refused) }
    ensures behind { lines.new ≡ past_taken (first_line lines.old.lines) lines.old }
{
    let line = lines.number() + 1;
    match lines.next_line() {
        Some(Ok(frame)) => Ok(frame),
        Some(Err(_)) => Err(Refused {
            refusal: Refusal::BadLine,
            line,
        }),
        None => Err(Refused {
            refusal: Refusal::NoEnd,
            line,
        }),
    }
}

/// The last line, of this kind, with nothing behind it. Where it is refused, no line is read.
pub fn read_end(lines: &mut Lines, kind: u8) -> Result<(), Refused>
    ensures end { MatchResult result (λ _. ending kind lines.old ≡ Ok tt) (λ refused. ending kind lines.old ≡ Err refused) }
    ensures behind { OnOk result (lines.new ≡ record { number = lines.old.number + 1; lines = [] }) }
    ensures stays { OnErr result (lines.new ≡ lines.old) }
{
    let mut ahead = lines.ahead();
    let frame = next_frame(&mut ahead)?;
    let line = ahead.number();
    if frame.kind() != kind {
        return Err(Refused {
            refusal: Refusal::BadKind,
            line,
        });
    }
    if !frame.fits() {
        return Err(Refused {
            refusal: Refusal::BadLength,
            line,
        });
    }
    let line = line + 1;
    match ahead.next_line() {
        None => {
            *lines = ahead;
            Ok(())
        }
        Some(Ok(_)) => Err(Refused {
            refusal: Refusal::BadKind,
            line,
        }),
        Some(Err(_)) => Err(Refused {
            refusal: Refusal::BadLine,
            line,
        }),
    }
}
