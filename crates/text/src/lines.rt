//! The lines of a text, one after another.
ghost use Rattle.std.specs.Prelude.{◌≡◌, ◌<◌, ◌^◌, ◌+◌, ◌≤◌, [], MatchOption, Some, None, true, false, length, cond, ltb, set};
ghost use Rattle.std.specs.Iterator.{YieldsFirst, item_count};
ghost use Rattle.meaning.specs.Text.{lines_of};
ghost use Rattle.text.specs.Digits.{byte_of};
ghost use Rattle.text.specs.Frames.{empty};
ghost use Rattle.text.specs.Cutting.{cut_of, within};
ghost use Rattle.text.specs.Reading.{first_byte, first_line, past, past_taken, next_of, frames_of};

use crate::Frame;
use crate::digits::byte_of;
use std::marker::Model;

/// A line that is no pairs of digits with an LF behind them.
#[derive(Clone, Copy, Debug, PartialEq, Eq)]
pub struct BadLine;

/// What is left of a text. A line that breaks the rule is the last that is read.
#[derive(Clone, Drop)]
pub struct Lines<'a> {
    rest: &'a [u8],
    number: usize,
}

impl<'a> Model for Lines<'a> {
    ghost use Rattle.std.specs.Prelude.{◌+◌, ◌<◌, ◌^◌, length};
    ghost use Rattle.meaning.specs.Text.{lines_of};
    ghost use Rattle.text.specs.Reading.{Reading};

    ghost Value = { Reading };

    ghost view = { λ reader. record { number = reader.number; lines = lines_of reader.rest.now } };

    // Each line has a byte at least, so the count of the lines stays in range.
    ghost invariant = { λ reader. reader.number + length reader.rest.now < 2 ^ 63 };
}

// The byte that the first two digits spell, and what stands behind them.
fn first_byte(text: &[u8]) -> Option<(u8, &[u8])>
    ensures { MatchOption result (first_byte text.now ≡ None) (λ first. first_byte text.now ≡ Some (first.0, first.1.now)) }
{
    match text {
        [high, low, behind @ ..] => Some((byte_of(*high, *low)?, behind)),
        _ => None,
    }
}

// Reads the bytes that a text begins with into the frame, and says what stands behind them. The count is beside the frame until it ends: within it
// the count would go through memory for each byte.
#[inline(always)]
#[tactic(auto, using(crate::proofs::Steps::bytes))]
fn read_bytes<'a>(text: &'a [u8], frame: &mut Frame) -> &'a [u8]
    ensures same { cut_of (lines_of text.now) ≡ within frame.new result.now }
    ensures whole { first_byte result.now ≡ None }
    ensures counted { frame.new.length + length result.now ≤ length text.now }
{
    frame.bytes = [0; 16];
    let mut length = 0;
    let mut rest = text;
    while let Some((byte, behind)) = first_byte(rest) {
        keep(&mut frame.bytes, length, byte);
        length += 1;
        rest = behind;
    }
    frame.length = length;
    rest
}

// A byte past the first 16 is not kept.
#[inline(always)]
fn keep(bytes: &mut [u8; 16], place: usize, byte: u8)
    ensures { bytes.new ≡ cond (ltb place 16) (set bytes.old place byte) bytes.old }
{
    if place < bytes.len() {
        bytes[place] = byte;
    }
}

impl<'a> Lines<'a> {
    pub fn new(text: &'a [u8]) -> Self
        ensures { result ≡ record { number = 0; lines = lines_of text.now } }
    {
        Lines {
            rest: text,
            number: 0,
        }
    }

    /// A reader of the same lines, with which a caller looks ahead: what it reads is left to this one. It is no `clone`, which could fail.
    pub fn ahead(&self) -> Lines<'a>
        ensures { result ≡ self.now }
    {
        Lines {
            rest: self.rest,
            number: self.number,
        }
    }

    /// How many lines are read.
    pub fn number(&self) -> usize
        ensures counted { result ≡ self.now.number }
        ensures in_range { result < 2 ^ 63 }
    {
        self.number
    }

    /// The next line, which is read. It is inlined: out of line its frame is copied once more.
    #[inline(always)]
    #[tactic(auto, using(crate::proofs::Steps::steps))]
    pub fn next_line(&mut self) -> Option<Result<Frame, BadLine>>
        ensures line { result ≡ first_line self.old.lines }
        ensures behind { self.new ≡ past_taken result self.old }
    {
        let mut frame = Frame::new();
        let rest = read_bytes(self.rest, &mut frame);
        match rest.split_first() {
            Some((b'\n', behind)) if frame.length != 0 => {
                self.rest = behind;
                self.number += 1;
                Some(Ok(frame))
            }
            None if frame.length == 0 => None,
            _ => {
                self.rest = &[];
                self.number += 1;
                Some(Err(BadLine))
            }
        }
    }

    /// Whether the next line is a frame whose kind is of this section. It is then read into the frame that is lent; any other line is left to be read,
    /// and the frame that is lent has no bytes.
    #[inline(always)]
    #[tactic(auto, using(crate::proofs::Steps::steps))]
    pub fn next_of_section(&mut self, section: u8, frame: &mut Frame) -> bool
        ensures read { result ≡ true → next_of section self.old.lines ≡ Some frame.new }
        ensures other { result ≡ false → next_of section self.old.lines ≡ None }
        ensures no_bytes { result ≡ false → frame.new ≡ empty }
        ensures behind { self.new ≡ cond result (past self.old) self.old }
    {
        let rest = read_bytes(self.rest, frame);
        match rest.split_first() {
            Some((b'\n', behind)) if frame.length != 0 && frame.section() == section => {
                self.rest = behind;
                self.number += 1;
                true
            }
            _ => {
                *frame = Frame::new();
                false
            }
        }
    }
}

impl<'a> Iterator for Lines<'a> {
    type Item = Result<Frame, BadLine>;

    ghost next_gives = { YieldsFirst (λ reader. frames_of reader.lines) };

    ghost remaining = { item_count (λ reader. frames_of reader.lines) };

    #[tactic(auto, using(crate::proofs::Steps::items))]
    fn next(&mut self) -> Option<Result<Frame, BadLine>> {
        self.next_line()
    }
}
