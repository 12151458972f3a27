//! Bytes as digits, and the line of an answer as the programs print it.
#![tactic(auto)]

ghost use Rattle.std.specs.Prelude.{◌≡◌, ◌<◌, ◌≤◌, ◌++◌, length, drop};
ghost use Rattle.runs.specs.Holdings.{hex_digit, hex};
ghost use Rattle.runs.specs.Programs.{answer_line, hex4};

use answer::Answer;

const DIGITS: [u8; 16] = *b"0123456789ABCDEF";

#[tactic(auto, unfolding(runs::specs::Holdings::hex_digit))]
fn digit(value: u8) -> u8
    requires { value < 16 }
    ensures { result ≡ hex_digit value }
{
    DIGITS[usize::from(value)]
}

/// A byte as two digits, the high one first.
#[tactic(auto, unfolding(runs::specs::Holdings::hex))]
pub fn hex(byte: u8) -> [u8; 2]
    ensures { result ≡ hex byte }
{
    [digit(byte / 16), digit(byte % 16)]
}

/// Two bytes as four digits, the high one first.
#[tactic(auto, unfolding(runs::specs::Programs::hex4))]
fn hex4(number: u16) -> [u8; 4]
    ensures { result ≡ hex4 number }
{
    let [high, low] = number.to_be_bytes();
    let [h1, h0] = hex(high);
    let [l1, l0] = hex(low);
    [h1, h0, l1, l0]
}

/// `2E aa pppp qqqq` and LF: the number of the answer, and its two places.
#[tactic(auto, unfolding(runs::specs::Programs::answer_line, runs::specs::Programs::hex4, runs::specs::Holdings::hex))]
pub fn answer_line(answer: Answer) -> [u8; 13]
    ensures { result ≡ answer_line (record { number = answer.number; first = answer.first; second = answer.second }) }
{
    let [n1, n0] = hex(answer.number);
    let [p3, p2, p1, p0] = hex4(answer.first);
    let [q3, q2, q1, q0] = hex4(answer.second);
    [b'2', b'E', n1, n0, p3, p2, p1, p0, q3, q2, q1, q0, b'\n']
}

/// The line of an answer at the buffer's start; the bytes behind it stay.
pub fn put_answer(out: &mut [u8], answer: Answer)
    requires { 13 ≤ length out.old }
    ensures { out.new ≡ answer_line (record { number = answer.number; first = answer.first; second = answer.second }) ++ drop 13 out.old }
{
    out[..13].copy_from_slice(&answer_line(answer));
}
