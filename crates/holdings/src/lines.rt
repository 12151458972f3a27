// Keys as lines, each once.
ghost use Rattle.std.specs.Prelude.{◌≡◌, ◌+◌, ◌*◌, ◌≤◌, ◌++◌, None, length, take, drop};
ghost use Rattle.runs.specs.Holdings.{line_of};
ghost use Rattle.holdings.specs.Lines.{holding_of, lines_of, Put};

use printing::hex;

/// How many bytes a line has.
const LINE: usize = 9;

/// `30 dd rr cc` and LF.
#[tactic(auto, unfolding(runs::specs::Holdings::line_of, runs::specs::Holdings::hex, runs::specs::Holdings::hex_digit))]
fn line_of(key: u32) -> [u8; LINE]
    ensures { result ≡ line_of (holding_of key) }
{
    let [_, domain, object, class] = key.to_be_bytes();
    let [d1, d0] = hex(domain);
    let [r1, r0] = hex(object);
    let [c1, c0] = hex(class);
    [b'3', b'0', d1, d0, r1, r0, c1, c0, b'\n']
}

/// The line of a key, at a place of the buffer.
fn write_line(out: &mut [u8], at: usize, key: u32)
    requires { at + 9 ≤ length out.old }
    ensures line { take (at + 9) out.new ≡ take at out.old ++ line_of (holding_of key) }
    ensures behind { drop (at + 9) out.new ≡ drop (at + 9) out.old }
{
    out[at..at + LINE].copy_from_slice(&line_of(key));
}

/// A line for each key that differs from the one before.
#[tactic(auto, using(crate::proofs::Writing::writing), unfolding(runs::specs::Holdings::text_of))]
pub(crate) fn write_lines(keys: &[u32], out: &mut [u8]) -> usize
    requires { 9 * length keys.now ≤ length out.old }
    ensures lines { Put (lines_of None keys.now) out.old result out.new }
    ensures within { result ≤ 9 * length keys.now }
{
    let mut at = 0;
    let mut last = None;
    for key in keys {
        if last == Some(*key) {
            continue;
        }
        write_line(out, at, *key);
        at += LINE;
        last = Some(*key);
    }
    at
}
