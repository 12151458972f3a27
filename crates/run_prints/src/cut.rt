// Where the package ends in the input of `run`: behind the first line that is just 07.
ghost use Rattle.std.specs.Prelude.{◌≡◌, ◌≤◌, ◌==◌, length};
ghost use Rattle.std.specs.List.{position};
ghost use Rattle.meaning.specs.Text.{lines_of};
ghost use Rattle.runs.specs.Programs.{cut_at};

/// The place of the first LF.
fn line_feed(text: &[u8]) -> Option<usize>
    ensures { result ≡ position (λ byte. byte == 10) text.now }
{
    text.iter().position(|byte| *byte == b'\n')
}

/// How many bytes stand up to the end of that line; all of them where there is none.
pub(crate) fn cut(input: &[u8]) -> usize
    ensures cut { result ≡ cut_at (lines_of input.now) }
    ensures within { result ≤ length input.now }
{
    let mut end = 0;
    while let Some(length) = line_feed(&input[end..]) {
        let line = &input[end..end + length];
        end += length + 1;
        if line == b"07".as_slice() {
            return end;
        }
    }
    input.len()
}
