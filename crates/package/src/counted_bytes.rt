//! The bytes that a count byte of a frame counts.
ghost use Rattle.std.specs.Prelude.{◌≡◌, min, ◌+◌, ◌<◌};
ghost use Rattle.std.specs.List.{list_all};
ghost use Rattle.package.specs.Judging.{below, counted_in};

use text::Frame;

fn are_below(numbers: &[u8], end: usize) -> bool
    ensures { result ≡ list_all (below end) numbers.now }
{
    numbers.iter().all(|number| usize::from(*number) < end)
}

// The count byte at a place says at most so much, and each of the bytes that it counts, behind it, is below the end.
#[tactic(auto, unfolding(crate::specs::Judging::counted_in))]
pub(crate) fn are_counted(frame: &Frame, place: usize, most: u8, end: usize) -> bool
    requires { place + most < 16 }
    ensures { result ≡ counted_in frame.now place most end }
{
    let count = frame.bytes[place];
    count <= most && are_below(&frame.bytes[place + 1..][..usize::from(count)], end)
}

// No more than so much.
pub(crate) fn up_to(most: u8, count: u8) -> u8
    ensures { result ≡ min count most }
{
    if count <= most { count } else { most }
}
