//! The bytes of one line.
ghost use Rattle.std.specs.Prelude.{◌≡◌, ◌+◌, ◌<◌, ◌^◌, slice_index};
ghost use Rattle.meaning.specs.Kinds.{row_of};
ghost use Rattle.text.specs.Frames.{empty};
ghost use Rattle.text.specs.Kinds.{kind_in, section_of, fits_frame};

use crate::Kind;

/// The first 16 bytes, with zeros behind a shorter frame, and how many bytes there are. No kind has a count byte past the first 16.
#[derive(Clone, Copy, Debug, PartialEq, Eq)]
pub struct Frame {
    pub bytes: [u8; 16],
    pub length: usize,
}

impl Frame {
    /// A frame of no bytes.
    pub fn new() -> Self
        ensures { result ≡ empty }
    {
        Frame {
            bytes: [0; 16],
            length: 0,
        }
    }

    /// The number of the frame's kind.
    pub fn kind(&self) -> u8
        ensures { result ≡ slice_index self.now.bytes 0 }
    {
        self.bytes[0]
    }

    /// The section of the frame's kind.
    #[tactic(auto, unfolding(crate::specs::Kinds::section_of))]
    pub fn section(&self) -> u8
        ensures { result ≡ section_of self.now }
    {
        Kind::of(self.kind()).section
    }

    /// Whether the frame has the length that its kind and its count byte ask for.
    #[tactic(auto, using(crate::proofs::Fitting::fitting))]
    pub fn fits(&self) -> bool
        ensures { result ≡ fits_frame self.now }
    {
        let kind = Kind::of(self.kind());
        let length = usize::from(kind.length);
        if kind.counter == 0 {
            self.length == length
        } else {
            self.length == length + usize::from(self.bytes[usize::from(kind.counter)])
        }
    }
}
