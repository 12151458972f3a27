//! The kinds of frames, as one table for both texts.
ghost use Rattle.std.specs.Prelude.{◌≡◌};
ghost use Rattle.meaning.specs.Kinds.{row_of};
ghost use Rattle.text.specs.Kinds.{kind_in};

/// A kind's section, its length without counted bytes, and the place of its count byte, or 0 where it has none.
#[derive(Clone, Copy, Debug, PartialEq, Eq)]
pub struct Kind {
    pub section: u8,
    pub length: u8,
    pub counter: u8,
}

// A row of the table.
macro_rules! kind {
    ($section:expr, $length:expr, $counter:expr) => {
        Kind {
            section: $section,
            length: $length,
            counter: $counter,
        }
    };
}

const NONE: Kind = kind!(0, 0, 0);

// At each kind's own number.
static KINDS: [Kind; 48] = [
    NONE,
    kind!(0x01, 3, 0), // 01 02 nd
    kind!(0x02, 3, 0), // 02 EE DD
    kind!(0x03, 3, 2), // 03 dd k s..
    kind!(0x04, 4, 0), // 04 cc tt ss
    kind!(0x05, 8, 7), // 05 cc ll ss hh hh rr k p..
    kind!(0x06, 4, 0), // 06 mm op xx
    kind!(0x07, 1, 0), // 07
    NONE,
    NONE,
    NONE,
    NONE,
    NONE,
    NONE,
    NONE,
    NONE,
    kind!(0x10, 2, 0), // 10 mm
    kind!(0x11, 3, 0), // 11 rr cc
    kind!(0x12, 4, 0), // 12 cc tt qq
    kind!(0x13, 5, 0), // 13 pp cc tt qq
    kind!(0x14, 3, 0), // 14 rr cc
    NONE,
    NONE,
    NONE,
    NONE,
    NONE,
    NONE,
    NONE,
    NONE,
    NONE,
    NONE,
    NONE,
    kind!(0x20, 3, 0), // 20 rr bb
    kind!(0x20, 3, 0), // 21 rr bb
    kind!(0x20, 3, 0), // 22 rr bb
    kind!(0x20, 3, 0), // 23 ff qq
    kind!(0x20, 3, 0), // 24 ff qq
    kind!(0x20, 4, 0), // 25 ff pp qq
    kind!(0x20, 4, 0), // 26 ff pp qq
    kind!(0x20, 3, 2), // 27 nn k r..
    kind!(0x20, 5, 4), // 28 nn vv r0 k r..
    kind!(0x20, 2, 0), // 29 rr
    NONE,
    NONE,
    NONE,
    NONE,
    NONE,
    kind!(0x2F, 1, 0), // 2F
];

impl Kind {
    /// The row of a number. One that is no kind has a section and a length of 0.
    pub fn of(number: u8) -> Self
        ensures { result ≡ kind_in (row_of number) }
    {
        // not by `get`: the option packs and unpacks the row, 7 instructions a line
        let place = usize::from(number);
        if place < KINDS.len() {
            KINDS[place]
        } else {
            NONE
        }
    }
}
