//! An object, seen by a frame as an instance of a class.

ghost use Rattle.std.specs.Cmp.{and_per, on_per, partial_equiv_from_equiv};
ghost use Rattle.std.proofs.lemmas.Cmp.{nat_eq_equiv};
ghost use Rattle.machine.specs.Snapshot.{same_label};

/// An object, seen by a frame as an instance of a class.
#[derive(Clone, Copy, Debug, Eq)]
pub struct Label {
    pub object: u8,
    pub class: u8,
}

// Compared as one word, so that a search compares up to sixteen at a time: a derived comparison branches at each byte.
impl PartialEq for Label {
    ghost eq = { same_label };

    ghost laws = { and_per (on_per (λ l. l.object) (partial_equiv_from_equiv nat_eq_equiv)) (on_per (λ l. l.class) (partial_equiv_from_equiv nat_eq_equiv)) };

    fn eq(&self, other: &Label) -> bool {
        let own = u16::from(self.object) + u16::from(self.class) * 0x100;
        let others = u16::from(other.object) + u16::from(other.class) * 0x100;
        own == others
    }
}
