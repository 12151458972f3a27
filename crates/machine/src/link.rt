//! The target of a field.

ghost use Rattle.std.specs.Cmp.{and_per, on_per, partial_equiv_from_equiv};
ghost use Rattle.std.proofs.lemmas.Cmp.{nat_eq_equiv};
ghost use Rattle.machine.specs.Snapshot.{same_link};

/// The owner of a static field's link: the number of no object. (A byte like the others, so that a link is one word.)
pub const NO_OWNER: u8 = 0xFF;

/// The target of a field, of an object or static.
#[derive(Clone, Copy, Debug, Eq)]
pub struct Link {
    pub owner: u8,
    pub declared: u8,
    pub typ: u8,
    pub target: u8,
}

// Compared as one word, so that a search compares up to sixteen at a time: a derived comparison branches at each byte.
impl PartialEq for Link {
    ghost eq = { same_link };

    ghost laws = { and_per (on_per (λ k. k.owner) (partial_equiv_from_equiv nat_eq_equiv)) (and_per (on_per (λ k. k.declared) (partial_equiv_from_equiv nat_eq_equiv)) (and_per (on_per (λ k. k.typ) (partial_equiv_from_equiv nat_eq_equiv)) (on_per (λ k. k.target) (partial_equiv_from_equiv nat_eq_equiv)))) };

    fn eq(&self, other: &Link) -> bool {
        let own = u32::from(self.owner)
            + u32::from(self.declared) * 0x100
            + u32::from(self.typ) * 0x10000
            + u32::from(self.target) * 0x1000000;
        let others = u32::from(other.owner)
            + u32::from(other.declared) * 0x100
            + u32::from(other.typ) * 0x10000
            + u32::from(other.target) * 0x1000000;
        own == others
    }
}
