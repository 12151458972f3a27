//! What is known of the trust in a package, made once and lent.
ghost use Rattle.std.specs.Prelude.{◌≡◌, ◌<◌, length};
ghost use Rattle.meaning.specs.Good.{Good};
ghost use Rattle.meaning.specs.Tables.{home};
ghost use Rattle.meaning.specs.Tests.{dominated, trusts, mates, keeps_from, subtype, suspicious};
ghost use Rattle.tables.specs.View.{view};
ghost use Rattle.trust.specs.Homes.{Homes};
ghost use Rattle.trust.specs.Relations.{dominance_rows, subtype_rows, suspicion_rows, suspect_rows};

use crate::classes::supertypes;
use crate::suspicion::{spread_down, suspicion};
use relation::{Narrow, Relation, Wide};
use std::marker::Model;
use tables::Tables;

/// The relations of a package's domains and classes, beside its tables. Clauses see the tables' contents.
#[derive(Drop)]
pub struct Trust<'a> {
    tables: &'a Tables,
    dominance: Narrow,
    homes: [u8; 256],
    supertypes: Wide,
    suspicion: Wide,
}

impl<'a> Model for Trust<'a> {
    ghost use Rattle.tables.specs.Contents.{Contents};

    ghost Value = { Contents };

    ghost use Rattle.trust.specs.Known.{tables_of, IsKnown};

    ghost view = { tables_of };

    ghost invariant = { IsKnown };
}

// The domain of each class, and the root's behind them.
fn homes_of(tables: &Tables) -> [u8; 256]
    ensures homes { Homes (view tables.now) result }
    ensures good { Good (view tables.now) }
{
    let mut homes = [0; 256];
    for (number, class) in tables.classes().iter().enumerate() {
        homes[number] = class.domain;
    }
    homes
}

impl<'a> Trust<'a> {
    /// The trust in a package, of its rows of dominance. They are made first, since a package without classes needs no other rows.
    pub fn new(tables: &'a Tables, dominance: Narrow) -> Trust<'a>
        requires { dominance ≡ dominance_rows (view tables.now) }
        ensures { result ≡ tables.now }
    {
        // each table is made where it stays: a local one would be cleared and copied once more
        Trust {
            tables,
            homes: homes_of(tables),
            supertypes: supertypes(tables),
            suspicion: suspicion(tables, &dominance),
            dominance,
        }
    }

    pub fn tables(&self) -> &'a Tables
        ensures value { result.now ≡ self.now }
        ensures good { Good (view self.now) }
    {
        self.tables
    }

    /// Row e has the bit d exactly where E ► D.
    pub fn dominance(&self) -> &Narrow
        ensures { result.now ≡ dominance_rows (view self.now) }
    {
        &self.dominance
    }

    /// Row a has the bit b exactly where A <: B.
    pub fn supertypes(&self) -> &Wide
        ensures { result.now ≡ subtype_rows (view self.now) }
    {
        &self.supertypes
    }

    /// Row a has the bit b exactly where A and B are suspicious.
    pub fn suspicion(&self) -> &Wide
        ensures { result.now ≡ suspicion_rows (view self.now) }
    {
        &self.suspicion
    }

    /// Row a has the bit b exactly where B and some supertype of A are suspicious.
    pub fn suspects(&self) -> Wide
        ensures { result ≡ suspect_rows (view self.now) }
    {
        let mut rows = self.suspicion;
        spread_down(&mut rows, self.tables);
        rows
    }

    /// E ► D.
    #[tactic(auto, using(crate::proofs::Laws::dominated_is))]
    pub fn dominates(&self, e: u8, d: u8) -> bool
        requires e_declared { e < self.now.domains }
        requires d_declared { d < self.now.domains }
        ensures { result ≡ dominated (view self.now) e d }
    {
        self.dominance.has(usize::from(e), usize::from(d))
    }

    /// The domain of a class, and the root's of a number that is not declared.
    #[tactic(auto, using(crate::proofs::Laws::home_declared))]
    pub fn home(&self, c: u8) -> u8
        ensures value { result ≡ home (view self.now) c }
        ensures declared { result < self.now.domains }
    {
        self.homes[usize::from(c)]
    }

    /// B ▷ A.
    #[tactic(auto, unfolding(meaning::specs::Tests::trusts))]
    pub fn trusts(&self, b: u8, a: u8) -> bool
        ensures { result ≡ trusts (view self.now) b a }
    {
        self.dominates(self.home(b), self.home(a))
    }

    /// A ⋈ B.
    #[tactic(auto, unfolding(meaning::specs::Tests::mates))]
    pub fn are_mates(&self, a: u8, b: u8) -> bool
        ensures { result ≡ mates (view self.now) a b }
    {
        self.home(a) == self.home(b)
    }

    /// Neither C ▷ A nor X ⋈ Y.
    #[tactic(auto, unfolding(meaning::specs::Tests::keeps_from))]
    pub fn keeps_from(&self, a: u8, x: u8, y: u8, c: u8) -> bool
        ensures { result ≡ keeps_from (view self.now) a x y c }
    {
        !self.trusts(c, a) && !self.are_mates(x, y)
    }

    /// A <: B.
    #[tactic(auto, using(crate::proofs::Laws::subtype_is))]
    pub fn is_subtype(&self, a: u8, b: u8) -> bool
        requires a_declared { a < length (view self.now).classes }
        requires b_declared { b < length (view self.now).classes }
        ensures { result ≡ subtype (view self.now) a b }
    {
        self.supertypes.has(usize::from(a), usize::from(b))
    }

    /// Neither A ▷ B nor B ▷ A.
    #[tactic(auto, using(crate::proofs::Laws::suspicious_is))]
    pub fn are_suspicious(&self, a: u8, b: u8) -> bool
        requires a_declared { a < length (view self.now).classes }
        requires b_declared { b < length (view self.now).classes }
        ensures { result ≡ suspicious (view self.now) a b }
    {
        self.suspicion.has(usize::from(a), usize::from(b))
    }
}
