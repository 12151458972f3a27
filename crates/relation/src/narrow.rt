//! A relation of up to 32 numbers: a row of 32 bits for each.
ghost use Rattle.std.specs.Prelude.{ℕ, List};

use crate::Relation;
use std::marker::Model;

#[derive(Clone, Copy)]
pub struct Narrow {
    rows: [u32; 32],
}

impl Model for Narrow {
    ghost Value = { List ℕ };

    ghost view = { λ relation. relation.rows };

    ghost inverse = { λ rows. record { rows = rows } };
}

impl Relation for Narrow {
    const SIZE: usize = 32;

    const WIDTH: usize = 32;

    ghost SIZE = { 32 };

    ghost WIDTH = { 32 };

    ghost rows = { λ relation. relation };

    fn new() -> Self {
        Narrow { rows: [0; 32] }
    }

    #[tactic(auto, using(crate::proofs::BitLaws::bit_masked))]
    fn has(&self, from: usize, to: usize) -> bool {
        (self.rows[from] >> (to as u32)) & 1 == 1
    }

    fn add(&mut self, from: usize, to: usize) {
        self.rows[from] |= 1 << (to as u32);
    }

    fn join(&mut self, into: usize, row: usize) {
        self.rows[into] |= self.rows[row];
    }

    fn join_from(&mut self, into: usize, other: &Self, row: usize) {
        self.rows[into] |= other.rows[row];
    }

    fn meets(&self, row: usize, other: &Self, other_row: usize) -> bool {
        self.rows[row] & other.rows[other_row] != 0
    }

    fn is_within(&self, row: usize, other_row: usize) -> bool {
        self.rows[row] | self.rows[other_row] == self.rows[other_row]
    }
}
