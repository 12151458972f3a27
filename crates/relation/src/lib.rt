//! Relations of small numbers as rows of bits, and their closure. What they mean is specs/Rows.antt.
#![tactic(auto)]

ghost use Rattle.std.specs.Prelude.{◌≡◌, ℕ, ◌<◌, ◌≤◌, List, replicate};
ghost use Rattle.relation.specs.Rows.{row_bit, add_bit, join_from, join_row, meet_row, within};
ghost use Rattle.relation.specs.Fold.{up_to};
ghost use Rattle.relation.specs.Closing.{through_at};

mod narrow;
mod wide;

pub use narrow::Narrow;
pub use wide::Wide;

// A relation of the numbers below `SIZE`: row `from` has the bit `to` where `from` is related to `to`. A bit lies below `WIDTH`.
pub trait Relation {
    const SIZE: usize;

    const WIDTH: usize;

    ghost SIZE: { ℕ };

    ghost WIDTH: { ℕ };

    ghost rows: { Self → List ℕ };

    // No number is related to any.
    fn new() -> Self
        ensures { rows result ≡ replicate SIZE 0 };

    fn has(&self, from: usize, to: usize) -> bool
        requires from_below { from < SIZE }
        requires to_below { to < WIDTH }
        ensures { result ≡ row_bit (rows self.now) from to };

    fn add(&mut self, from: usize, to: usize)
        requires from_below { from < SIZE }
        requires to_below { to < WIDTH }
        ensures { rows self.new ≡ add_bit from to (rows self.old) };

    // Relates `into` to all that `row` is related to.
    fn join(&mut self, into: usize, row: usize)
        requires into_below { into < SIZE }
        requires row_below { row < SIZE }
        ensures { rows self.new ≡ join_row into row (rows self.old) };

    // Relates `into` to all that `row` of another relation is related to.
    fn join_from(&mut self, into: usize, other: &Self, row: usize)
        requires into_below { into < SIZE }
        requires row_below { row < SIZE }
        ensures { rows self.new ≡ join_from (rows other.now) into row (rows self.old) };

    // Whether `row` and another relation's `other_row` are related to a number in common.
    fn meets(&self, row: usize, other: &Self, other_row: usize) -> bool
        requires row_below { row < SIZE }
        requires other_below { other_row < SIZE }
        ensures { result ≡ meet_row (rows self.now) row (rows other.now) other_row };

    // Whether `other_row` is related to all that `row` is related to.
    fn is_within(&self, row: usize, other_row: usize) -> bool
        requires row_below { row < SIZE }
        requires other_below { other_row < SIZE }
        ensures { result ≡ within (rows self.now) row other_row };
}

// Relates also what a path leads to whose stops are numbers below `count`.
pub fn close<R: Relation>(relation: &mut R, count: usize)
    requires fits { count ≤ R.SIZE }
    requires in_row { count ≤ R.WIDTH }
    ensures { R.rows relation.new ≡ up_to count (through_at count) (R.rows relation.old) }
{
    for stop in 0..count {
        close_through(relation, stop, count);
    }
}

// The closure step: rows that have the bit `stop` are or'ed with row `stop`.
pub fn close_through<R: Relation>(relation: &mut R, stop: usize, count: usize)
    requires stop_below { stop < count }
    requires fits { count ≤ R.SIZE }
    requires in_row { count ≤ R.WIDTH }
    ensures { R.rows relation.new ≡ through_at count stop (R.rows relation.old) }
{
    for from in 0..count {
        if relation.has(from, stop) {
            relation.join(from, stop);
        }
    }
}
