//! Arrays with a count: at most `N` items, by value, with no heap. A `Filled` can be copied; so the type of its items must have a filler, and that of a `Counted` need not.
#![tactic(auto)]

ghost use Rattle.std.specs.Prelude.{◌≡◌, ◌<◌, ◌≤◌, ◌↔◌, List, [], ◌∷◌, ◌++◌, length, take, IsTrue};
ghost use Rattle.std.specs.List.{list_any};
ghost use Rattle.std.specs.List.Sorted.{IsPermutation, IsSorted};

mod filled;
#[cfg(test)]
mod tests;

pub use filled::{Filled, Filler};
use std::marker::Model;

/// At most `N` items, in the order in which they came. What stands in the places that are free is nothing that a caller can see.
#[derive(Drop)]
pub struct Counted<T: Copy, const N: usize> {
    items: [T; N],
    count: usize,
}

// Clauses see the items.
impl<T: Copy, const N: usize> Model for Counted<T, N> {
    ghost Value = { List T };

    ghost view = { λ s. take s.count s.items };

    ghost invariant = { λ s. s.count ≤ N };
}

impl<T: Copy, const N: usize> Counted<T, N> {
    /// No items; `filler` stands in the places that are free.
    pub fn new(filler: T) -> Self
        ensures { result ≡ [] }
    {
        Counted {
            items: [filler; N],
            count: 0,
        }
    }

    pub fn as_slice(&self) -> &[T]
        ensures items { result.now ≡ self.now }
        ensures within { length self.now ≤ N }
    {
        &self.items[..self.count]
    }

    pub fn len(&self) -> usize
        ensures { result ≡ length self.now }
    {
        self.count
    }

    pub fn is_full(&self) -> bool
        ensures full { IsTrue result ↔ (length self.now ≡ N) }
        ensures within { length self.now ≤ N }
    {
        self.count == N
    }

    pub fn push(&mut self, item: T)
        requires { length self.old < N }
        ensures { self.new ≡ self.old ++ item ∷ [] }
    {
        self.items[self.count] = item;
        self.count += 1;
    }
}

impl<T: Copy + PartialEq, const N: usize> Counted<T, N> {
    pub fn contains(&self, item: &T) -> bool
        ensures { result ≡ list_any (λ y. T.eq y item.now) self.now }
    {
        self.as_slice().contains(item)
    }
}

impl<T: Copy + Ord, const N: usize> Counted<T, N> {
    /// The items in rising order.
    pub fn sort(&mut self)
        ensures permutation { IsPermutation self.old self.new }
        ensures sorted { IsSorted T.cmp self.new }
    {
        let count = self.count;
        self.items[..count].sort_unstable();
    }
}
