//! An array with a count whose free places hold the filler of the items' type, so that it can be copied.

ghost use Rattle.std.specs.Prelude.{◌≡◌, ◌<◌, ◌≤◌, ◌↔◌, List, [], ◌∷◌, ◌++◌, length, IsTrue, ⊤};
ghost use Rattle.std.specs.List.{list_any};
ghost use Rattle.std.specs.List.Sorted.{IsPermutation, IsSorted};

use crate::Counted;
use std::alloc::AllocError;
use std::marker::Model;

/// An item that may stand in a `Filled`: it has one value for the places that are free, so that arrays with the same items are the same to the byte.
pub trait Filler: Copy {
    ghost filler: { Self };

    fn filler() -> Self
        ensures { result ≡ filler };
}

impl Filler for u32 {
    ghost filler = { 0 };

    #[inline(always)]
    fn filler() -> Self {
        0
    }
}

/// At most `N` items, in the order in which they came, and the filler in the places that are free: a `Counted` that can be copied.
pub struct Filled<T: Filler, const N: usize> {
    items: [T; N],
    count: usize,
}

// Clauses see the items. The places behind them hold the filler, so the items say what every place holds.
impl<T: Filler, const N: usize> Model for Filled<T, N> {
    ghost use Rattle.std.specs.Prelude.{List, length, take};
    ghost use Rattle.counted.specs.Filled.{pad, IsFilled, pad-front, count-front};

    ghost Value = { List T };

    ghost view = { λ s. take s.count s.items };

    ghost invariant = { λ s. IsFilled N T.filler s.count s.items };

    ghost inverse = { λ xs. record { items = pad N T.filler xs; count = length xs } };

    ghost inverse_ok = { λ s h i. record { items = pad-front N T.filler s.count s.items h i; count = count-front N T.filler s.count s.items h i } };
}

// A clone is a copy: it has the same items.
impl<T: Filler, const N: usize> Clone for Filled<T, N> {
    ghost is_clone = { λ x y. y ≡ x };

    ghost is_infallible = { λ _. ⊤ };

    fn clone(&self) -> Result<Self, AllocError> {
        Ok(*self)
    }
}

impl<T: Filler, const N: usize> Copy for Filled<T, N> {}

// The items of an array whose free places hold anything.
impl<T: Filler, const N: usize> From<Counted<T, N>> for Filled<T, N> {
    ghost from_gives = { λ counted filled. filled ≡ counted };

    fn from(counted: Counted<T, N>) -> Filled<T, N> {
        let mut filled = Filled::new();
        for item in counted.as_slice() {
            filled.push(*item);
        }
        filled
    }
}

impl<T: Filler, const N: usize> Filled<T, N> {
    /// No items.
    pub fn new() -> Self
        ensures { result ≡ [] }
    {
        Filled {
            items: [T::filler(); N],
            count: 0,
        }
    }

    pub fn as_slice(&self) -> &[T]
        ensures items { result.now ≡ self.now }
        ensures within { length self.now ≤ N }
    {
        &self.items[..self.count]
    }

    pub fn len(&self) -> usize
        ensures { result ≡ length self.now }
    {
        self.count
    }

    pub fn is_full(&self) -> bool
        ensures full { IsTrue result ↔ (length self.now ≡ N) }
        ensures within { length self.now ≤ N }
    {
        self.count == N
    }

    pub fn push(&mut self, item: T)
        requires { length self.old < N }
        ensures { self.new ≡ self.old ++ item ∷ [] }
    {
        self.items[self.count] = item;
        self.count += 1;
    }
}

impl<T: Filler + PartialEq, const N: usize> Filled<T, N> {
    pub fn contains(&self, item: &T) -> bool
        ensures { result ≡ list_any (λ y. T.eq y item.now) self.now }
    {
        self.as_slice().contains(item)
    }
}

impl<T: Filler + Ord, const N: usize> Filled<T, N> {
    /// The items in rising order.
    pub fn sort(&mut self)
        ensures permutation { IsPermutation self.old self.new }
        ensures sorted { IsSorted T.cmp self.new }
    {
        let count = self.count;
        self.items[..count].sort_unstable();
    }
}
