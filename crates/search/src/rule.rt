// A rule of pairs.
ghost use Rattle.std.specs.Prelude.{◌≡◌, ℕ, Bool, ◌<◌};

/// A rule that a pair of numbers below `count` keeps or breaks.
pub trait PairRule {
    ghost count: { Self → ℕ };

    ghost breaks: { Self → ℕ → ℕ → Bool };

    fn count(&self) -> usize
        ensures { result ≡ count self.now };

    fn is_broken(&self, first: usize, second: usize) -> bool
        requires first_below { first < count self.now }
        requires second_below { second < count self.now }
        ensures { result ≡ breaks self.now first second };
}
