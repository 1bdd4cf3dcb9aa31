ghost use Rattle.std.specs.Prelude.{◌≡◌, ◌≤◌, ◌<◌, ℕ};

/// The squared distances between rows.
pub trait Metric {
    ghost apart: { Self → ℕ → ℕ → ℕ };

    ghost size: { Self → ℕ };

    /// How many rows there are.
    fn count(&self) -> u32
        ensures { result ≡ size self.now };

    /// The distance of two rows, of at most 1024 components each.
    fn distance(&self, x: u32, y: u32) -> u32
        requires x { x < size self.now }
        requires y { y < size self.now }
        ensures apart { result ≡ apart self.now x y }
        ensures most { result ≤ 66585600 };

    // A row has no distance to itself.
    ghost near_itself: { (metric : Self) (x : ℕ) → apart metric x x ≡ 0 };

    // Two rows are as far apart from either side.
    ghost symmetric: { (metric : Self) (x y : ℕ) → apart metric x y ≡ apart metric y x };
}
