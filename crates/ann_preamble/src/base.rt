ghost use Rattle.std.specs.Prelude.{◌≡◌};
ghost use Rattle.ann_preamble.specs.Base.{is_base, is_empty, is_merged};

/// What stood before the entries of a log: a merge and all before its Begin, or nothing.
#[derive(Clone, Copy, Debug, PartialEq, Eq)]
pub struct Base {
    /// The position of the first entry.
    pub position: u64,
    /// The Pid of the next point, below 2^32.
    pub next: u64,
    /// The number of the segment with the graph of the base, 0 for none.
    pub segment: u64,
}

impl Base {
    /// Whether a log may have this base: the next Pid is below 2^32, and either all three are 0, or the segment is odd
    /// and below 2^63 and the position is `(segment + 3) / 2`.
    pub fn is_valid(&self) -> bool
        ensures { result ≡ is_base self.now }
    {
        self.next < 1 << 32 && (self.is_empty() || self.is_merged())
    }

    // Nothing stood before.
    fn is_empty(&self) -> bool
        ensures { result ≡ is_empty self.now }
    {
        self.position == 0 && self.segment == 0 && self.next == 0
    }

    // A merge stood before, whose Begin's place gives the segment's number.
    fn is_merged(&self) -> bool
        ensures { result ≡ is_merged self.now }
    {
        self.segment % 2 == 1 && self.segment < 1 << 63 && self.position == (self.segment + 3) / 2
    }
}
