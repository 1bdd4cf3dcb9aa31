ghost use Rattle.std.specs.Prelude.{◌≡◌, ◌↔◌, IsSome, IfSome};
ghost use Rattle.ann_types.specs.Limits.{IsWithinLimits};

/// The parameters of an index, each within its limits.
#[derive(Clone, Copy, Debug, PartialEq, Eq)]
pub struct Params {
    /// Components of a vector: 1 to 1024, a multiple of `m`.
    pub d: u16,
    /// The greatest number of neighbours of a point (R of RobustPrune; DiskANN, section 2.2): 2 to 128.
    pub r: u16,
    /// The width of the walks that link new points (L of Vamana; DiskANN, section 2.3): 1 to 1000.
    pub l_build: u16,
    /// Numerator of alpha (RobustPrune; DiskANN, section 2.2): 1 to 100.
    pub a: u16,
    /// Denominator of alpha: 1 to `a`.
    pub b: u16,
    /// The beam's width (W of BeamSearch; DiskANN, section 3.3): 1 to 16.
    pub w: u16,
    /// Bytes of a code, one for each part of a vector: 1 to 64.
    pub m: u16,
    /// How many points a graph in memory has when it freezes (a RO-TempIndex of FreshDiskANN): 1 to 100,000.
    pub freeze_at: u32,
    pub ghost in_limits: { IsWithinLimits d r l_build a b w m freeze_at },
}

impl Params {
    /// The parameters, or `None` exactly where one is outside its limits.
    pub fn new(
        d: u16,
        r: u16,
        l_build: u16,
        a: u16,
        b: u16,
        w: u16,
        m: u16,
        freeze_at: u32,
    ) -> Option<Params>
        ensures within { IsSome result ↔ IsWithinLimits d r l_build a b w m freeze_at }
        ensures vectors { IfSome result (λ p. (p.d ≡ d) × (p.m ≡ m)) }
        ensures graph { IfSome result (λ p. (p.r ≡ r) × (p.l_build ≡ l_build) × (p.a ≡ a) × (p.b ≡ b)) }
        ensures running { IfSome result (λ p. (p.w ≡ w) × (p.freeze_at ≡ freeze_at)) }
    {
        let sizes = 1 <= m && m <= 64 && 1 <= d && d <= 1024 && d % m == 0;
        let graph = 2 <= r && r <= 128 && 1 <= l_build && l_build <= 1000;
        let alpha = 1 <= b && b <= a && a <= 100;
        let running = 1 <= w && w <= 16 && 1 <= freeze_at && freeze_at <= 100_000;
        if sizes && graph && alpha && running {
            Some(Params {
                d,
                r,
                l_build,
                a,
                b,
                w,
                m,
                freeze_at,
            })
        } else {
            None
        }
    }
}
