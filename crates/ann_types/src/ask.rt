ghost use Rattle.std.specs.Prelude.{◌≡◌, ◌≤◌, ◌↔◌, IsSome, IfSome};
ghost use Rattle.ann_types.specs.Limits.{IsAskWithinLimits};

use crate::vector::Vector;

/// What a search asks for: the `k` nearest points to a vector, from walks of width `l`.
#[derive(Debug, Drop)]
pub struct Ask {
    /// How many points are wanted.
    pub k: u16,
    /// The width of the candidate list (the search list size L of GreedySearch; DiskANN, section 2.1).
    pub l: u16,
    /// The query.
    pub vector: Vector,
    pub ghost in_limits: { IsAskWithinLimits k l },
}

impl Ask {
    /// An ask, or `None` exactly unless `1 <= k <= l <= 1000`.
    pub fn new(k: u16, l: u16, vector: Vector) -> Option<Ask>
        ensures within { IsSome result ↔ IsAskWithinLimits k l }
        ensures made { IfSome result (λ ask. (ask.k ≡ k) × (ask.l ≡ l) × (ask.vector ≡ vector)) }
    {
        if 1 <= k && k <= l && l <= 1000 {
            Some(Ask { k, l, vector })
        } else {
            None
        }
    }
}
