ghost use Rattle.std.specs.Prelude.{◌≡◌, ◌≤◌, ◌<◌, ◌++◌, ◌∷◌, [], length, get_or};
ghost use Rattle.ann_mdelete.specs.Decoded.{width_of};
ghost use Rattle.ann_minsert.specs.Beside.{ComesBehind};

use ann_lanes::squared;
use ann_mdelete::Decoded;
use ann_prune::Metric;
use std::marker::Model;

/// The decoded vectors of a base, and behind them that of a new point.
#[derive(Drop)]
pub(crate) struct Beside<'a> {
    decoded: &'a Decoded,
    own: &'a [u8],
}

impl<'a> Model for Beside<'a> {
    ghost use Rattle.std.specs.Prelude.{ℕ, List, [], ◌∷◌, ◌++◌};
    ghost use Rattle.ann_minsert.specs.Beside.{ComesBehind};

    ghost Value = { List (List ℕ) };

    ghost view = { λ b. b.decoded.now ++ b.own.now ∷ [] };

    ghost invariant = { λ b. ComesBehind b.decoded.now b.own.now };
}

impl<'a> Beside<'a> {
    /// These vectors, with one more.
    pub(crate) fn new(decoded: &'a Decoded, own: &'a [u8]) -> Beside<'a>
        requires { ComesBehind decoded.now own.now }
        ensures { result ≡ decoded.now ++ own.now ∷ [] }
    {
        Beside { decoded, own }
    }

    /// The vector of a row.
    #[inline]
    fn vector(&self, row: u32) -> &[u8]
        requires { row < length self.now }
        ensures vector { result.now ≡ get_or self.now row [] }
        ensures width { length result.now ≡ width_of self.now }
        ensures short { length result.now ≤ 1024 }
    {
        if row < self.decoded.len() {
            self.decoded.vector(row)
        } else {
            self.own
        }
    }
}

impl<'a> Metric for Beside<'a> {
    ghost use Rattle.std.specs.Prelude.{get_or};
    ghost use Rattle.ann_mdelete.specs.Decoded.{apart_of};
    ghost use Rattle.ann_types.proofs.Distances.{distance_itself, distance_symmetric};

    ghost apart = { λ b. apart_of b };

    ghost size = { λ b. length b };

    fn count(&self) -> u32 {
        self.decoded.len() + 1
    }

    #[inline]
    fn distance(&self, x: u32, y: u32) -> u32 {
        squared(self.vector(x), self.vector(y))
    }

    ghost near_itself = { λ b x. distance_itself (get_or b x []) };

    ghost symmetric = { λ b x y. distance_symmetric (get_or b x []) (get_or b y []) };
}
