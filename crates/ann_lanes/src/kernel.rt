ghost use Rattle.std.specs.Prelude.{◌≡◌, ◌≤◌, ◌+◌, ◌*◌, length, map};
ghost use Rattle.std.specs.Int.{abs_diff};
ghost use Rattle.ann_types.specs.Distance.{distance};
ghost use Rattle.ann_lanes.specs.Lanes.{Each1, zip2, chunk, square};

use std::simd::prelude::*;

/// The differences of sixteen components from `at` on, lane by lane and without sign.
#[inline(always)]
fn differences_at(x: &[u8], y: &[u8], at: usize) -> u8x16
    requires x_has { at + 16 ≤ length x.now }
    requires y_has { at + 16 ≤ length y.now }
    ensures value { result ≡ zip2 abs_diff (chunk at 16 x.now) (chunk at 16 y.now) }
    ensures small { Each1 (λ difference. difference ≤ 255) result }
    ensures lanes { length result ≡ 16 }
{
    u8x16::from_slice(&x[at..]).abs_diff(u8x16::from_slice(&y[at..]))
}

/// The square of each lane.
#[inline(always)]
pub fn squares_of(differences: u8x16) -> u32x16
    requires small { Each1 (λ difference. difference ≤ 255) differences }
    requires lanes { length differences ≡ 16 }
    ensures value { result ≡ map square differences }
    ensures small { Each1 (λ square. square ≤ 65025) result }
    ensures lanes { length result ≡ 16 }
{
    let wide = differences.cast::<u32>();
    wide.strict_mul(wide)
}

/// The squared distance of fewer components than a block has.
#[inline(always)]
fn squared_rest(x: &[u8], y: &[u8]) -> u32
    requires same { length x.now ≡ length y.now }
    requires short { length x.now ≤ 1024 }
    ensures value { result ≡ distance x.now y.now }
    ensures small { result ≤ 65025 * length x.now }
{
    let mut sum = 0;
    for i in 0..x.len() {
        let difference = x[i].abs_diff(y[i]) as u32;
        sum += difference * difference;
    }
    sum
}

/// The squared distance of two vectors of one length, of at most 1024 components.
///
/// At most `1024 * 255 * 255`, so it fits with room for the products that prunes take.
#[inline(always)]
pub fn squared(x: &[u8], y: &[u8]) -> u32
    requires same { length x.now ≡ length y.now }
    requires short { length x.now ≤ 1024 }
    ensures value { result ≡ distance x.now y.now }
    ensures small { result ≤ 65025 * length x.now }
{
    let blocks = x.len() / 16;
    let mut sums = u32x16::splat(0);
    for block in 0..blocks {
        sums = sums.strict_add(squares_of(differences_at(x, y, 16 * block)));
    }
    let whole = 16 * blocks;
    sums.strict_reduce_sum() + squared_rest(&x[whole..], &y[whole..])
}

/// A byte made of the first component, the one 64 places behind it and the last one.
///
/// Taken of vectors that are compared soon, all before the first is compared: so their memory is read side by side.
#[inline(always)]
pub fn touched(vector: &[u8]) -> u8 {
    let first = vector.first().copied().unwrap_or(0);
    let second = vector.get(64).copied().unwrap_or(0);
    first ^ second ^ vector.last().copied().unwrap_or(0)
}
