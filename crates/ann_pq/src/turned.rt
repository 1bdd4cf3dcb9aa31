// The centroids of a codebook turned round, so that a component of all 256 centroids of a part stands side by side.
ghost use Rattle.std.specs.Prelude.{◌≡◌, ◌≤◌, ◌<◌, ◌+◌, ◌*◌, ◌%◌, ℕ, length, map, get_or, IfOk};
ghost use Rattle.std.specs.List.{range_with_len};
ghost use Rattle.ann_types.specs.Distance.{distance};
ghost use Rattle.std.specs.Int.{abs_diff};
ghost use Rattle.ann_lanes.specs.Lanes.{Each1, chunk, square};
ghost use Rattle.ann_pq.specs.Turned.{source, IsTurned, column, IsBlock};

use crate::check::HEAD;
use ann_lanes::squares_of;
use std::alloc::{AllocError, Global};
use std::simd::prelude::*;

/// Where the byte that stands at a place of the turned centroids stands in the bytes of the codebook.
#[inline]
fn source_of(width: usize, place: usize) -> usize
    requires width { (1 ≤ width) × (width ≤ 1024) }
    requires place { place < 262144 }
    ensures { result ≡ source width place }
{
    let component = place / 256;
    HEAD + (256 * (component / width) + place % 256) * width + component % width
}

/// The centroids in the bytes of a codebook, turned round.
pub(crate) fn turn(
    alloc: Global,
    bytes: &[u8],
    d: usize,
    width: usize,
) -> Result<Vec<u8>, AllocError>
    requires width { (1 ≤ width) × (width ≤ 1024) }
    requires whole { d % width ≡ 0 }
    requires few { d ≤ 1024 }
    requires bytes { length bytes.now ≡ 12 + 256 * d }
    ensures length { IfOk result (λ turned. length turned.items ≡ 256 * d) }
    ensures turned { IfOk result (λ turned. IsTurned width d bytes.now turned.items) }
{
    let mut turned = Vec::with_capacity(alloc, 256 * d)?;
    for place in 0..256 * d {
        turned.push_reserved(bytes[source_of(width, place)]);
    }
    Ok(turned)
}

/// The differences of one component to those of sixteen centroids from `at` on, lane by lane and without sign.
#[inline(always)]
fn differences_at(component: u8, turned: &[u8], at: usize) -> u8x16
    requires { at + 16 ≤ length turned.now }
    ensures value { result ≡ map (abs_diff component) (chunk at 16 turned.now) }
    ensures small { Each1 (λ difference. difference ≤ 255) result }
    ensures lanes { length result ≡ 16 }
{
    u8x16::splat(component).abs_diff(u8x16::from_slice(&turned[at..]))
}

/// The distances of a part of a vector to sixteen centroids from `at` on.
#[inline(always)]
fn block_distances(part: &[u8], turned: &[u8], at: usize) -> u32x16
    requires width { length part.now ≤ 1024 }
    requires turned { length turned.now ≡ 256 * length part.now }
    requires at { at + 16 ≤ 256 }
    ensures lanes { length result ≡ 16 }
    ensures value { IsBlock part.now turned.now at (length part.now) result }
    ensures small { Each1 (λ sum. sum ≤ 66585600) result }
{
    let mut sums = u32x16::splat(0);
    for i in 0..part.len() {
        sums = sums.strict_add(squares_of(differences_at(part[i], turned, 256 * i + at)));
    }
    sums
}

/// The distances of a part of a vector to its 256 centroids.
pub(crate) fn distances(part: &[u8], turned: &[u8], out: &mut [u32])
    requires width { length part.now ≤ 1024 }
    requires turned { length turned.now ≡ 256 * length part.now }
    requires out { length out.old ≡ 256 }
    ensures length { length out.new ≡ 256 }
    ensures value { (number : ℕ) → number < 256
        → get_or out.new number 0 ≡ distance part.now (column turned.now number (length part.now)) }
    ensures small { (number : ℕ) → get_or out.new number 0 ≤ 66585600 }
{
    for block in 0..16 {
        block_distances(part, turned, 16 * block).copy_to_slice(&mut out[16 * block..]);
    }
}
