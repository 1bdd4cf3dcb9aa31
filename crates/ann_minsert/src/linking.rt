ghost use Rattle.std.specs.Prelude.{◌≡◌, ◌≤◌, ◌<◌, ◌++◌, ◌∷◌, ◌-◌, ◌^◌, [], length, All, OnOk, OnErr};
ghost use Rattle.ann_types.specs.Kept.{rule_of, kept as kept_by};
ghost use Rattle.ann_mdelete.specs.Decoded.{apart_of};
ghost use Rattle.ann_minsert.specs.Beside.{ComesBehind};
ghost use Rattle.ann_minsert.specs.Links.{AreLinked, seen_rows};

use crate::beside::Beside;
use crate::decode::decode_own;
use crate::graph::Base;
use crate::scratch::LinkScratch;
use ann_greedy::{Graph, walk_visited};
use ann_lanes::touched;
use ann_mdelete::Decoded;
use ann_pool::Pool;
use ann_pq::Codebook;
use ann_prune::{Candidates, prune};
use ann_types::{NewPoint, Params};
use arrayvec::ArrayVec;
use std::alloc::AllocError;

/// Walks through the base for a vector, and leaves in `visited` the rows that it visited.
///
/// The only error is want of memory.
fn visit(
    base: &Base,
    query: &[u8],
    params: &Params,
    pool: &mut Pool,
    visited: &mut Vec<u32>,
) -> Result<(), AllocError>
    requires { All (λ vector. length vector ≡ length query.now) base.now.vectors }
    ensures visited { OnOk result (visited.new.items ≡ seen_rows params.now base.now query.now) }
    ensures rows { OnOk result (All (λ row. row < length base.now.vectors) visited.new.items) }
    ensures few { OnOk result (length visited.new.items ≤ length base.now.vectors) }
{
    base.known();
    visited.clear();
    if Graph::count(base) == 0 {
        return Ok(());
    }
    pool.clear(params.l_build);
    walk_visited(base, query, pool, visited)?;
    Ok(())
}

/// Reads a little of the decoded vector of each row, so that these come from memory side by side.
fn touch_all(decoded: &Decoded, rows: &[u32]) -> u8
    requires { All (λ row. row < length decoded.now) rows.now }
{
    let mut byte = 0;
    for row in rows {
        byte ^= touched(decoded.vector(*row));
    }
    byte
}

/// Makes rows the candidates, and reads a little of their vectors ahead of the prune. The only error is want of memory.
fn gather_warm(
    decoded: &Decoded,
    candidates: &mut Candidates,
    rows: &[u32],
) -> Result<(), AllocError>
    requires inside { All (λ row. row < length decoded.now) rows.now }
    requires few { length rows.now < 2 ^ 32 }
    ensures { OnOk result (candidates.new.rows ≡ rows.now) }
{
    candidates.clear();
    candidates.reserve(rows.len() as u32)?;
    candidates.keep_warm(touch_all(decoded, rows));
    candidates.add_all_within(rows);
    Ok(())
}

/// Leaves in `out` what a new point with this decoded vector keeps of the candidates.
fn keep(
    decoded: &Decoded,
    own: &[u8],
    candidates: &mut Candidates,
    params: &Params,
    out: &mut ArrayVec<u32, 128>,
)
    requires own { ComesBehind decoded.now own.now }
    requires rows { All (λ row. row < length decoded.now) candidates.old.rows }
    ensures { let apart = apart_of (decoded.now ++ own.now ∷ []) in
        out.new.items ≡ kept_by (rule_of params.now) apart (length decoded.now) candidates.old.rows }
{
    let beside = Beside::new(decoded, own);
    prune(&beside, decoded.len(), candidates, params, out);
}

/// Links a new point to a base (FreshDiskANN, section 5.3, insert phase): leaves in `out` the rows of the base that it
/// keeps of those that a walk for its full vector visits, by decoded distances.
///
/// The only error is want of memory, and `out` is then as before. The scratch may hold anything.
pub fn link(
    base: &Base,
    point: &NewPoint,
    book: &Codebook,
    params: &Params,
    scratch: &mut LinkScratch,
    out: &mut ArrayVec<u32, 128>,
) -> Result<(), AllocError>
    requires few { length base.now.vectors < 2 ^ 32 - 1 }
    requires base { All (λ vector. length vector ≡ book.now.d) base.now.vectors }
    requires vector { length point.now.vector ≡ book.now.d }

    // They are the neighbours that the definition gives the point.
    ensures linked { OnOk result (AreLinked params.now book.now.book base.now point.now out.new.items) }
    ensures kept { OnErr result (out.new.items ≡ out.old.items) }
{
    base.known();
    let vector = point.vector.bytes();
    decode_own(book, vector, &mut scratch.code, &mut scratch.own)?;
    visit(
        base,
        vector,
        params,
        &mut scratch.pool,
        &mut scratch.visited,
    )?;
    gather_warm(base.decoded(), &mut scratch.candidates, &scratch.visited)?;
    keep(
        base.decoded(),
        &scratch.own,
        &mut scratch.candidates,
        params,
        out,
    );
    Ok(())
}
