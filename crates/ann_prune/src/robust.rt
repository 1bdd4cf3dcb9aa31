ghost use Rattle.std.specs.Prelude.{◌≡◌, ◌<◌, ◌++◌, ◌∷◌, ◌^◌, [], length, map, All, eqb};
ghost use Rattle.std.specs.List.{IsDistinct};
ghost use Rattle.ann_types.specs.Order.{in_order, ascending};
ghost use Rattle.ann_types.specs.Kept.{rule_of, covered, keep};
ghost use Rattle.std.specs.List.Sorted.{IsPermutation, IsNonDecreasingBy};
ghost use Rattle.ann_prune.specs.Rows.{row_of, key_of, IsMeasured, IsCandidate, AreCandidates};
ghost use Rattle.ann_prune.specs.Gathered.{AreRows, IsPruned};
ghost use Rattle.ann_prune.specs.Newer.{AreSettled, AreKept, IsNew, IsNext, TellsRepeated, fresh_of, with_tried};

use crate::candidates::{Candidate, Candidates};
use crate::metric::Metric;
use ann_types::Params;
use arrayvec::ArrayVec;

/// Measures how far each candidate is from p.
fn measure<M: Metric>(metric: &M, p: u32, items: &mut [Candidate])
    requires p { p < M.size metric.now }
    requires rows { All (λ c. c.row < M.size metric.now) items.old }
    ensures rows { map row_of items.new ≡ map row_of items.old }
    ensures far { All (IsMeasured (M.apart metric.now p)) items.new }
{
    for i in 0..items.len() {
        let row = items[i].row;
        items[i].distance = metric.distance(p, row);
    }
}

/// Puts measured candidates in order of distance and row.
fn sort(items: &mut [Candidate])
    ensures same { IsPermutation items.old items.new }
    ensures order { IsNonDecreasingBy key_of items.new }
{
    items.sort_unstable_by_key(|candidate| {
        u64::from(candidate.distance) * 4_294_967_296 + u64::from(candidate.row)
    });
}

/// Whether one of these kept rows leaves a candidate out.
fn is_covered<M: Metric>(
    metric: &M,
    params: &Params,
    kept: &[u32],
    p: u32,
    candidate: &Candidate,
) -> bool
    requires candidate { IsCandidate (M.size metric.now) (M.apart metric.now p) candidate.now }
    requires kept { All (λ k. k < M.size metric.now) kept.now }
    ensures { result ≡ covered (rule_of params.now) (M.apart metric.now) p kept.now candidate.now.row }
{
    let a = u64::from(params.a);
    let b = u64::from(params.b);
    let bound = b * b * u64::from(candidate.distance);
    for k in kept {
        if a * a * u64::from(metric.distance(*k, candidate.row)) <= bound {
            return true;
        }
    }
    false
}

/// Whether a kept row leaves a candidate out.
///
/// Of two rows below `newer` it is known that neither leaves out the other, so a candidate there is tried against the
/// fresh ones alone: the kept rows at or above `newer`.
fn is_left_out<M: Metric>(
    metric: &M,
    params: &Params,
    kept: &[u32],
    fresh: &[u32],
    newer: u32,
    p: u32,
    candidate: &Candidate,
) -> bool
    requires candidate { IsCandidate (M.size metric.now) (M.apart metric.now p) candidate.now }
    requires kept { AreKept (M.size metric.now) newer kept.now fresh.now }
    requires new { IsNew (rule_of params.now) (M.apart metric.now) p newer kept.now candidate.now.row }
    ensures { result ≡ covered (rule_of params.now) (M.apart metric.now) p kept.now candidate.now.row }
{
    if candidate.row < newer {
        return is_covered(metric, params, fresh, p, candidate);
    }
    is_covered(metric, params, kept, p, candidate)
}

/// Adds a row to those that are kept, and to the fresh ones of them where it isn't below `newer`.
fn keep_row(out: &mut ArrayVec<u32, 128>, fresh: &mut ArrayVec<u32, 128>, newer: u32, row: u32)
    requires room { length out.old.items < 128 }
    requires fresh { fresh.old.items ≡ fresh_of newer out.old.items }
    ensures kept { out.new.items ≡ out.old.items ++ row ∷ [] }
    ensures fresh { fresh.new.items ≡ fresh_of newer out.new.items }
{
    out.push(row);
    if newer <= row {
        fresh.push(row);
    }
}

/// Keeps a candidate unless it was tried just before, or a kept one leaves it out.
fn try_keep<M: Metric>(
    metric: &M,
    params: &Params,
    out: &mut ArrayVec<u32, 128>,
    fresh: &mut ArrayVec<u32, 128>,
    newer: u32,
    p: u32,
    candidate: &Candidate,
    repeated: bool,
)
    requires candidate { IsCandidate (M.size metric.now) (M.apart metric.now p) candidate.now }
    requires kept { AreKept (M.size metric.now) newer out.old.items fresh.old.items }
    requires room { length out.old.items < params.now.r }
    requires next { let rule = rule_of params.now in
        IsNext rule (M.apart metric.now) p newer out.old.items candidate.now.row repeated }
    ensures kept { let rule = rule_of params.now in
        out.new.items ≡ with_tried rule (M.apart metric.now) p out.old.items candidate.now.row }
    ensures fresh { fresh.new.items ≡ fresh_of newer out.new.items }
{
    if !repeated && !is_left_out(metric, params, out, fresh, newer, p, candidate) {
        keep_row(out, fresh, newer, candidate.row);
    }
}

/// Whether the candidate before has the same row.
fn is_repeated(items: &[Candidate], at: usize) -> bool
    requires { at < length items.now }
    ensures { TellsRepeated (map row_of items.now) at result }
{
    at > 0 && items[at - 1].row == items[at].row
}

/// Keeps of sorted candidates, in order, each one that no kept one leaves out, up to the degree.
fn keep_each<M: Metric>(
    metric: &M,
    params: &Params,
    p: u32,
    items: &[Candidate],
    newer: u32,
    out: &mut ArrayVec<u32, 128>,
)
    requires small { M.size metric.now < 2 ^ 32 }
    requires candidates { AreCandidates (M.size metric.now) (M.apart metric.now p) items.now }
    requires order { IsNonDecreasingBy key_of items.now }
    requires settled { AreSettled (rule_of params.now) (M.apart metric.now) p newer (map row_of items.now) }
    requires empty { out.old.items ≡ [] }
    ensures { out.new.items ≡ keep (rule_of params.now) (M.apart metric.now) p [] (map row_of items.now) }
{
    let most = usize::from(params.r);
    let mut fresh = ArrayVec::new();
    for at in 0..items.len() {
        if out.len() == most {
            break;
        }
        let repeated = is_repeated(items, at);
        try_keep(
            metric, params, out, &mut fresh, newer, p, &items[at], repeated,
        );
    }
}

/// Measures and sorts the candidates, and keeps of them in order of their distance to p.
fn keep_in_order<M: Metric>(
    metric: &M,
    params: &Params,
    p: u32,
    items: &mut [Candidate],
    newer: u32,
    out: &mut ArrayVec<u32, 128>,
)
    requires rows { AreRows (M.size metric.now) p (map row_of items.old) }
    requires settled { AreSettled (rule_of params.now) (M.apart metric.now) p newer (map row_of items.old) }
    requires empty { out.old.items ≡ [] }
    ensures { let apart = M.apart metric.now in
        out.new.items ≡ keep (rule_of params.now) apart p [] (in_order (apart p) (map row_of items.old)) }
{
    let _small = metric.count();
    measure(metric, p, items);
    sort(items);
    keep_each(metric, params, p, items, newer, out);
}

/// Puts rows that differ in ascending order.
fn ascend(rows: &mut [u32])
    requires { IsDistinct eqb rows.old }
    ensures { rows.new ≡ ascending rows.old }
{
    rows.sort_unstable();
}

/// Leaves in `out` the rows that p keeps of the candidates, in ascending order (RobustPrune of DiskANN, section 2.2),
/// and empties the candidates.
///
/// Takes no memory.
pub fn prune<M: Metric>(
    metric: &M,
    p: u32,
    candidates: &mut Candidates,
    params: &Params,
    out: &mut ArrayVec<u32, 128>,
)
    requires rows { AreRows (M.size metric.now) p candidates.old.rows }
    ensures { let apart = M.apart metric.now in
        IsPruned (rule_of params.now) apart p candidates.old candidates.new out.new.items }
{
    prune_newer(metric, p, candidates, 0, params, out);
}

/// As `prune`, where of the candidates below `newer` none leaves out another, since an earlier prune kept them: they are
/// tried against the newer ones alone.
///
/// Takes no memory.
pub fn prune_newer<M: Metric>(
    metric: &M,
    p: u32,
    candidates: &mut Candidates,
    newer: u32,
    params: &Params,
    out: &mut ArrayVec<u32, 128>,
)
    requires rows { AreRows (M.size metric.now) p candidates.old.rows }
    requires settled { AreSettled (rule_of params.now) (M.apart metric.now) p newer candidates.old.rows }
    ensures { let apart = M.apart metric.now in
        IsPruned (rule_of params.now) apart p candidates.old candidates.new out.new.items }
{
    out.clear();
    keep_in_order(metric, params, p, &mut candidates.items, newer, out);
    candidates.items.clear();
    ascend(out.as_mut_slice());
}
