//! Merges that have begun.

ghost use Rattle.std.specs.Prelude.{◌≡◌, ◌≤◌, length, IfOk};
ghost use Rattle.ann_stock.specs.Stock.{Out};

use crate::line::{codebook, is_below, opened, params, sealed};
use ann_mbegin::MergeInput;
use ann_merge::Job;
use ann_segment::Segment;
use ann_stock::Stock;
use ann_vault::{MemoryEye, MemorySeal, MemoryVault};
use ann_view::{Op, View};
use std::alloc::Global;
use std::sync::Arc;
use std::test::Fail;

/// A stock over a vault in memory.
pub(crate) type MemoryStock = Stock<MemoryVault, MemoryEye>;

/// A job over a vault in memory.
pub(crate) type MemoryJob = Job<MemoryVault, MemoryEye>;

/// What the merge of a segment alone takes, whose Begin stands at position 6.
pub(crate) fn input(
    alloc: Global,
    segment: Arc<Segment<MemorySeal>>,
) -> Result<MergeInput<MemorySeal>, Fail>
    requires { segment.value.m ≡ 1 }
{
    if segment.number() >= 13 || !is_below(&segment, 3) {
        return Err("another segment".into());
    }
    let params = params()?;
    let book = codebook(alloc)?;
    let mut view = View::resume(alloc, &params, book.clone()?, 6, 3, segment)?;
    view.apply(&Op::Begin)?;
    Ok(MergeInput::of_begin(alloc, &view, 6, &params, book)?)
}

/// The job of a merge: the one that was given back, or a new one; none where it is out.
pub(crate) fn begin(stock: &mut MemoryStock, input: MergeInput<MemorySeal>) -> Option<MemoryJob>
    ensures { stock.new.tools ≡ Out }
{
    if let Some(job) = stock.take_again() {
        return Some(job);
    }
    if stock.is_out() {
        return None;
    }
    Some(stock.take(input))
}

/// A stock with one eye, the job of the line's merge, which is out, and a share of the line. The vault's calls with these
/// numbers fail; the first one was made.
pub(crate) fn begun(
    alloc: Global,
    failing: &[u64],
) -> Result<(MemoryStock, MemoryJob, Arc<Segment<MemorySeal>>), Fail>
    ensures out { IfOk result (λ begun. begun.0.tools ≡ Out) }
    ensures eyes { IfOk result (λ begun. 1 ≤ length begun.1.eyes) }
    ensures line { IfOk result (λ begun. begun.2.value.m ≡ 1) }
{
    let (vault, seal) = sealed(alloc, failing)?;
    let line = opened(alloc, seal)?;
    let eyes = vec![in alloc; MemoryEye::new(alloc, &[])?]?;
    let mut stock = Stock::new(alloc, vault, eyes);
    let job = stock.take(input(alloc, line.clone()?)?);
    Ok((stock, job, line))
}
