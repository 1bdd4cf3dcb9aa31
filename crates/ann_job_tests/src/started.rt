//! Jobs in memory, and what they seal.

ghost use Rattle.std.specs.Prelude.{◌≡◌, ◌≢◌, ◌≤◌, ◌<◌, All, length, map, MatchOption, IfOk};
ghost use Rattle.std.specs.Arc.{arc_value};
ghost use Rattle.std.specs.Option.{option_map};
ghost use Rattle.ann_frozen.specs.Frozen.{FrozenView};

use crate::pids::ascend;
use ann_dead::Dead;
use ann_frozen::Frozen;
use ann_merge::Job;
use ann_pq::Codebook;
use ann_segment::Segment;
use ann_types::Params;
use ann_vault::{MemoryEye, MemorySeal, MemoryVault, Vault};
use std::alloc::{AllocError, Global};
use std::sync::Arc;
use std::test::Fail;

/// A job over a vault in memory.
pub(crate) type MemoryJob = Job<MemoryVault, MemoryEye>;

/// So many eyes, whose calls with these numbers fail.
pub(crate) fn eyes(alloc: Global, count: u32, failing: &[u64]) -> Result<Vec<MemoryEye>, AllocError>
    ensures { IfOk result (λ eyes. length eyes.items ≡ count) }
{
    let mut eyes = Vec::new(alloc);
    for _ in 0..count {
        eyes.push(MemoryEye::new(alloc, failing)?)?;
    }
    Ok(eyes)
}

/// A job, where the Pids ascend.
pub(crate) fn job(
    alloc: Global,
    vault: MemoryVault,
    eyes: Vec<MemoryEye>,
    old: Option<Arc<Segment<MemorySeal>>>,
    frozen: Vec<Arc<Frozen>>,
    gone: Dead,
    number: u64,
    params: &Params,
    book: Arc<Codebook>,
) -> Result<MemoryJob, Fail>
    requires some { 0 < length eyes.items }
    requires sizes { (book.value.d ≡ params.now.d) × (book.value.m ≡ params.now.m) }
    requires codes { MatchOption (option_map arc_value old) (Unit {0}) (λ segment. segment.m ≡ params.now.m) }
    requires other { MatchOption (option_map arc_value old) (Unit {0}) (λ segment. number ≢ segment.number) }
    requires graphs { All (λ (f : FrozenView). f.params ≡ params.now) (map arc_value frozen.items) }
    ensures eyes { IfOk result (λ job. job.eyes ≡ eyes.items) }
{
    if !ascend(alloc, &old, &frozen)? {
        return Err("Pids don't ascend".into());
    }
    Ok(Job::new(alloc, vault, eyes, old, frozen, gone, number, params, book))
}

/// The bytes that are sealed under a number.
pub(crate) fn bytes_of(
    alloc: Global,
    vault: &mut MemoryVault,
    number: u64,
) -> Result<Vec<u8>, Fail> {
    match vault.open(number)? {
        Some(seal) => Ok(seal.bytes().to_vec(alloc)?),
        None => Err("not sealed".into()),
    }
}
