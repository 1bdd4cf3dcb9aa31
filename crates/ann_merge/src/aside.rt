// A merge by some of the eyes, while the others are set aside.
ghost use Rattle.std.specs.Prelude.{◌≡◌, ◌≤◌, ◌<◌, [], length, vec_capacity, IfOk, IfErr, OnOk, OnErr, MatchResult};
ghost use Rattle.std.specs.FinMap.{get};
ghost use Rattle.ann_mpatch.specs.Source.{source_of};
ghost use Rattle.ann_mcause.specs.Eyes.{HaveGone};
ghost use Rattle.ann_merge.specs.Job.{AreSetAside, IsDone, IsMergeText, IsWorkRefused, KeepsNumbers, LeavesNumber};

use crate::merging::Taken;
use crate::pour::pour;
use ann_crew::Gate;
use ann_mdelete::WorkRefused;
use ann_segment::Segment;
use ann_vault::{Eye, Sealed, Vault};
use std::alloc::{AllocError, Global};
use std::thread::Threads;

/// Takes the first eyes out, as many as there are workers, and sets the others aside; the places of all are kept for them.
/// The only error is want of memory, and all eyes then stand where they stood.
fn set_aside<E: Drop>(
    alloc: Global,
    eyes: &mut Vec<E>,
    workers: usize,
) -> Result<(Vec<E>, Vec<E>), AllocError>
    requires { workers ≤ length eyes.old.items }
    ensures aside { IfOk result (λ both.
        AreSetAside workers eyes.old.items both.0.items both.1.items) }
    ensures none { OnOk result (eyes.new.items ≡ []) }
    ensures places { OnOk result (length eyes.old.items ≤ vec_capacity eyes.new) }
    ensures kept { OnErr result (eyes.new.items ≡ eyes.old.items) }
{
    let others = eyes.len() - workers;
    eyes.reserve(0)?;
    let mut active = Vec::with_capacity(alloc, workers)?;
    let mut spare = Vec::with_capacity(alloc, others)?;
    pour(eyes, workers, &mut spare);
    pour(eyes, 0, &mut active);
    Ok((active, spare))
}

/// Merges by the first eyes, as many as there are workers. The eyes stand where they stood, whatever happens.
///
/// # Errors
///
/// `Disk`, `BadSegment` or `Memory`.
pub(crate) fn merge_by<
    R: Threads + Sync,
    S: Sealed + Send + Sync,
    V: Vault<Seal = S>,
    E: Eye<Seal = S> + Send,
    G: Gate + Sync,
>(
    rt: &R,
    alloc: Global,
    gate: &G,
    taken: &Taken<S>,
    workers: usize,
    vault: &mut V,
    eyes: &mut Vec<E>,
) -> Result<Segment<S>, WorkRefused>
    requires workers { (0 < workers) × (workers ≤ 16) }
    requires enough { workers ≤ length eyes.old.items }
    ensures eyes { HaveGone E.reads E.faults eyes.old.items eyes.new.items }
    ensures ends { MatchResult result (IsDone S.tells S.bytes taken.now (V.held vault.new))
        (λ why. S.tells → LeavesNumber (IsMergeText S.bytes taken.now)
        (get (V.held vault.old) taken.now.number) (get (V.held vault.new) taken.now.number) why) }
    ensures others { S.tells → KeepsNumbers taken.now.number (V.held vault.old) (V.held vault.new) }
    ensures vault { V.faults vault.old ≤ V.faults vault.new }
    ensures refused { let source = source_of S.bytes taken.now.old in
        IfErr result (IsWorkRefused E.reads E.faults S.tells source taken.now.params
        (V.faults vault.old) (V.faults vault.new) eyes.old.items eyes.new.items) }
{
    let (mut active, mut spare) = set_aside(alloc, eyes, workers)?;
    let merged = taken.merge(rt, alloc, gate, vault, &mut active);
    pour(&mut active, 0, eyes);
    pour(&mut spare, 0, eyes);
    merged
}
