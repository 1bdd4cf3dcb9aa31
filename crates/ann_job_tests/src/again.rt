ghost use Rattle.std.specs.Prelude.{◌≡◌, ◌≤◌, ◌<◌, length, IfOk};

use crate::index::{codebook, graph, params};
use crate::old::{Block, opened, text};
use crate::started::{MemoryJob, eyes, job};
use ann_dead::Dead;
use ann_mdelete::WorkRefused;
use ann_merge::NoGate;
use ann_segment::Segment;
use ann_types::{Params, Pid};
use ann_vault::{MemorySeal, MemoryVault, Vault};
use std::alloc::{AllocError, Global};
use std::sync::Arc;
use std::test::Fail;
use std::thread::Threads;

/// A merge of the line index (d 1, R 2, L 10, alpha 1, m 1, where the code of a vector is its component): the number and the
/// blocks of the old segment, the deleted Pids, the end of the Pids from 3 on whose points are new, and the number and the
/// blocks of the merged segment. A point's tag is its Pid, and its component is ten times one more.
struct Merge {
    old: (u64, &'static [Block]),
    gone: &'static [Pid],
    end: Pid,
    merged: (u64, &'static [Block]),
}

// The points at 10, 20 and 30, in a line; the entry is the second.
const LINE: [Block; 5] = [
    (
        &[
            0x41, 0x4e, 0x4e, 0x53, 0x45, 0x47, 0x30, 0x31, 7, 0, 0, 0, 0, 0, 0, 0, 1, 0, 2, 0, 1,
            0, 0, 0, 3, 0, 0, 0, 1,
        ],
        4096,
    ),
    (&[0, 0, 0, 0, 10, 1, 0, 0, 0, 20, 2, 0, 0, 0, 30], 8192),
    (
        &[
            0, 0, 0, 0, 1, 0, 0, 0, 0, 0, 0, 0, 0, 0, 0, 0, 10, 1, 0, 0, 0,
        ],
        12288,
    ),
    (
        &[
            1, 0, 0, 0, 2, 0, 0, 0, 1, 0, 0, 0, 0, 0, 0, 0, 20, 0, 0, 0, 0, 2, 0, 0, 0,
        ],
        16384,
    ),
    (
        &[
            2, 0, 0, 0, 1, 0, 0, 0, 2, 0, 0, 0, 0, 0, 0, 0, 30, 1, 0, 0, 0,
        ],
        20480,
    ),
];

// Without the second, whose neighbours are linked to each other, and with a point at 40.
const SPLICED: [Block; 5] = [
    (
        &[
            0x41, 0x4e, 0x4e, 0x53, 0x45, 0x47, 0x30, 0x31, 13, 0, 0, 0, 0, 0, 0, 0, 1, 0, 2, 0, 1,
            0, 0, 0, 3, 0, 0, 0, 1,
        ],
        4096,
    ),
    (&[0, 0, 0, 0, 10, 2, 0, 0, 0, 30, 3, 0, 0, 0, 40], 8192),
    (
        &[
            0, 0, 0, 0, 1, 0, 0, 0, 0, 0, 0, 0, 0, 0, 0, 0, 10, 1, 0, 0, 0,
        ],
        12288,
    ),
    (
        &[
            2, 0, 0, 0, 2, 0, 0, 0, 2, 0, 0, 0, 0, 0, 0, 0, 30, 0, 0, 0, 0, 2, 0, 0, 0,
        ],
        16384,
    ),
    (
        &[
            3, 0, 0, 0, 1, 0, 0, 0, 3, 0, 0, 0, 0, 0, 0, 0, 40, 1, 0, 0, 0,
        ],
        20480,
    ),
];

// No point, and no entry.
const EMPTY: [Block; 1] = [(
    &[
        0x41, 0x4e, 0x4e, 0x53, 0x45, 0x47, 0x30, 0x31, 13, 0, 0, 0, 0, 0, 0, 0, 1, 0, 2, 0, 1, 0,
        0, 0, 0, 0, 0, 0, 255, 255, 255, 255,
    ],
    4096,
)];

// Two points at 40 and 50; the first is the entry, by the tie.
const TWO: [Block; 4] = [
    (
        &[
            0x41, 0x4e, 0x4e, 0x53, 0x45, 0x47, 0x30, 0x31, 17, 0, 0, 0, 0, 0, 0, 0, 1, 0, 2, 0, 1,
            0, 0, 0, 2, 0, 0, 0, 0, 0, 0, 0,
        ],
        4096,
    ),
    (&[3, 0, 0, 0, 40, 4, 0, 0, 0, 50], 8192),
    (
        &[
            3, 0, 0, 0, 1, 0, 0, 0, 3, 0, 0, 0, 0, 0, 0, 0, 40, 1, 0, 0, 0,
        ],
        12288,
    ),
    (
        &[
            4, 0, 0, 0, 1, 0, 0, 0, 4, 0, 0, 0, 0, 0, 0, 0, 50, 0, 0, 0, 0,
        ],
        16384,
    ),
];

const SPLICE: Merge = Merge {
    old: (7, &LINE),
    gone: &[1],
    end: 4,
    merged: (13, &SPLICED),
};

// Every point is deleted; and what is merged into a segment without points.
const EDGES: [Merge; 2] = [
    Merge {
        old: (7, &LINE),
        gone: &[0, 1, 2],
        end: 3,
        merged: (13, &EMPTY),
    },
    Merge {
        old: (13, &EMPTY),
        gone: &[],
        end: 5,
        merged: (17, &TWO),
    },
];

// The deleted Pids.
fn dead(alloc: Global, gone: &[Pid]) -> Result<Dead, AllocError> {
    let mut dead = Dead::new(alloc);
    for pid in gone {
        dead.add(*pid)?;
    }
    Ok(dead)
}

// The old segment, one byte of which is another.
fn old(
    alloc: Global,
    merge: &Merge,
    change: (usize, u8),
    params: &Params,
) -> Result<Segment<MemorySeal>, Fail>
    ensures codes { IfOk result (λ segment. segment.m ≡ params.now.m) }
{
    let (number, blocks) = merge.old;
    let mut bytes = text(alloc, blocks)?;
    if let Some(byte) = bytes.get_mut(change.0) {
        *byte = change.1;
    }
    opened(alloc, number, &bytes, params)
}

// The job of a merge over a vault, where one byte of the old segment is another.
fn begun(
    alloc: Global,
    merge: &Merge,
    vault: MemoryVault,
    change: (usize, u8),
    workers: u32,
    failing: &[u64],
) -> Result<MemoryJob, Fail>
    requires { 0 < workers }
    ensures { IfOk result (λ job. length job.eyes ≡ workers) }
{
    let params = params(1, 10)?;
    let old = old(alloc, merge, change, &params)?;
    let number = merge.merged.0;
    if old.number() == number {
        return Err("one number".into());
    }
    let new = graph(alloc, &params, &[10, 20, 30, 40, 50], 3, merge.end)?;
    let eyes = eyes(alloc, workers, failing)?;
    job(
        alloc,
        vault,
        eyes,
        Some(Arc::new(alloc, old)?),
        vec![in alloc; new]?,
        dead(alloc, merge.gone)?,
        number,
        &params,
        codebook(alloc, 1)?,
    )
}

// Whether a job isn't done and tells a fault once.
fn tells_once(job: &mut MemoryJob) -> bool
    ensures { job.new.eyes ≡ job.old.eyes }
{
    let undone = !job.done();
    let told = job.take_fault();
    let again = job.take_fault();
    undone && told && !again
}

// How often the work is refused with a fault until the job is done.
fn refusals<R: Threads + Sync>(rt: &R, job: &mut MemoryJob, workers: u32) -> Result<u32, Fail>
    requires workers { (0 < workers) × (workers ≤ 16) }
    requires enough { workers ≤ length job.old.eyes }
{
    for refused in 0..=workers {
        match job.work(rt, workers, &NoGate) {
            Ok(()) => return Ok(refused),
            Err(WorkRefused::Disk) => {
                if !tells_once(job) {
                    return Err("a fault isn't told once".into());
                }
            }
            Err(why) => return Err(why.into()),
        }
    }
    Err("refused once more than there are eyes".into())
}

// Whether a job has sealed these blocks.
fn has_sealed(alloc: Global, job: MemoryJob, blocks: &[Block]) -> Result<bool, Fail> {
    let parts = job.into_parts();
    let Some(segment) = &parts.segment else {
        return Ok(false);
    };
    let wanted = text(alloc, blocks)?;
    Ok(segment.seal().bytes() == wanted.as_slice())
}

// How often a merge is refused before its blocks are sealed.
fn refused<R: Threads + Sync>(
    rt: &R,
    alloc: Global,
    merge: &Merge,
    vault: MemoryVault,
    workers: u32,
    failing: &[u64],
) -> Result<u32, Fail>
    requires { (0 < workers) × (workers ≤ 16) }
{
    let mut job = begun(alloc, merge, vault, (0, 0x41), workers, failing)?;
    let refused = refusals(rt, &mut job, workers)?;
    if !has_sealed(alloc, job, merge.merged.1)? {
        return Err("other bytes".into());
    }
    Ok(refused)
}

// The first merge at the edge that is refused, or by which other bytes are sealed.
fn first_edge<R: Threads + Sync>(rt: &R, alloc: Global) -> Result<Option<usize>, Fail> {
    for (at, merge) in EDGES.iter().enumerate() {
        let vault = MemoryVault::new(alloc, &[])?;
        if refused(rt, alloc, merge, vault, 1, &[])? > 0 {
            return Ok(Some(at));
        }
    }
    Ok(None)
}

#[test]
fn every_point_is_deleted_and_none_was_there(rt: HostRuntime) -> Result<(), Fail> {
    let other = first_edge(&rt, rt.alloc())?;
    assert!(rt; other == None);
    Ok(())
}

// The first call of the vault that may fail without a refusal, where it was called so often before.
fn calls<R: Threads + Sync>(rt: &R, alloc: Global, workers: u32, before: bool) -> Result<u64, Fail>
    requires { (0 < workers) × (workers ≤ 16) }
{
    for call in 1..=100u64 {
        let mut vault = MemoryVault::new(alloc, &[call + u64::from(before)])?;
        if before {
            vault.open(1)?;
        }
        if refused(rt, alloc, &SPLICE, vault, workers, &[])? != 1 {
            return Ok(call);
        }
    }
    Ok(0)
}

// What is sealed under the number is looked for, the draft is begun, the front is written in three calls and the nodes in
// three, and the draft is sealed. A seal that is made to fail in an even call is done, and then removed by the next work.
#[test]
fn each_call_of_the_vault_may_fail(rt: HostRuntime) -> Result<(), Fail> {
    let one = calls(&rt, rt.alloc(), 1, false)?;
    let other = calls(&rt, rt.alloc(), 1, true)?;
    let three = calls(&rt, rt.alloc(), 3, true)?;
    assert!(rt; (one, other, three) == (10, 10, 10));
    Ok(())
}

// The first call of an eye that may fail without a refusal.
fn reads<R: Threads + Sync>(rt: &R, alloc: Global, workers: u32) -> Result<u64, Fail>
    requires { (0 < workers) × (workers ≤ 16) }
{
    for call in 1..=100u64 {
        let vault = MemoryVault::new(alloc, &[])?;
        if refused(rt, alloc, &SPLICE, vault, workers, &[call])? == 0 {
            return Ok(call);
        }
    }
    Ok(0)
}

// The old lists are read at once, and then the blocks of the two survivors, by the same eye or another.
#[test]
fn each_call_of_an_eye_may_fail(rt: HostRuntime) -> Result<(), Fail> {
    let one = reads(&rt, rt.alloc(), 1)?;
    let three = reads(&rt, rt.alloc(), 3)?;
    assert!(rt; one == 4 && three >= 3);
    Ok(())
}

/// A byte that is changed, and the block that is bad.
const CHANGES: [((usize, u8), u64); 4] = [
    // A degree above R, twice, a row that there isn't, and a byte behind the neighbours.
    ((8196, 3), 2),
    ((12292, 3), 3),
    ((16401, 3), 4),
    ((20479, 1), 4),
];

// Whether a merge is refused for this block, and no fault is told.
fn is_bad<R: Threads + Sync>(
    rt: &R,
    alloc: Global,
    change: (usize, u8),
    block: u64,
) -> Result<bool, Fail> {
    let vault = MemoryVault::new(alloc, &[])?;
    let mut job = begun(alloc, &SPLICE, vault, change, 2, &[])?;
    let why = job.work(rt, 2, &NoGate);
    let told = why == Err(WorkRefused::BadSegment { block });
    Ok(told && !job.done() && !job.take_fault())
}

// The first change for which a merge is refused otherwise.
fn first_change<R: Threads + Sync>(rt: &R, alloc: Global) -> Result<Option<usize>, Fail> {
    for (at, (change, block)) in CHANGES.iter().enumerate() {
        if !is_bad(rt, alloc, *change, *block)? {
            return Ok(Some(at));
        }
    }
    Ok(None)
}

#[test]
fn a_changed_byte_is_told_by_its_block(rt: HostRuntime) -> Result<(), Fail> {
    let other = first_change(&rt, rt.alloc())?;
    assert!(rt; other == None);
    Ok(())
}
