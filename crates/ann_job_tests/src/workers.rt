ghost use Rattle.std.specs.Prelude.{◌≡◌, ◌≤◌, ◌<◌, All, length, map, IfOk};
ghost use Rattle.std.specs.Arc.{arc_value};
ghost use Rattle.ann_frozen.specs.Frozen.{FrozenView};

use crate::index::{codebook, generated, graph, params};
use crate::started::{MemoryJob, bytes_of, eyes, job};
use ann_dead::Dead;
use ann_frozen::Frozen;
use ann_merge::{Gate, NoGate, Spot};
use ann_types::Params;
use ann_vault::MemoryVault;
use std::alloc::Global;
use std::sync::Arc;
use std::sync::atomic::{AtomicU64, Ordering};
use std::test::Fail;
use std::thread::Threads;

const NUMBER: u64 = 515;

// The graphs of 257 points of the generator, which were frozen at 100 points, at 200 and at the end.
fn graphs(alloc: Global, params: &Params) -> Result<Vec<Arc<Frozen>>, Fail>
    ensures { IfOk result (λ graphs.
        All (λ (f : FrozenView). f.params ≡ params.now) (map arc_value graphs.items)) }
{
    let components = generated(alloc, 1, 514)?;
    let first = graph(alloc, params, &components, 0, 100)?;
    let second = graph(alloc, params, &components, 100, 200)?;
    let third = graph(alloc, params, &components, 200, 257)?;
    Ok(vec![in alloc; first, second, third]?)
}

// A job that merges them, with so many eyes.
fn begun(alloc: Global, workers: u32) -> Result<MemoryJob, Fail>
    requires { 0 < workers }
    ensures { IfOk result (λ job. length job.eyes ≡ workers) }
{
    let params = params(2, 4)?;
    let vault = MemoryVault::new(alloc, &[])?;
    let eyes = eyes(alloc, workers, &[])?;
    let graphs = graphs(alloc, &params)?;
    let book = codebook(alloc, 2)?;
    let gone = Dead::new(alloc);
    job(
        alloc, vault, eyes, None, graphs, gone, NUMBER, &params, book,
    )
}

// What it seals.
fn sealed<R: Threads + Sync>(rt: &R, alloc: Global, workers: u32) -> Result<Vec<u8>, Fail>
    requires { (0 < workers) × (workers ≤ 16) }
{
    let mut job = begun(alloc, workers)?;
    job.work(rt, workers, &NoGate)?;
    let mut parts = job.into_parts();
    bytes_of(alloc, &mut parts.vault, NUMBER)
}

// The hash of bytes (FNV-1a).
fn hash_of(bytes: &[u8]) -> u64 {
    let mut hash: u64 = 14_695_981_039_346_656_037;
    for byte in bytes {
        hash = (hash ^ u64::from(*byte)).wrapping_mul(1_099_511_628_211);
    }
    hash
}

// The hash and the number of the bytes of one worker, where two and sixteen seal the same.
fn same_for_all<R: Threads + Sync>(rt: &R, alloc: Global) -> Result<(u64, usize), Fail> {
    let alone = sealed(rt, alloc, 1)?;
    if sealed(rt, alloc, 2)? != alone || sealed(rt, alloc, 16)? != alone {
        return Err("other bytes".into());
    }
    Ok((hash_of(&alone), alone.len()))
}

#[test]
fn each_number_of_workers_seals_the_same_bytes(rt: HostRuntime) -> Result<(), Fail> {
    let hashed = same_for_all(&rt, rt.alloc())?;
    assert!(rt; hashed == (0x004B_5483_2ACB_ACB3, 1_060_864));
    Ok(())
}

// A gate at which the pieces 0 and 1 of the last phase wait until both have come, or for ten million turns.
#[derive(Drop)]
struct Meeting {
    come: AtomicU64,
    given_up: AtomicU64,
}

impl Meeting {
    fn new() -> Meeting {
        Meeting {
            come: AtomicU64::new(0),
            given_up: AtomicU64::new(0),
        }
    }

    fn wait(&self) {
        for _ in 0..10_000_000u32 {
            if self.come.load(Ordering::SeqCst) >= 2 {
                return;
            }
        }
        self.given_up.fetch_add(1, Ordering::SeqCst);
    }
}

impl Gate for Meeting {
    fn pass(&self, spot: Spot) {
        if let Spot::Piece { phase: 3, number } = spot {
            if number < 2 {
                self.come.fetch_add(1, Ordering::SeqCst);
                self.wait();
            }
        }
    }
}

// How many pieces came, and how many gave up waiting.
fn meet<R: Threads + Sync>(rt: &R, alloc: Global, workers: u32) -> Result<(u64, u64), Fail>
    requires { (0 < workers) × (workers ≤ 16) }
{
    let meeting = Meeting::new();
    let mut job = begun(alloc, workers)?;
    job.work(rt, workers, &meeting)?;
    let come = meeting.come.load(Ordering::SeqCst);
    let given_up = meeting.given_up.load(Ordering::SeqCst);
    Ok((come, given_up))
}

#[test]
fn two_pieces_of_the_last_phase_wait_for_each_other(rt: HostRuntime) -> Result<(), Fail> {
    let met = meet(&rt, rt.alloc(), 2)?;
    assert!(rt; met == (2, 0));
    Ok(())
}
