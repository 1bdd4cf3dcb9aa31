ghost use Rattle.std.specs.Prelude.{IfOk};

use crate::begun::{MemoryStock, begin, begun, input};
use ann_merge::NoGate;
use ann_segment::Segment;
use ann_vault::{MemorySeal, Vault};
use std::alloc::Global;
use std::sync::Arc;
use std::test::Fail;
use std::thread::Threads;

#[test]
fn a_job_that_was_given_back_is_taken_again(rt: HostRuntime) -> Result<(), Fail> {
    let (mut stock, mut job, line) = begun(rt.alloc(), &[])?;
    job.work(&rt, 1, &NoGate)?;
    assert!(rt; stock.is_out() && !stock.has_job());
    assert!(rt; begin(&mut stock, input(rt.alloc(), line.clone()?)?).is_none());
    stock.give_back(job);
    assert!(rt; stock.has_job() && !stock.is_out());
    let again = begin(&mut stock, input(rt.alloc(), line)?).ok_or("no job")?;
    assert!(rt; again.done() && again.number() == 13 && stock.is_out());
    Ok(())
}

// A stock once the line's merge has ended, and a share of the line.
fn ended<R: Threads + Sync>(
    rt: &R,
    alloc: Global,
    failing: &[u64],
) -> Result<(MemoryStock, Arc<Segment<MemorySeal>>), Fail> {
    let (mut stock, mut job, line) = begun(alloc, failing)?;
    job.work(rt, 1, &NoGate)?;
    if !job.done() {
        return Err("not done".into());
    }
    stock.reserve_retired()?;
    stock.end(job);
    Ok((stock, line))
}

// The numbers of the segments in a stock's vault.
fn numbers(alloc: Global, stock: MemoryStock) -> Result<Vec<u64>, Fail> {
    let mut parts = stock.into_parts().ok_or("out")?;
    let mut numbers = Vec::new(alloc);
    parts.vault.numbers(&mut numbers)?;
    Ok(numbers)
}

#[test]
fn a_segment_that_is_held_stays(rt: HostRuntime) -> Result<(), Fail> {
    let (mut stock, line) = ended(&rt, rt.alloc(), &[])?;
    assert!(rt; stock.clear(0));
    assert_eq!(rt; numbers(rt.alloc(), stock)?.as_slice(), [7, 13].as_slice());
    drop(line);
    Ok(())
}

#[test]
fn a_segment_goes_with_its_last_owner(rt: HostRuntime) -> Result<(), Fail> {
    let (mut stock, line) = ended(&rt, rt.alloc(), &[])?;
    assert!(rt; stock.clear(0));
    drop(line);
    assert!(rt; stock.clear(0));
    assert_eq!(rt; numbers(rt.alloc(), stock)?.as_slice(), [13].as_slice());
    Ok(())
}

#[test]
fn the_segment_of_the_base_stays_in_the_vault(rt: HostRuntime) -> Result<(), Fail> {
    let (mut stock, line) = ended(&rt, rt.alloc(), &[])?;
    drop(line);
    assert!(rt; stock.clear(7));
    assert_eq!(rt; numbers(rt.alloc(), stock)?.as_slice(), [7, 13].as_slice());
    Ok(())
}

// The vault is called once to open the line, and by the job to look for the number, to begin a draft, for the front in three
// writes and the nodes in three, and to seal it; so the removal is its call 11. A removal that is made to fail in an odd call
// isn't done.
#[test]
fn a_failed_removal_is_told_once(rt: HostRuntime) -> Result<(), Fail> {
    let (mut stock, line) = ended(&rt, rt.alloc(), &[11])?;
    drop(line);
    assert!(rt; !stock.clear(0));
    assert!(rt; stock.clear(0));
    assert_eq!(rt; numbers(rt.alloc(), stock)?.as_slice(), [7, 13].as_slice());
    Ok(())
}
