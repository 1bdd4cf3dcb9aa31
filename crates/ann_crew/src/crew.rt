ghost use Rattle.std.specs.Prelude.{◌≡◌, ◌≤◌, ◌<◌, ◌+◌, ◌++◌, ℕ, [], map, length, reverse, get_or, true, All, OnOk, OnErr, IfOk, IfErr, vec_len, vec_capacity};
ghost use Rattle.ann_claim.specs.Claims.{Lot, newcomer_of, all_drawn};
ghost use Rattle.ann_crew.specs.Members.{IsFresh, HasDrawn, IsEnded, worker_of, drawn_of};
ghost use Rattle.ann_crew.specs.Crew.{AreWorked, ArePieces, IsCaused, AreGathered, AreSettled, IsRefusalOf};
ghost use Rattle.ann_mdelete.specs.declared.refused.WorkRefused.TheVariants.{Memory};

use crate::gate::Gate;
use crate::member::{Drawn, Member, draw_all};
use crate::order::{put_in_order, without_numbers};
use crate::task::{Stretch, Task};
use ann_claim::{Claimer, Claims};
use ann_mdelete::WorkRefused;
use std::alloc::{AllocError, Global};
use std::thread::Threads;
use std::{mem, thread};

/// Gives each worker a claimer, within the room that there is. The members stand in the other order.
fn fill<W: Drop, P: Drop>(
    alloc: Global,
    mut workers: Vec<W>,
    mut claimers: Vec<Claimer>,
    members: &mut Vec<Member<W, P>>,
)
    requires same { length claimers.items ≡ length workers.items }
    requires none { members.old.items ≡ [] }
    requires room { vec_len workers ≤ vec_capacity members.old }
    ensures workers { reverse (map worker_of members.new.items) ≡ workers.items }
    ensures fresh { (lot : Lot)
        → All (λ c. c ≡ newcomer_of lot) claimers.items → All (IsFresh lot) members.new.items }
{
    while let Some(worker) = workers.pop() {
        let Some(claimer) = claimers.pop() else {
            unreachable!()
        };
        members.push_reserved(Member {
            claimer,
            worker,
            results: Vec::new(alloc),
            refusal: None,
        });
    }
}

/// Makes members of the workers, in the other order. The workers' places are kept for them. The only error is want of
/// memory, and the workers then stand where they stood.
fn enlist<W: Drop, P: Drop>(
    alloc: Global,
    workers: &mut Vec<W>,
    claimers: Vec<Claimer>,
) -> Result<Vec<Member<W, P>>, AllocError>
    requires same { length claimers.items ≡ length workers.old.items }
    ensures members { IfOk result (λ members. reverse (map worker_of members.items) ≡ workers.old.items) }
    ensures fresh { IfOk result (λ members. (lot : Lot)
        → All (λ c. c ≡ newcomer_of lot) claimers.items → All (IsFresh lot) members.items) }
    ensures none { OnOk result (workers.new.items ≡ []) }
    ensures places { OnOk result (length workers.old.items ≤ vec_capacity workers.new) }
    ensures kept { OnErr result (workers.new.items ≡ workers.old.items) }
{
    let mut members = Vec::with_capacity(alloc, workers.len())?;
    let places = Vec::with_capacity(alloc, workers.len())?;
    let all = mem::replace(workers, places);
    fill(alloc, all, claimers, &mut members);
    Ok(members)
}

/// Lets each member draw, in a thread of its own.
fn draw_side_by_side<R: Threads + Sync, W: Send + Drop, G: Gate + Sync, T: Task<W> + Sync>(
    rt: &R,
    gate: &G,
    task: &T,
    stretch: Stretch,
    claims: &Claims,
    members: &mut [Member<W, T::Piece>],
)
    requires some { 0 < length members.old }
    requires within { stretch.first + claims.now.numbers ≤ T.count task.now }
    requires small { stretch.first + claims.now.numbers ≤ 4294967296 }
    requires fresh { All (IsFresh claims.now) members.old }
    ensures same { length members.new ≡ length members.old }
    ensures drawn { (i : ℕ) (d : _) → i < length members.old → HasDrawn (T.goes task.now) (T.causes task.now)
        (T.is_piece task.now) stretch.first claims.now (get_or members.old i d) (get_or members.new i d) }
{
    let threads = members.len();
    thread::for_each_mut(
        rt,
        members,
        threads,
        &move |_place: usize, member: &mut Member<W, T::Piece>|
            requires within { stretch.first + claims.now.numbers ≤ T.count task.now }
            requires small { stretch.first + claims.now.numbers ≤ 4294967296 }
            requires fresh { IsFresh claims.now member.now }
            ensures { HasDrawn (T.goes task.entry.now) (T.causes task.entry.now) (T.is_piece task.entry.now)
                stretch.first claims.entry.now member.entry.now member.exit.now }
        { draw_all(gate, task, stretch, claims, member) },
    );
}

/// Puts the workers back into their places, and what they drew beside, within the room that there is.
fn disband<W: Drop, P: Drop>(
    mut members: Vec<Member<W, P>>,
    workers: &mut Vec<W>,
    drawn: &mut Vec<Drawn<P>>,
)
    requires no_workers { workers.old.items ≡ [] }
    requires none_drawn { drawn.old.items ≡ [] }
    requires places { vec_len members ≤ vec_capacity workers.old }
    requires room { vec_len members ≤ vec_capacity drawn.old }
    ensures workers { workers.new.items ≡ reverse (map worker_of members.items) }
    ensures drawn { drawn.new.items ≡ reverse (map drawn_of members.items) }
{
    while let Some(member) = members.pop() {
        let Member {
            claimer,
            worker,
            results,
            refusal,
        } = member;
        workers.push_reserved(worker);
        drawn.push_reserved(Drawn {
            claimer,
            results,
            refusal,
        });
    }
}

/// Joins what was drawn: the claimers and all results, from the last one on.
///
/// # Errors
///
/// The refusal of a worker, or want of memory.
fn gather<P: Drop>(
    alloc: Global,
    mut drawn: Vec<Drawn<P>>,
) -> Result<(Vec<Claimer>, Vec<(u32, P)>), WorkRefused>
    ensures gathered { IfOk result (λ r. AreGathered (reverse drawn.items) r.0.items r.1.items) }
    ensures refused { IfErr result (λ why. IsRefusalOf drawn.items why) }
{
    let mut claimers = Vec::with_capacity(alloc, drawn.len())?;
    let mut results = Vec::new(alloc);
    while let Some(one) = drawn.pop() {
        let Drawn {
            claimer,
            results: mut more,
            refusal,
        } = one;
        if let Some(why) = refusal {
            return Err(why);
        }
        claimers.push_reserved(claimer);
        results.append(&mut more)?;
    }
    Ok((claimers, results))
}

/// The pieces in order of their numbers.
fn settle<P: Drop>(
    alloc: Global,
    count: u32,
    claims: Claims,
    drawn: Vec<Drawn<P>>,
) -> Result<Vec<P>, WorkRefused>
    requires count { count ≡ claims.numbers }
    requires all { length drawn.items ≡ claims.seats }
    requires ended { All (IsEnded claims) drawn.items }
    ensures settled { IfOk result (λ pieces. AreSettled (reverse drawn.items) count pieces.items) }
    ensures refused { IfErr result (λ why. IsRefusalOf drawn.items why) }
{
    let (claimers, mut results) = gather(alloc, drawn)?;
    claims.close(claimers);
    put_in_order(count, &mut results);
    Ok(without_numbers(alloc, results)?)
}

/// Does the pieces of a stretch, each once, by as many threads as there are workers.
///
/// The workers stand where they stood, whatever happens.
///
/// # Errors
///
/// The refusal of one of the workers, or want of memory.
pub fn run<R: Threads + Sync, W: Send + Drop, G: Gate + Sync, T: Task<W> + Sync>(
    rt: &R,
    alloc: Global,
    gate: &G,
    task: &T,
    stretch: Stretch,
    workers: &mut Vec<W>,
) -> Result<Vec<T::Piece>, WorkRefused>
    requires some { 0 < length workers.old.items }
    requires few { length workers.old.items ≤ 16 }
    requires within { stretch.first + stretch.count ≤ T.count task.now }
    requires small { stretch.first + stretch.count ≤ 4294967296 }
    ensures workers { AreWorked (T.goes task.now) workers.old.items workers.new.items }
    ensures pieces { IfOk result (λ pieces.
        ArePieces (T.is_piece task.now) stretch.first stretch.count pieces.items) }
    ensures refused { IfErr result (IsCaused (T.causes task.now) workers.old.items workers.new.items) }
{
    let (claims, claimers) = Claims::new(alloc, stretch.count, workers.len() as u32)?;
    let mut drawn = Vec::with_capacity(alloc, workers.len())?;
    let mut members = enlist(alloc, workers, claimers)?;
    draw_side_by_side(rt, gate, task, stretch, &claims, members.as_mut_slice());
    disband(members, workers, &mut drawn);
    settle(alloc, stretch.count, claims, drawn)
}
