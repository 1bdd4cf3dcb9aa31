ghost use Rattle.std.specs.Prelude.{◌≡◌, ◌≤◌, ◌<◌, ◌↔◌, None, false, length, map, IsTrue, IsOk, IsSome, IfOk, IfErr, OnOk, OnErr, MatchOption};
ghost use Rattle.std.specs.Arc.{arc_value};
ghost use Rattle.std.specs.Option.{option_map};
ghost use Rattle.ann_mpatch.specs.Source.{source_of};
ghost use Rattle.ann_mcause.specs.Eyes.{HaveGone};
ghost use Rattle.ann_merge.specs.Job.{HasWorked, IsDone, IsOrder, IsStopped, IsWorkRefused, VaultGoesOn, order_of};

use crate::aside::merge_by;
use crate::merging::Taken;
use crate::parts::JobParts;
use ann_crew::Gate;
use ann_dead::Dead;
use ann_frozen::Frozen;
use ann_mdelete::WorkRefused;
use ann_pq::Codebook;
use ann_segment::Segment;
use ann_types::Params;
use ann_vault::{Eye, Sealed, Vault};
use std::alloc::{AllocError, Global};
use std::marker::Model;
use std::mem;
use std::sync::Arc;
use std::thread::Threads;

/// A merge that is worked beside the searches. It holds the vault, the eyes of the workers, the old segment, the frozen
/// graphs and the deleted points of its Begin.
#[derive(Drop)]
pub struct Job<V: Vault, E: Eye<Seal = V::Seal>> {
    alloc: Global,
    taken: Taken<V::Seal>,
    vault: V,
    eyes: Vec<E>,
    segment: Option<Arc<Segment<V::Seal>>>,
    faulted: bool,
}

impl<V: Vault, E: Eye<Seal = V::Seal>> Model for Job<V, E> {
    ghost use Rattle.std.specs.Prelude.{MatchOption, ◌<◌, length};
    ghost use Rattle.std.specs.Arc.{arc_value};
    ghost use Rattle.std.specs.Option.{option_map};
    ghost use Rattle.ann_merge.specs.Job.{JobView, IsDone};

    ghost Value = { JobView V E V.Seal };

    ghost view = { λ j. record {
      order = j.taken;
      vault = j.vault;
      eyes = j.eyes.items;
      segment = option_map arc_value j.segment;
      faulted = j.faulted;
    } };

    ghost invariant = { λ j. (0 < length j.eyes.items)
        × MatchOption (option_map arc_value j.segment) (Unit {0})
        (IsDone V.Seal.tells V.Seal.bytes j.taken (V.held j.vault)) };
}

/// The segment, to be shared. The only error is want of memory, and the segment is then gone.
fn share<S: Sealed>(alloc: Global, segment: Segment<S>) -> Result<Arc<Segment<S>>, AllocError>
    ensures { IfOk result (λ shared. arc_value shared ≡ segment) }
{
    let shared = Arc::new(alloc, segment)?;
    Ok(shared)
}

impl<V: Vault, E: Eye<Seal = V::Seal>> Job<V, E> {
    /// A job that isn't done. Its number isn't the old segment's, and Pids ascend through the old segment and then through
    /// the frozen graphs in order.
    pub fn new(
        alloc: Global,
        vault: V,
        eyes: Vec<E>,
        old: Option<Arc<Segment<V::Seal>>>,
        frozen: Vec<Arc<Frozen>>,
        gone: Dead,
        number: u64,
        params: &Params,
        book: Arc<Codebook>,
    ) -> Job<V, E>
        requires some { 0 < length eyes.items }
        requires order { IsOrder (order_of (option_map arc_value old)
            (map arc_value frozen.items) gone number params.now book.value) }
        ensures { result ≡ record {
          order = order_of (option_map arc_value old)
              (map arc_value frozen.items) gone number params.now book.value;
          vault = vault;
          eyes = eyes.items;
          segment = None;
          faulted = false;
        } }
    {
        let taken = Taken {
            old,
            frozen,
            gone,
            number,
            params: *params,
            book,
        };
        Job {
            alloc,
            taken,
            vault,
            eyes,
            segment: None,
            faulted: false,
        }
    }

    /// The number of the segment that the job makes.
    pub fn number(&self) -> u64
        ensures { result ≡ self.now.order.number }
    {
        self.taken.number
    }

    /// Whether the merged segment is sealed.
    pub fn done(&self) -> bool
        ensures { IsTrue result ↔ IsSome self.now.segment }
    {
        self.segment.is_some()
    }

    /// Whether a `work` has answered `Disk` since the job was made, or since the last call of this.
    pub fn take_fault(&mut self) -> bool
        ensures told { result ≡ self.old.faulted }
        ensures taken { self.new ≡ record self.old { faulted = false } }
    {
        mem::replace(&mut self.faulted, false)
    }

    /// The merged segment, shared; none exactly where the job isn't done. The only error is want of memory.
    pub fn merged(&self) -> Result<Option<Arc<Segment<V::Seal>>>, AllocError>
        ensures segment { IfOk result (λ segment. option_map arc_value segment ≡ self.now.segment) }
        // What is true of a done job's segment, as `into_parts` tells it.
        ensures done { MatchOption self.now.segment (Unit {0})
            (IsDone V.Seal.tells V.Seal.bytes self.now.order (V.held self.now.vault)) }
    {
        match &self.segment {
            Some(segment) => Ok(Some(segment.clone()?)),
            None => Ok(None),
        }
    }

    /// The parts of the job, which has an eye at least. A done job's segment has the job's number and the Pids of the old
    /// segment and of the frozen graphs without the deleted ones.
    pub fn into_parts(self) -> JobParts<V, E>
        ensures some { 0 < length self.eyes }
        ensures vault { result.vault ≡ self.vault }
        ensures eyes { result.eyes.items ≡ self.eyes }
        ensures old { option_map arc_value result.old ≡ self.order.old }
        ensures segment { option_map arc_value result.segment ≡ self.segment }
        // Where the seals tell, its bytes are the text of the merged graph, and the vault holds them.
        ensures done { MatchOption self.segment (Unit {0})
            (IsDone V.Seal.tells V.Seal.bytes self.order (V.held self.vault)) }
    {
        JobParts {
            vault: self.vault,
            eyes: self.eyes,
            old: self.taken.into_old(),
            segment: self.segment,
        }
    }
}

impl<S: Sealed + Send + Sync, V: Vault<Seal = S>, E: Eye<Seal = S> + Send> Job<V, E> {
    /// Merges by so many threads, 1 to 16, each with an eye of the job. It waits for nobody but these. A done job answers at
    /// once.
    ///
    /// # Errors
    ///
    /// `Disk` where the vault or an eye failed, `BadSegment` where a block that an eye has read is outside the format, or
    /// `Memory`. The job isn't done then, and may be worked again.
    pub fn work<R: Threads + Sync, G: Gate + Sync>(
        &mut self,
        rt: &R,
        workers: u32,
        gate: &G,
    ) -> Result<(), WorkRefused>
        requires workers { (0 < workers) × (workers ≤ 16) }
        requires enough { workers ≤ length self.old.eyes }

        ensures again { IsSome self.old.segment → IsOk result × (self.new ≡ self.old) }
        ensures order { self.new.order ≡ self.old.order }
        ensures eyes { HaveGone E.reads E.faults self.old.eyes self.new.eyes }
        ensures vault { VaultGoesOn S.tells self.old.order.number
            (V.faults self.old.vault) (V.faults self.new.vault)
            (V.held self.old.vault) (V.held self.new.vault) }
        // What a done job's segment is, is true of every job; `into_parts` tells it.
        ensures worked { HasWorked self.old self.new result }
        // A refusal has its cause, and leaves under the number what stood there, nothing, or the merge's text.
        ensures refused { let source = source_of S.bytes self.old.order.old in
            IfErr result (IsStopped S.tells S.bytes self.old.order
            (IsWorkRefused E.reads E.faults S.tells source self.old.order.params
            (V.faults self.old.vault) (V.faults self.new.vault) self.old.eyes self.new.eyes)
            (V.held self.old.vault) (V.held self.new.vault)) }
    {
        if self.segment.is_some() {
            return Ok(());
        }
        self.taken.known();
        let (taken, count) = (&self.taken, workers as usize);
        let (vault, eyes) = (&mut self.vault, &mut self.eyes);
        match merge_by(rt, self.alloc, gate, taken, count, vault, eyes) {
            Ok(segment) => {
                self.segment = Some(share(self.alloc, segment)?);
                Ok(())
            }
            Err(why) => {
                if why == WorkRefused::Disk {
                    self.faulted = true;
                }
                Err(why)
            }
        }
    }
}
