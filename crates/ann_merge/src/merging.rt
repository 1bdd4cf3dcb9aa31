// One attempt at a merge, from the new points to the sealed segment.
ghost use Rattle.std.specs.Prelude.{◌≡◌, ◌≤◌, ◌<◌, length, IfOk, IfErr, MatchResult};
ghost use Rattle.std.specs.Arc.{arc_value};
ghost use Rattle.std.specs.FinMap.{get};
ghost use Rattle.std.specs.Option.{option_map};
ghost use Rattle.ann_types.specs.Index.{IsBookOf};
ghost use Rattle.ann_mpatch.specs.Source.{source_of};
ghost use Rattle.ann_mcause.specs.Eyes.{AreCause, HaveGone};
ghost use Rattle.ann_merge.specs.Job.{IsDone, IsMergeText, IsPlanFor, IsWorkRefused, KeepsNumbers, LeavesNumber};

use crate::clear::clear;
use crate::gather::new_points;
use ann_crew::Gate;
use ann_dead::Dead;
use ann_frozen::Frozen;
use ann_mdelete::WorkRefused;
use ann_mphases::{Planned, plan_merge};
use ann_mseal::seal_merge;
use ann_pq::Codebook;
use ann_segment::Segment;
use ann_types::Params;
use ann_vault::{Eye, Sealed, Vault};
use std::alloc::Global;
use std::marker::Model;
use std::sync::Arc;
use std::thread::Threads;

/// What a merge takes: the old segment, the frozen graphs, the deleted points, the number of the segment that it makes,
/// and the index.
#[derive(Drop)]
pub(crate) struct Taken<S: Sealed> {
    pub(crate) old: Option<Arc<Segment<S>>>,
    pub(crate) frozen: Vec<Arc<Frozen>>,
    pub(crate) gone: Dead,
    pub(crate) number: u64,
    pub(crate) params: Params,
    pub(crate) book: Arc<Codebook>,
}

impl<S: Sealed> Model for Taken<S> {
    ghost use Rattle.std.specs.Prelude.{map};
    ghost use Rattle.std.specs.Arc.{arc_value};
    ghost use Rattle.std.specs.Option.{option_map};
    ghost use Rattle.ann_merge.specs.Job.{Order, IsOrder, order_of};

    ghost Value = { Order S };

    ghost view = { λ t. order_of (option_map arc_value t.old) (map arc_value t.frozen.items)
        t.gone t.number t.params t.book.value };

    ghost invariant = { λ t. IsOrder (order_of (option_map arc_value t.old) (map arc_value t.frozen.items)
        t.gone t.number t.params t.book.value) };
}

impl<S: Sealed> Taken<S> {
    /// What is true of what every merge takes: the codebook is the index's. It does nothing.
    pub(crate) fn known(&self)
        ensures { IsBookOf self.now.params self.now.book.book }
    {
        self.book.known();
    }

    /// The old segment, if there is one.
    pub(crate) fn into_old(self) -> Option<Arc<Segment<S>>>
        ensures { option_map arc_value result ≡ self.old }
    {
        self.old
    }
}

impl<S: Sealed + Send + Sync> Taken<S> {
    /// What the phases before the last one make.
    fn plan<R: Threads + Sync, E: Eye<Seal = S> + Send, G: Gate + Sync>(
        &self,
        rt: &R,
        alloc: Global,
        gate: &G,
        eyes: &mut Vec<E>,
    ) -> Result<Planned<S>, WorkRefused>
        requires workers { (0 < length eyes.old.items) × (length eyes.old.items ≤ 16) }
        ensures eyes { HaveGone E.reads E.faults eyes.old.items eyes.new.items }
        ensures planned { IfOk result (λ planned.
            IsPlanFor S.tells S.bytes self.now planned.plan planned.entry) }
        ensures refused { let source = source_of S.bytes self.now.old in IfErr result
            (AreCause E.reads E.faults S.tells source self.now.params eyes.old.items eyes.new.items) }
    {
        let points = new_points(alloc, &self.frozen, &self.gone, &self.params)?;
        self.book.known();
        let (gone, book) = (&self.gone, &self.book);
        plan_merge(
            rt,
            alloc,
            gate,
            &self.old,
            points,
            gone,
            book,
            &self.params,
            eyes,
        )
    }

    /// Makes the merged segment and seals it under the number, in the place of what an earlier attempt may have left there.
    ///
    /// # Errors
    ///
    /// `Disk`, `BadSegment` or `Memory`. No other number has changed, and this one has what it had, nothing, or the merge.
    pub(crate) fn merge<
        R: Threads + Sync,
        V: Vault<Seal = S>,
        E: Eye<Seal = S> + Send,
        G: Gate + Sync,
    >(
        &self,
        rt: &R,
        alloc: Global,
        gate: &G,
        vault: &mut V,
        eyes: &mut Vec<E>,
    ) -> Result<Segment<S>, WorkRefused>
        requires workers { (0 < length eyes.old.items) × (length eyes.old.items ≤ 16) }
        ensures eyes { HaveGone E.reads E.faults eyes.old.items eyes.new.items }
        ensures ends { MatchResult result (IsDone S.tells S.bytes self.now (V.held vault.new))
            (λ why. S.tells → LeavesNumber (IsMergeText S.bytes self.now)
            (get (V.held vault.old) self.now.number) (get (V.held vault.new) self.now.number) why) }
        ensures others { S.tells → KeepsNumbers self.now.number (V.held vault.old) (V.held vault.new) }
        ensures vault { V.faults vault.old ≤ V.faults vault.new }
        ensures refused { let source = source_of S.bytes self.now.old in
            IfErr result (IsWorkRefused E.reads E.faults S.tells source self.now.params
            (V.faults vault.old) (V.faults vault.new) eyes.old.items eyes.new.items) }
    {
        clear(vault, self.number)?;
        let made = self.plan(rt, alloc, gate, eyes)?;
        let (number, book) = (self.number, &self.book);
        seal_merge(
            rt, alloc, gate, &made.plan, made.entry, number, book, vault, eyes,
        )
    }
}
