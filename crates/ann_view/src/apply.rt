// How a view goes on.
ghost use Rattle.std.specs.Prelude.{◌≡◌, ◌<◌, ◌-◌, ◌^◌, ◌∷◌, [], false, OnOk, OnErr};
ghost use Rattle.ann_types.specs.Lists.{BasedList, with_entry};
ghost use Rattle.ann_types.specs.Fold.{inserted, deleted, begun_at};
ghost use Rattle.ann_types.specs.declared.entry.Entry.{Entry};
ghost use Rattle.ann_view.specs.Steps.{applied, with_entry_more, with_point_more, with_segment, ended, FitsIn, MayEnd, MayApply};
ghost use Rattle.ann_view.specs.Stands.{StandsFor, IsEntryOf, lti_of};
ghost use Rattle.ann_view.specs.Holding.{HoldsGraph, BringsMerge};

use crate::op::Op;
use crate::view::View;
use ann_segment::Segment;
use ann_types::{Pid, Tag, Vector};
use ann_vault::Sealed;
use std::alloc::AllocError;
use std::sync::Arc;

impl<S: Sealed> View<S> {
    /// Goes on by one operation: to the state that its entry leaves (FreshDiskANN, section 5).
    ///
    /// An Insert or a Replace has d components and finds a next Pid below `2^32 - 1`; a Begin finds no open Begin, and an
    /// End finds one, with a segment whose points are older than those that stay in memory. Takes all its memory before
    /// the first change: the only error is want of memory, and the view is then as before.
    pub fn apply(&mut self, op: &Op<S>) -> Result<(), AllocError>
        requires going { self.old.closed ≡ false }
        requires room { self.old.at < 2 ^ 64 - 1 }
        requires fits { MayApply self.old op.now }
        ensures applied { OnOk result (self.new ≡ applied self.old op.now) }
        ensures refused { OnErr result (self.new ≡ self.old) }

        // A view that stands for a list stands for the list with the entry.
        ensures stands { (h : BasedList) (entry : Entry) → StandsFor self.old h → IsEntryOf h op.now entry →
            OnOk result (StandsFor self.new (with_entry h entry)) }

        // Where its segment holds the list's long-term graph, and an End's segment the one that the merge makes, the new
        // segment holds the new list's.
        ensures holds { (h : BasedList) (entry : Entry) → StandsFor self.old h → IsEntryOf h op.now entry →
            HoldsGraph S.bytes self.old (lti_of self.old h) → BringsMerge S.bytes self.old h op.now →
            OnOk result (HoldsGraph S.bytes self.new (lti_of self.new (with_entry h entry))) }
    {
        self.step(op)?;
        Ok(())
    }

    /// Goes on by one operation.
    fn step(&mut self, op: &Op<S>) -> Result<(), AllocError>
        requires room { self.old.at < 2 ^ 64 - 1 }
        requires fits { MayApply self.old op.now }
        ensures applied { OnOk result (self.new ≡ applied self.old op.now) }
        ensures refused { OnErr result (self.new ≡ self.old) }
    {
        match op {
            Op::Insert { tag, vector } => self.insert(*tag, vector),
            Op::Delete { pid } => self.delete(*pid),
            Op::Replace { tag, gone, vector } => self.replace(*tag, *gone, vector),
            Op::Begin => self.begin(),
            Op::End { segment } => self.end(segment),
            Op::Close => {
                self.closed = true;
                Ok(())
            }
        }
    }

    fn insert(&mut self, tag: Tag, vector: &Vector) -> Result<(), AllocError>
        requires room { self.old.at < 2 ^ 64 - 1 }
        requires fits { FitsIn self.old vector.now }
        ensures applied { OnOk result (self.new ≡ with_point_more self.old
            (inserted self.old.params self.old.memory self.old.next tag vector.now)) }
        ensures refused { OnErr result (self.new ≡ self.old) }
    {
        self.temp.insert(self.next, tag, vector.bytes())?;
        self.next += 1;
        self.at += 1;
        Ok(())
    }

    fn delete(&mut self, pid: Pid) -> Result<(), AllocError>
        requires room { self.old.at < 2 ^ 64 - 1 }
        ensures applied { OnOk result (self.new ≡
            with_entry_more self.old (deleted self.old.memory (pid ∷ []))) }
        ensures refused { OnErr result (self.new ≡ self.old) }
    {
        self.temp.delete(pid)?;
        self.at += 1;
        Ok(())
    }

    fn replace(&mut self, tag: Tag, gone: Pid, vector: &Vector) -> Result<(), AllocError>
        requires room { self.old.at < 2 ^ 64 - 1 }
        requires fits { FitsIn self.old vector.now }
        ensures applied { OnOk result (self.new ≡ with_point_more self.old
            (inserted self.old.params (deleted self.old.memory (gone ∷ [])) self.old.next tag vector.now)) }
        ensures refused { OnErr result (self.new ≡ self.old) }
    {
        self.temp.replace(gone, self.next, tag, vector.bytes())?;
        self.next += 1;
        self.at += 1;
        Ok(())
    }

    fn begin(&mut self) -> Result<(), AllocError>
        requires room { self.old.at < 2 ^ 64 - 1 }
        ensures applied { OnOk result (self.new ≡
            with_entry_more self.old (begun_at self.old.memory self.old.at)) }
        ensures refused { OnErr result (self.new ≡ self.old) }
    {
        self.temp.begin(self.at)?;
        self.at += 1;
        Ok(())
    }

    fn end(&mut self, segment: &Arc<Segment<S>>) -> Result<(), AllocError>
        requires room { self.old.at < 2 ^ 64 - 1 }
        requires fits { MayEnd self.old segment.now.value }
        ensures applied { OnOk result (self.new ≡
            with_segment (with_entry_more self.old (ended self.old.memory)) segment.now.value) }
        ensures refused { OnErr result (self.new ≡ self.old) }
    {
        segment.known();
        let segment = segment.clone()?;
        self.temp.end()?;
        self.segment = Some(segment);
        self.at += 1;
        Ok(())
    }
}
