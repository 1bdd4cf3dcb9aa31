// Reading a list of entries, one after the other.
ghost use Rattle.std.specs.Prelude.{◌≡◌, ◌<◌, false, [], None, OnOk, IsTrue};
ghost use Rattle.std.specs.FinMap.{get};
ghost use Rattle.ann_types.specs.Legal.{pid_end};
ghost use Rattle.ann_types.specs.Lists.{Names, is_live};
ghost use Rattle.ann_types.specs.declared.entry.Entry.TheVariants.{Insert, Delete, Begin, End, Replace};
ghost use Rattle.ann_laws.specs.Outlines.{may_come, fits_at};
ghost use Rattle.ann_tags.specs.Tags.{map_of};
ghost use Rattle.ann_reopen.specs.Shape.{drawn};
ghost use Rattle.ann_reopen.specs.Reading.{reading_of, start_of, after, HasRoom, MayTake, IsReadBy};

use crate::basis::Basis;
use crate::judged::{Judged, Merge};
use crate::shape::Shape;
use ann_tags::Tags;
use ann_types::{Entry, Params, Pid, Tag, Vector};
use std::alloc::{AllocError, Global};

/// What the entries so far leave, and what judging the next one needs.
#[derive(Drop)]
pub(crate) struct Reading {
    pub(crate) params: Params,
    /// The position of the next entry.
    pub(crate) position: u64,
    pub(crate) shape: Shape,
    /// The next Pid of the entries before the open Begin.
    pub(crate) before: Pid,
    pub(crate) tags: Tags,
    pub(crate) next: Pid,
    pub(crate) gone: Vec<Option<Pid>>,
    pub(crate) merge: Option<Merge>,
}

impl Reading {
    /// No entry was read yet.
    pub(crate) fn new(alloc: Global, params: &Params, basis: Basis) -> Reading
        ensures { reading_of result ≡ start_of params.now basis }
    {
        Reading {
            params: *params,
            position: basis.position,
            shape: Shape::new(),
            before: 0,
            tags: basis.tags,
            next: basis.next,
            gone: Vec::new(alloc),
            merge: None,
        }
    }

    /// A vector has d components, and there is a Pid for its point.
    fn fits(&self, vector: &Vector) -> bool
        ensures fits { result ≡ fits_at self.now.params self.now.next vector.now }
        ensures pid { IsTrue result → self.now.next < pid_end }
    {
        vector.bytes().len() == usize::from(self.params.d) && self.next < Pid::MAX
    }

    /// A tag is live.
    fn is_live(&self, tag: Tag) -> bool
        ensures live { (live : Names) → self.now.tags.pids ≡ map_of live → result ≡ is_live live tag }
        ensures absent { result ≡ false → get self.now.tags.pids tag ≡ None }
    {
        self.tags.get(tag).is_some()
    }

    /// Whether an entry may follow those that were read.
    pub(crate) fn may_come(&self, entry: &Entry) -> bool
        ensures come { (live : Names) → self.now.tags.pids ≡ map_of live →
            result ≡ may_come self.now.params (drawn self.now.shape) live self.now.next entry.now }
        ensures fits { IsTrue result → MayTake (reading_of self.now) entry.now }
    {
        match entry {
            Entry::Insert { by: _, tag, vector } => self.fits(vector) && !self.is_live(*tag),
            Entry::Delete { by: _, tag } => self.is_live(*tag),
            Entry::Begin { by: _ } => self.shape.merge.is_none() && self.shape.works(),
            Entry::End { by: _, segment } => self.shape.names(*segment),
            Entry::Replace { by: _, tag, vector } => self.fits(vector) && self.is_live(*tag),
        }
    }

    /// Reads an entry that may follow. The only error is want of memory.
    pub(crate) fn take(&mut self, entry: &Entry) -> Result<(), AllocError>
        requires room { HasRoom self.old }
        requires fits { MayTake (reading_of self.old) entry.now }
        ensures { OnOk result (reading_of self.new ≡ after (reading_of self.old) entry.now) }
    {
        match entry {
            Entry::Insert { by: _, tag, .. } => self.insert(*tag),
            Entry::Delete { by: _, tag } => self.delete(*tag),
            Entry::Begin { by: _ } => self.begin(),
            Entry::End { by: _, segment } => self.end(*segment),
            Entry::Replace { by: _, tag, .. } => self.replace(*tag),
        }
    }

    fn insert(&mut self, tag: Tag) -> Result<(), AllocError>
        requires room { HasRoom self.old }
        requires pid { self.old.next < pid_end }
        requires absent { get self.old.tags.pids tag ≡ None }
        ensures { OnOk result (reading_of self.new ≡ after (reading_of self.old) (Insert 0 tag [])) }
    {
        self.gone.push(None)?;
        self.tags.reserve(1)?;
        self.tags.insert(tag, self.next);
        self.next += 1;
        self.shape = self.shape.grown(&self.params);
        self.position += 1;
        Ok(())
    }

    fn delete(&mut self, tag: Tag) -> Result<(), AllocError>
        requires room { HasRoom self.old }
        ensures { OnOk result (reading_of self.new ≡ after (reading_of self.old) (Delete 0 tag)) }
    {
        let pid = self.tags.get(tag);
        self.gone.push(pid)?;
        self.tags.remove(tag);
        self.shape = self.shape.deleted();
        self.position += 1;
        Ok(())
    }

    fn replace(&mut self, tag: Tag) -> Result<(), AllocError>
        requires room { HasRoom self.old }
        requires pid { self.old.next < pid_end }
        ensures { OnOk result (reading_of self.new ≡ after (reading_of self.old) (Replace 0 tag [])) }
    {
        let pid = self.tags.get(tag);
        self.gone.push(pid)?;
        self.tags.reserve(1)?;
        self.tags.remove(tag);
        self.tags.insert(tag, self.next);
        self.next += 1;
        self.shape = self.shape.deleted().grown(&self.params);
        self.position += 1;
        Ok(())
    }

    fn begin(&mut self) -> Result<(), AllocError>
        requires room { HasRoom self.old }
        ensures { OnOk result (reading_of self.new ≡ after (reading_of self.old) (Begin 0)) }
    {
        self.gone.push(None)?;
        self.shape = self.shape.begun(self.position);
        self.before = self.next;
        self.position += 1;
        Ok(())
    }

    fn end(&mut self, segment: u64) -> Result<(), AllocError>
        requires room { HasRoom self.old }
        ensures { OnOk result (reading_of self.new ≡ after (reading_of self.old) (End 0 segment)) }
    {
        self.gone.push(None)?;
        if let Some(merge) = self.shape.merge {
            self.merge = Some(Merge {
                position: merge.position,
                end: self.position,
                next: self.before,
                segment,
            });
        }
        self.shape = self.shape.ended();
        self.position += 1;
        Ok(())
    }

    /// What the entries leave.
    pub(crate) fn into_judged(self) -> Judged
        ensures { IsReadBy (reading_of self) result }
    {
        let begun = match self.shape.merge {
            None => None,
            Some(merge) => Some(merge.position),
        };
        Judged {
            tags: self.tags,
            next: self.next,
            begun,
            merge: self.merge,
            gone: self.gone,
        }
    }
}
