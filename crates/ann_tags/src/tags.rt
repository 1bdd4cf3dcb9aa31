ghost use Rattle.std.specs.Prelude.{◌≡◌, ◌≤◌, ◌+◌, max, OnOk, OnErr};
ghost use Rattle.std.specs.FinMap as map;

use ann_types::{Pid, Tag};
use std::alloc::{AllocError, Global};
use std::collections::HashMap;
use std::marker::Model;

/// A finite map from tag to Pid, and for how many more tags there is room.
#[derive(Drop)]
pub struct Tags {
    spare: u32,
    pids: HashMap<Tag, Pid>,
}

impl Model for Tags {
    ghost use Rattle.std.specs.Prelude.{◌≤◌};
    ghost use Rattle.std.specs.HashMap.{spare as room_of};
    ghost use Rattle.ann_tags.specs.Tags.{TagsView, shown_code, map_of};

    ghost Value = { TagsView };

    ghost coded = { shown_code };

    ghost view = { λ t. record { pids = map_of t.pids.entries; spare = t.spare } };

    ghost invariant = { λ t. t.spare ≤ room_of t.pids };
}

impl Tags {
    /// A map without tags.
    pub fn new(alloc: Global) -> Tags
        ensures { result ≡ record { pids = map.empty; spare = 0 } }
    {
        Tags {
            spare: 0,
            pids: HashMap::new(alloc),
        }
    }

    /// The Pid of a tag, or `None` where it isn't there.
    pub fn get(&self, tag: Tag) -> Option<Pid>
        ensures { result ≡ map.get self.now.pids tag }
    {
        self.pids.get(&tag).copied()
    }

    /// How many tags there are.
    pub fn count(&self) -> u64
        ensures { result ≡ map.len self.now.pids }
    {
        self.pids.len() as u64
    }

    /// Makes room for so many more tags. The only error is want of memory.
    pub fn reserve(&mut self, n: u32) -> Result<(), AllocError>
        ensures ok { OnOk result (self.new ≡ record { pids = self.old.pids; spare = max self.old.spare n }) }
        ensures err { OnErr result (self.new ≡ self.old) }
    {
        self.pids.reserve(n as usize)?;
        self.spare = self.spare.max(n);
        Ok(())
    }

    /// Adds a tag that isn't there, with its Pid. Takes no memory.
    pub fn insert(&mut self, tag: Tag, pid: Pid)
        requires room { 1 ≤ self.old.spare }
        requires absent { map.get self.old.pids tag ≡ None }
        ensures pids { self.new.pids ≡ map.insert self.old.pids tag pid }
        ensures spare { self.new.spare + 1 ≡ self.old.spare }
    {
        self.spare -= 1;
        let _ = self.pids.insert(tag, pid);
    }

    /// Takes a tag away, where it is there. Takes no memory.
    pub fn remove(&mut self, tag: Tag)
        ensures { self.new ≡ record { pids = map.remove self.old.pids tag; spare = self.old.spare } }
    {
        let _ = self.pids.remove(&tag);
    }
}
