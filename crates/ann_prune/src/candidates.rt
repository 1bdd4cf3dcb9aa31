ghost use Rattle.std.specs.Prelude.{◌≡◌, ◌≤◌, ◌<◌, ◌+◌, ◌++◌, ◌∷◌, [], length, IfOk, OnOk, OnErr};
ghost use Rattle.ann_prune.specs.Gathered.{Gathered};

use std::alloc::{AllocError, Global};
use std::marker::Model;

/// A row, and its distance to the point that is pruned once that was measured.
#[derive(Clone, Copy, Debug)]
pub(crate) struct Candidate {
    pub(crate) distance: u32,
    pub(crate) row: u32,
}

/// The candidates of a prune: a set of rows, which contracts see as the rows in the order in which they were added,
/// and the room for more without new memory.
#[derive(Drop)]
pub struct Candidates {
    pub(crate) items: Vec<Candidate>,
    /// What `keep_warm` was given, which is kept only so that the reading isn't left out.
    warmth: u8,
}

impl Model for Candidates {
    ghost use Rattle.ann_prune.specs.Gathered.{Gathered};

    ghost Value = { Gathered };

    ghost use Rattle.std.specs.Prelude.{◌-◌, map, vec_len, vec_capacity};
    ghost use Rattle.ann_prune.specs.Rows.{row_of};

    ghost view = { λ c. record { rows = map row_of c.items.items; room = vec_capacity c.items - vec_len c.items } };
}

impl Candidates {
    /// A set without rows.
    pub fn new(alloc: Global) -> Result<Candidates, AllocError>
        ensures { IfOk result (λ candidates. candidates.rows ≡ []) }
    {
        Ok(Candidates {
            items: Vec::new(alloc),
            warmth: 0,
        })
    }

    /// Makes room for more rows. The only error is want of memory, and all is then as before.
    pub fn reserve(&mut self, count: u32) -> Result<(), AllocError>
        ensures rows { self.new.rows ≡ self.old.rows }
        ensures room { OnOk result (count ≤ self.new.room) }
        ensures kept { OnErr result (self.new ≡ self.old) }
    {
        self.items.reserve(count as usize)
    }

    /// Adds a row. The only error is want of memory, which doesn't come where there is room, and all is then as before.
    pub fn add(&mut self, row: u32) -> Result<(), AllocError>
        ensures added { OnOk result (self.new.rows ≡ self.old.rows ++ row ∷ []) }
        ensures room { self.old.room ≤ self.new.room + 1 }
        ensures full { OnErr result (self.old.room ≡ 0) }
        ensures kept { OnErr result (self.new.rows ≡ self.old.rows) }
    {
        self.items.push(Candidate { distance: 0, row })?;
        Ok(())
    }

    /// Adds a row within the room that there is, so it takes no memory and can't fail.
    pub fn add_within(&mut self, row: u32)
        requires room { 1 ≤ self.old.room }
        ensures rows { self.new.rows ≡ self.old.rows ++ row ∷ [] }
        ensures room { self.old.room ≤ self.new.room + 1 }
    {
        let _ = self.add(row);
    }

    /// Adds rows in turn, within the room that there is.
    pub fn add_all_within(&mut self, rows: &[u32])
        requires room { length rows.now ≤ self.old.room }
        ensures rows { self.new.rows ≡ self.old.rows ++ rows.now }
        ensures room { self.old.room ≤ self.new.room + length rows.now }
    {
        for row in rows {
            self.add_within(*row);
        }
    }

    /// Keeps a byte that was read ahead of its use, so that the read is done. To contracts nothing changes.
    pub fn keep_warm(&mut self, byte: u8)
        ensures { self.new ≡ self.old }
    {
        self.warmth ^= byte;
    }

    /// Takes all rows out.
    pub fn clear(&mut self)
        ensures rows { self.new.rows ≡ [] }
        ensures room { self.old.room + length self.old.rows ≤ self.new.room }
    {
        self.items.clear();
    }
}
