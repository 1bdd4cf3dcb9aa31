ghost use Rattle.std.specs.Prelude.{◌≡◌, ◌≤◌, ◌<◌, ◌+◌, ◌++◌, ◌∷◌, [], length, get_or, IfOk, OnOk};

use crate::room::extend_within;
use std::alloc::{AllocError, Global};
use std::marker::Model;

/// Vectors of one width, side by side in one piece of memory, which contracts see as a list of lists.
#[derive(Drop)]
pub(crate) struct Vectors {
    width: u16,
    count: u32,
    spare: u32,
    bytes: Vec<u8>,
}

impl Model for Vectors {
    ghost use Rattle.std.specs.Prelude.{◌≡◌, ◌≤◌, ◌+◌, ◌*◌, vec_len, vec_capacity, replicate};
    ghost use Rattle.ann_table.specs.Lists.{Lists, lists_in};

    ghost Value = { Lists };

    ghost view = { λ v. record { places = v.width; lists = lists_in v.width (replicate v.count v.width) v.bytes.items; spare = v.spare } };

    ghost invariant = { λ v. (vec_len v.bytes ≡ v.count * v.width) × (vec_len v.bytes + v.spare * v.width ≤ vec_capacity v.bytes) };
}

impl Vectors {
    pub(crate) fn new(alloc: Global, width: u16) -> Vectors
        ensures { result ≡ record { places = width; lists = []; spare = 0 } }
    {
        Vectors {
            width,
            count: 0,
            spare: 0,
            bytes: Vec::new(alloc),
        }
    }

    /// Makes room for so many more vectors. The only error is want of memory.
    pub(crate) fn reserve(&mut self, more: u32) -> Result<(), AllocError>
        ensures places { self.new.places ≡ self.old.places }
        ensures lists { self.new.lists ≡ self.old.lists }
        ensures room { OnOk result (more ≤ self.new.spare) }
        ensures least { self.old.spare ≤ self.new.spare }
    {
        self.bytes.reserve(more as usize * usize::from(self.width))?;
        self.spare = self.spare.max(more);
        Ok(())
    }

    /// Adds a vector at the end.
    pub(crate) fn push(&mut self, vector: &[u8])
        requires width { length vector.now ≡ self.old.places }
        requires room { 1 ≤ self.old.spare }
        requires few { length self.old.lists < 4294967295 }
        ensures places { self.new.places ≡ self.old.places }
        ensures lists { self.new.lists ≡ self.old.lists ++ vector.now ∷ [] }
        ensures spare { self.new.spare + 1 ≡ self.old.spare }
    {
        self.spare -= 1;
        self.count += 1;
        extend_within(&mut self.bytes, vector);
    }

    /// The vector of a row.
    #[inline]
    pub(crate) fn get(&self, row: u32) -> &[u8]
        requires { row < length self.now.lists }
        ensures vector { result.now ≡ get_or self.now.lists row [] }
        ensures width { length result.now ≡ self.now.places }
    {
        let width = usize::from(self.width);
        let start = row as usize * width;
        &self.bytes[start..start + width]
    }

    /// Vectors of their own that are equal to these, without room for more.
    pub(crate) fn copy(&self) -> Result<Vectors, AllocError>
        ensures { IfOk result (λ copy. copy ≡ record self.now { spare = 0 }) }
    {
        Ok(Vectors {
            width: self.width,
            count: self.count,
            spare: 0,
            bytes: self.bytes.to_vec(*self.bytes.allocator())?,
        })
    }
}
