ghost use Rattle.std.specs.Prelude.{◌≡◌, ◌≤◌, ◌<◌, ◌+◌, ◌++◌, ◌∷◌, [], length, get_or, slice_set, IfOk, OnOk, vec_len, vec_capacity};
ghost use Rattle.ann_table.specs.Lists.{put_in};

use crate::room::{extend_within, fill_within, push_within};
use std::alloc::{AllocError, Global};
use std::marker::Model;

/// The neighbours of rows: so many places for each row, side by side in one piece of memory, and how many of its places
/// a row uses. Contracts see a list of lists.
#[derive(Drop)]
pub(crate) struct Links {
    places: u16,
    spare: u32,
    counts: Vec<u8>,
    numbers: Vec<u32>,
}

impl Model for Links {
    ghost use Rattle.std.specs.Prelude.{vec_capacity};
    ghost use Rattle.ann_table.specs.Lists.{Lists, lists_in, HasPlaces};

    ghost Value = { Lists };

    ghost view = { λ l. record { places = l.places; lists = lists_in l.places l.counts.items l.numbers.items; spare = l.spare } };

    ghost invariant = { λ l. HasPlaces l.places l.spare l.counts.items l.numbers.items (vec_capacity l.counts) (vec_capacity l.numbers) };
}

/// Writes numbers over those from a place on.
fn write_at(numbers: &mut Vec<u32>, start: usize, list: &[u32])
    requires { start + length list.now ≤ vec_len numbers.old }
    ensures numbers { numbers.new.items ≡ put_in start list.now numbers.old.items }
    ensures length { vec_len numbers.new ≡ vec_len numbers.old }
    ensures room { vec_capacity numbers.new ≡ vec_capacity numbers.old }
{
    numbers[start..start + list.len()].copy_from_slice(list);
}

impl Links {
    pub(crate) fn new(alloc: Global, places: u16) -> Links
        requires { places ≤ 128 }
        ensures { result ≡ record { places = places; lists = []; spare = 0 } }
    {
        Links {
            places,
            spare: 0,
            counts: Vec::new(alloc),
            numbers: Vec::new(alloc),
        }
    }

    /// Makes room for so many more lists. The only error is want of memory.
    pub(crate) fn reserve(&mut self, more: u32) -> Result<(), AllocError>
        ensures places { self.new.places ≡ self.old.places }
        ensures lists { self.new.lists ≡ self.old.lists }
        ensures room { OnOk result (more ≤ self.new.spare) }
        ensures least { self.old.spare ≤ self.new.spare }
    {
        self.counts.reserve(more as usize)?;
        self.numbers
            .reserve(more as usize * usize::from(self.places))?;
        self.spare = self.spare.max(more);
        Ok(())
    }

    /// Adds a list at the end.
    pub(crate) fn push(&mut self, list: &[u32])
        requires few { length list.now ≤ self.old.places }
        requires room { 1 ≤ self.old.spare }
        ensures places { self.new.places ≡ self.old.places }
        ensures lists { self.new.lists ≡ self.old.lists ++ list.now ∷ [] }
        ensures spare { self.new.spare + 1 ≡ self.old.spare }
    {
        self.spare -= 1;
        push_within(&mut self.counts, list.len() as u8);
        extend_within(&mut self.numbers, list);
        fill_within(&mut self.numbers, usize::from(self.places) - list.len());
    }

    /// Replaces the list of a row.
    pub(crate) fn set(&mut self, row: u32, list: &[u32])
        requires row { row < length self.old.lists }
        requires few { length list.now ≤ self.old.places }
        ensures places { self.new.places ≡ self.old.places }
        ensures lists { self.new.lists ≡ slice_set self.old.lists row list.now }
        ensures spare { self.new.spare ≡ self.old.spare }
    {
        let start = row as usize * usize::from(self.places);
        write_at(&mut self.numbers, start, list);
        self.counts[row as usize] = list.len() as u8;
    }

    /// Adds a number at the end of a row's list.
    pub(crate) fn append(&mut self, row: u32, number: u32)
        requires row { row < length self.old.lists }
        requires few { length (get_or self.old.lists row []) < self.old.places }
        ensures places { self.new.places ≡ self.old.places }
        ensures lists { let list = get_or self.old.lists row [] in
            self.new.lists ≡ slice_set self.old.lists row (list ++ number ∷ []) }
        ensures spare { self.new.spare ≡ self.old.spare }
    {
        let count = self.counts[row as usize];
        let start = row as usize * usize::from(self.places);
        self.numbers[start + usize::from(count)] = number;
        self.counts[row as usize] = count + 1;
    }

    /// The list of a row.
    #[inline]
    pub(crate) fn get(&self, row: u32) -> &[u32]
        requires { row < length self.now.lists }
        ensures list { result.now ≡ get_or self.now.lists row [] }
        ensures few { length result.now ≤ self.now.places }
    {
        let start = row as usize * usize::from(self.places);
        let count = usize::from(self.counts[row as usize]);
        &self.numbers[start..start + count]
    }

    /// Lists of their own that are equal to these, without room for more.
    pub(crate) fn copy(&self) -> Result<Links, AllocError>
        ensures { IfOk result (λ copy. copy ≡ record self.now { spare = 0 }) }
    {
        Ok(Links {
            places: self.places,
            spare: 0,
            counts: self.counts.to_vec(*self.counts.allocator())?,
            numbers: self.numbers.to_vec(*self.numbers.allocator())?,
        })
    }
}
