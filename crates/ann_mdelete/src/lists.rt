ghost use Rattle.std.specs.Prelude.{◌≡◌, ◌≤◌, ◌<◌, ◌+◌, ◌++◌, ◌∷◌, ◌↔◌, [], length, get_or, IsTrue, OnOk, OnErr, vec_len, vec_capacity};
ghost use Rattle.ann_mdelete.specs.Lists.{AreEnds, lists_in, start_of};

use std::alloc::{AllocError, Global};
use std::marker::Model;

/// Neighbour lists by row, side by side in one piece of memory, which contracts see as a list of lists.
///
/// A list takes four bytes for each of its rows, and eight bytes more.
#[derive(Drop)]
pub struct Lists {
    ends: Vec<usize>,
    numbers: Vec<u32>,
}

impl Model for Lists {
    ghost use Rattle.std.specs.Prelude.{ℕ, List, vec_len};
    ghost use Rattle.ann_mdelete.specs.Lists.{lists_in, AreEnds};

    ghost Value = { List (List ℕ) };

    ghost view = { λ l. lists_in l.ends.items l.numbers.items };

    ghost invariant = { λ l. AreEnds l.ends.items (vec_len l.numbers) };
}

/// Where the list of a row begins.
#[inline]
fn start(ends: &[usize], row: usize) -> usize
    requires { row ≤ length ends.now }
    ensures { result ≡ start_of ends.now row }
{
    if row == 0 { 0 } else { ends[row - 1] }
}

/// Adds an end within the room that there is, so it takes no memory and can't fail.
fn push_within(ends: &mut Vec<usize>, end: usize)
    requires { vec_len ends.old < vec_capacity ends.old }
    ensures items { ends.new.items ≡ ends.old.items ++ end ∷ [] }
    ensures length { vec_len ends.new ≡ vec_len ends.old + 1 }
{
    let _ = ends.push(end);
}

impl Lists {
    /// No lists.
    pub fn new(alloc: Global) -> Lists
        ensures { result ≡ [] }
    {
        Lists {
            ends: Vec::new(alloc),
            numbers: Vec::new(alloc),
        }
    }

    /// The lists that stand side by side in some numbers, each up to its end.
    pub fn from_parts(ends: Vec<usize>, numbers: Vec<u32>) -> Lists
        requires { AreEnds ends.items (vec_len numbers) }
        ensures { result ≡ lists_in ends.items numbers.items }
    {
        Lists { ends, numbers }
    }

    /// Adds the list of one more row. The only error is want of memory, and all is then as before.
    pub fn push(&mut self, list: &[u32]) -> Result<(), AllocError>
        ensures added { OnOk result (self.new ≡ self.old ++ list.now ∷ []) }
        ensures kept { OnErr result (self.new ≡ self.old) }
    {
        self.ends.reserve(1)?;
        self.numbers.extend_from_slice(list)?;
        let end = self.numbers.len();
        push_within(&mut self.ends, end);
        Ok(())
    }

    /// The list of a row.
    #[inline]
    pub fn get(&self, row: u32) -> &[u32]
        requires { row < length self.now }
        ensures { result.now ≡ get_or self.now row [] }
    {
        let row = row as usize;
        &self.numbers[start(&self.ends, row)..self.ends[row]]
    }

    /// Takes all lists out.
    pub fn clear(&mut self)
        ensures { self.new ≡ [] }
    {
        self.ends.clear();
        self.numbers.clear();
    }

    /// How many lists there are.
    pub fn len(&self) -> usize
        ensures { result ≡ length self.now }
    {
        self.ends.len()
    }

    /// There is no list.
    pub fn is_empty(&self) -> bool
        ensures { IsTrue result ↔ (self.now ≡ []) }
    {
        self.ends.is_empty()
    }
}
