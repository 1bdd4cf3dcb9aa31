ghost use Rattle.std.specs.Prelude.{◌≡◌, ◌≤◌, ◌<◌, [], length, get_or, IfOk};
ghost use Rattle.ann_mdelete.specs.Decoded.{AreDecoded, width_of};
ghost use Rattle.ann_minsert.specs.Base.{AreListsOf, IsBaseOf, IsBase, rows_of};

use crate::mean::mean_entry;
use ann_greedy::Graph;
use ann_mdelete::{Decoded, Lists};
use std::alloc::{AllocError, Global};
use std::marker::Model;

/// The graph that new points are linked to, by rows in order of Pid: decoded vectors, and the neighbours of each row.
#[derive(Drop)]
pub struct Base {
    lists: Lists,
    decoded: Decoded,
    entry: Option<u32>,
}

impl Model for Base {
    ghost use Rattle.ann_minsert.specs.Base.{BaseView, IsBase};

    ghost Value = { BaseView };

    ghost view = { λ b. record { entry = b.entry; vectors = b.decoded; lists = b.lists } };

    ghost invariant = { λ b. IsBase (record { entry = b.entry; vectors = b.decoded; lists = b.lists }) };
}

/// The components of the vectors, 0 where there are none.
fn width(decoded: &Decoded) -> usize
    ensures { result ≡ width_of decoded.now }
{
    if decoded.len() == 0 {
        return 0;
    }
    decoded.vector(0).len()
}

impl Base {
    /// The base of points by rows in order of Pid: the neighbours of each row, which are other rows in ascending order,
    /// and its decoded vector. It is entered at the row that is nearest to the mean of all. Without rows it has no entry.
    ///
    /// The only error is want of memory.
    pub fn of(alloc: Global, lists: Lists, decoded: Decoded) -> Result<Base, AllocError>
        requires { AreListsOf (length decoded) lists }
        ensures { IfOk result (λ base. IsBaseOf lists decoded base) }
    {
        decoded.known();
        let mut mean = vec![in alloc; 0; width(&decoded)]?;
        let entry = mean_entry(&decoded, &mut mean);
        Ok(Base {
            lists,
            decoded,
            entry,
        })
    }

    /// The decoded vectors.
    pub fn decoded(&self) -> &Decoded
        ensures { result.now ≡ self.now.vectors }
    {
        &self.decoded
    }

    /// The neighbours of each row, and its decoded vector.
    pub fn into_parts(self) -> (Lists, Decoded)
        ensures lists { result.0 ≡ self.lists }
        ensures decoded { result.1 ≡ self.vectors }
    {
        (self.lists, self.decoded)
    }

    /// What is true of every base. It does nothing.
    pub fn known(&self)
        ensures base { IsBase self.now }
        ensures decoded { AreDecoded self.now.vectors }
    {
        self.decoded.known();
    }
}

impl Graph for Base {
    ghost rows = { λ b. rows_of b };

    #[inline]
    fn count(&self) -> u32 {
        self.decoded.len()
    }

    #[inline]
    fn entry(&self) -> Option<u32> {
        self.entry
    }

    #[inline]
    fn vector(&self, row: u32) -> &[u8] {
        self.decoded.vector(row)
    }

    #[inline]
    fn neighbours(&self, row: u32) -> &[u32] {
        self.lists.get(row)
    }
}
