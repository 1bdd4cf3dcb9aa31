ghost use Rattle.std.specs.Prelude.{◌≡◌, ◌≤◌, ◌<◌, ◌^◌, ◌++◌, ◌∷◌, ℕ, [], IsTrue, All, length, map, get_or, IfOk, OnOk, OnErr};
ghost use Rattle.ann_types.specs.Order.{has};
ghost use Rattle.ann_mdelete.specs.Rows.{left_rows};
ghost use Rattle.ann_mplan.specs.Packing.{IsRanked, rank_in};

use ann_mdelete::{Decoded, Lists, Loaded};
use arrayvec::ArrayVec;
use std::alloc::{AllocError, Global};
use std::marker::Model;

/// The surviving rows of a segment, in ascending order, which contracts see as their list. A row's rank among them is its
/// row in the merged graph.
///
/// It takes four bytes for each row of the segment, and four for each survivor.
#[derive(Drop)]
pub struct Packing {
    survivors: Vec<u32>,
    ranks: Vec<u32>,
}

impl Model for Packing {
    ghost use Rattle.std.specs.Prelude.{ℕ, List};
    ghost use Rattle.ann_mplan.specs.Packing.{AreRanks};

    ghost Value = { List ℕ };

    ghost view = { λ p. p.survivors.items };

    ghost invariant = { λ p. AreRanks p.survivors.items p.ranks.items };
}

impl Packing {
    /// The rows that aren't deleted, of which there is one truth value for each row. The only error is want of memory.
    pub fn new(alloc: Global, gone: &[bool]) -> Result<Packing, AllocError>
        requires { length gone.now < 2 ^ 32 }
        ensures { IfOk result (λ packing. packing ≡ left_rows gone.now 0 (length gone.now)) }
    {
        let mut survivors = Vec::new(alloc);
        let mut ranks = Vec::new(alloc);
        for row in 0..gone.len() {
            ranks.push(survivors.len() as u32)?;
            if !gone[row] {
                survivors.push(row as u32)?;
            }
        }
        Ok(Packing { survivors, ranks })
    }

    /// The survivors.
    pub fn survivors(&self) -> &[u32]
        ensures { result.now ≡ self.now }
    {
        &self.survivors
    }

    /// The survivors alone.
    pub fn into_survivors(self) -> Vec<u32>
        ensures { result.items ≡ self }
    {
        self.survivors
    }

    /// The rank of a survivor.
    #[inline]
    pub fn rank(&self, row: u32) -> u32
        requires { IsTrue (has self.now row) }
        ensures { result ≡ rank_in self.now row }
    {
        self.ranks[row as usize]
    }

    /// Adds a list of survivors, by their ranks, as that of one more row. The only error is want of memory, and all is
    /// then as before.
    pub fn add_ranked(&self, list: &[u32], out: &mut Lists) -> Result<(), AllocError>
        requires { IsRanked self.now list.now }
        ensures added { OnOk result (out.new ≡ out.old ++ map (rank_in self.now) list.now ∷ []) }
        ensures kept { OnErr result (out.new ≡ out.old) }
    {
        let mut ranks: ArrayVec<u32, 128> = ArrayVec::new();
        for row in list {
            ranks.push(self.rank(*row));
        }
        out.push(&ranks)
    }

    /// Adds the lists of a piece, by ranks. The only error is want of memory.
    pub fn add_piece(&self, piece: &Loaded, out: &mut Lists) -> Result<(), AllocError>
        requires { (i : ℕ) → i < length piece.now.lists → IsRanked self.now (get_or piece.now.lists i []) }
        ensures { OnOk result (out.new ≡ out.old ++ map (map (rank_in self.now)) piece.now.lists) }
    {
        for i in 0..piece.count() {
            self.add_ranked(piece.list(i), out)?;
        }
        Ok(())
    }

    /// The decoded vectors of the survivors, by ranks. The only error is want of memory.
    pub fn decoded(&self, alloc: Global, decoded: &Decoded) -> Result<Decoded, AllocError>
        requires few { length self.now ≤ length decoded.now }
        requires inside { All (λ row. row < length decoded.now) self.now }
        ensures { IfOk result (λ left. left ≡ map (λ row. get_or decoded.now row []) self.now) }
    {
        decoded.known();
        let mut left = Decoded::new(alloc);
        for row in self.survivors() {
            left.push_vector(decoded.vector(*row))?;
        }
        Ok(left)
    }
}
