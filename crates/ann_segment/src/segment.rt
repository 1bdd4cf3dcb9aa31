// A segment that is sealed.
ghost use Rattle.std.specs.Prelude.{◌≡◌, ◌≤◌, ◌<◌, ◌+◌, ◌*◌, ◌↔◌, ◌^◌, length, IfOk, IfErr, IsTrue, IsErrOf, MatchResult};
ghost use Rattle.ann_types.specs.Codes.{code};
ghost use Rattle.ann_vault.specs.Counted.{CountsFault, CountsRead};
ghost use Rattle.ann_segment.specs.Directory.{item_of};
ghost use Rattle.ann_segment.specs.Holds.{OpensText};
ghost use Rattle.ann_segment.specs.Opening.{HasRead, IsOpened, IsOpenedFrom, IsRefusal};
ghost use Rattle.ann_segment.specs.Segment.{SegmentView, IsSegment, node_block, sealed_block, IsNode, IsVerdict};
ghost use Rattle.ann_segment.specs.declared.refused.SegmentRefused.TheVariants.{Disk};
ghost use Rattle.ann_segment.specs.declared.refused.VerifyRefused.TheVariants.{Disk as Unread};

use crate::fields::{BLOCK, directory_blocks, pid_at};
use crate::opening::read_front;
use crate::{SegmentRefused, VerifyRefused};
use ann_block::read_node;
use ann_pq::Codebook;
use ann_types::{Params, Pid};
use ann_vault::{Eye, Failed, Sealed};
use std::alloc::Global;
use std::marker::Model;

/// A long-term graph at rest. Its Pids and codes are in memory, its node blocks behind its seal.
#[derive(Drop)]
pub struct Segment<S: Sealed> {
    pub(crate) number: u64,
    pub(crate) m: u16,
    pub(crate) count: u32,
    pub(crate) start_row: Option<u32>,
    // A Pid (4 bytes) and a code (m bytes) for each row, and perhaps zeros.
    pub(crate) directory: Vec<u8>,
    pub(crate) seal: S,
}

impl<S: Sealed> Model for Segment<S> {
    ghost use Rattle.std.specs.Prelude.{◌≡◌, ◌≤◌, ◌+◌, ◌*◌, length};
    ghost use Rattle.ann_segment.specs.Directory.{items_in};
    ghost use Rattle.ann_segment.specs.Opening.{segment_length};
    ghost use Rattle.ann_segment.specs.Segment.{SegmentView, IsSegment};

    ghost Value = { SegmentView S };

    ghost view = { λ s. record { number = s.number; m = s.m; entry = s.start_row; items = items_in s.m s.count s.directory.items; seal = s.seal } };

    ghost invariant = { λ s. (s.m ≤ 64)
        × (s.count * (4 + s.m) ≤ length s.directory.items)
        × IsSegment (record { number = s.number; m = s.m; entry = s.start_row; items = items_in s.m s.count s.directory.items; seal = s.seal })
        × (S.tells → (S.number s.seal ≡ s.number) × (length (S.bytes s.seal) ≡ segment_length s.count s.m)) };
}

impl<S: Sealed> Segment<S> {
    /// Reads the header and the directory of what is sealed, and keeps its Pids and codes.
    ///
    /// # Errors
    ///
    /// `BadSegment` with the first header or directory block that the format refuses, `Disk` or `Memory`; the seal comes
    /// back.
    pub fn open<E: Eye<Seal = S>>(
        alloc: Global,
        seal: S,
        number: u64,
        params: &Params,
        eye: &mut E,
    ) -> Result<Segment<S>, (SegmentRefused, S)>
        requires { S.tells → S.number seal ≡ number }
        ensures opened { IfOk result (IsOpened number params.now seal) }
        ensures given_back { IfErr result (λ refused. refused.1 ≡ seal) }
        // What is opened is what was sealed, and a bad block is the first that the format refuses.
        ensures told { S.tells → MatchResult result
            (IsOpenedFrom number params.now (S.bytes seal))
            (λ refused. IsRefusal number params.now (S.bytes seal) refused.0) }
        // The text of a graph is opened as this graph.
        ensures holds { S.tells → OpensText number params.now (S.bytes seal) result }
        ensures reads { HasRead (λ refused. refused.0) result (E.reads eye.old) (E.reads eye.new) }
        ensures cause { CountsFault (λ refused. refused.0 ≡ Disk)
            result (E.faults eye.old) (E.faults eye.new) }
    {
        match read_front(alloc, &seal, number, params, eye) {
            Ok(front) => Ok(Segment {
                number,
                m: front.header.m,
                count: front.header.count,
                start_row: front.header.start_row,
                directory: front.directory,
                seal,
            }),
            Err(why) => Err((why, seal)),
        }
    }

    /// What is true of every segment: its Pids rise with its rows, its entry is a row, or none where there is no row, and
    /// its seal has its number. It does nothing.
    pub fn known(&self)
        ensures sound { IsSegment self.now }
        ensures number { S.tells → S.number self.now.seal ≡ self.now.number }
    {
        let _ = &self.number;
    }

    /// The number under which it is sealed.
    pub fn number(&self) -> u64
        ensures { result ≡ self.now.number }
    {
        self.number
    }

    /// How many rows it has.
    pub fn count(&self) -> u32
        ensures { result ≡ length self.now.items }
    {
        self.count
    }

    /// The row at which walks begin; none where there is no row.
    pub fn entry(&self) -> Option<u32>
        ensures { result ≡ self.now.entry }
    {
        self.start_row
    }

    /// The Pid of the point in a row.
    pub fn pid(&self, row: u32) -> Pid
        requires { row < length self.now.items }
        ensures { result ≡ (item_of self.now.items row).0 }
    {
        pid_at(&self.directory, self.m, row)
    }

    /// The code of the point in a row.
    pub fn code(&self, row: u32) -> &[u8]
        requires { row < length self.now.items }
        ensures value { result.now ≡ (item_of self.now.items row).1 }
        ensures size { length result.now ≡ self.now.m }
    {
        let size = usize::from(self.m);
        let at = row as usize * (4 + size) + 4;
        &self.directory[at..at + size]
    }

    /// The seal.
    pub fn seal(&self) -> &S
        ensures { result.now ≡ self.now.seal }
    {
        &self.seal
    }

    /// The seal alone. The Pids and codes are gone.
    pub fn into_seal(self) -> S
        ensures { result ≡ self.seal }
    {
        self.seal
    }

    /// Reads the node block of a row and judges it: whether it is in the format, and the code of its vector is the
    /// directory's. The page has 4096 bytes, and holds the block afterwards.
    ///
    /// # Errors
    ///
    /// `BadSegment` with the block exactly where what was read is at fault, or `Disk`.
    pub fn verify<E: Eye<Seal = S>>(
        &self,
        row: u32,
        book: &Codebook,
        params: &Params,
        eye: &mut E,
        page: &mut [u8],
    ) -> Result<(), VerifyRefused>
        requires row { row < length self.now.items }
        requires page { length page.old ≡ 4096 }
        ensures judged { IsVerdict self.now row book.now params.now page.new result }
        // What is judged is what is sealed.
        ensures told { S.tells → (IsErrOf result Unread → ⊥)
            → page.new ≡ sealed_block (S.bytes self.now.seal) (node_block self.now row) }
        ensures reads { CountsRead (λ why. why ≡ Unread) result (E.reads eye.old) (E.reads eye.new) }
        ensures cause { CountsFault (λ why. why ≡ Unread) result (E.faults eye.old) (E.faults eye.new) }
    {
        let block = self.node_block(row);
        eye.read(&self.seal, 4096 * block, page)?;
        let pid = self.pid(row);
        let count = self.count();
        if is_node(page, pid, row, count, self.code(row), book, params) {
            Ok(())
        } else {
            Err(VerifyRefused::BadSegment { block })
        }
    }

    /// Where the node block of a row stands among the blocks; a block has 4096 bytes.
    #[tactic(auto, unfolding(crate::specs::Opening::segment_length))]
    pub fn node_block(&self, row: u32) -> u64
        requires { row < length self.now.items }
        ensures value { result ≡ node_block self.now row }
        ensures within { S.tells → 4096 * result + 4096 ≤ length (S.bytes self.now.seal) }
        ensures small { result < 2 ^ 44 }
    {
        1 + directory_blocks(self.count, self.m) + u64::from(row)
    }
}

// A page is the node block of this Pid in a row of so many, and its vector has this code.
fn is_node(
    page: &[u8],
    pid: Pid,
    row: u32,
    count: u32,
    wanted: &[u8],
    book: &Codebook,
    params: &Params,
) -> bool
    ensures { IsTrue result ↔ IsNode page.now pid row count wanted.now book.now params.now }
{
    match read_node(page, pid, row, count, params) {
        Ok(node) => has_code(book, node.vector(), wanted),
        Err(_) => false,
    }
}

// A vector has the codebook's dimension and this code over it.
fn has_code(book: &Codebook, vector: &[u8], wanted: &[u8]) -> bool
    ensures { IsTrue result
        ↔ ((length vector.now ≡ book.now.d) × (code book.now.book vector.now ≡ wanted.now)) }
{
    book.known();
    if vector.len() != usize::from(book.d()) {
        return false;
    }
    let mut code = [0; 64];
    let code = &mut code[..usize::from(book.m())];
    book.code(vector, code);
    *code == *wanted
}
