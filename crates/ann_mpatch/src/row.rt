ghost use Rattle.std.specs.Prelude.{◌≡◌, ◌≤◌, ◌<◌, ◌+◌, ◌++◌, ◌∷◌, [], length, OnOk, IfErr};
ghost use Rattle.std.specs.List.Sorted.{IsStrictlyIncreasing};
ghost use Rattle.ann_block.specs.Node.{node_bytes};
ghost use Rattle.ann_mpatch.specs.Plan.{IsPlan, merged_list, new_at};
ghost use Rattle.ann_mpatch.specs.Source.{source_in};
ghost use Rattle.ann_mpatch.specs.Patched.{HasAdded, IsPatched, IsRefusedFor, block_of, standing};

use crate::blocks::Scratch;
use crate::plan::PatchPlan;
use ann_block::{read_node, write_node};
use ann_mdelete::WorkRefused;
use ann_segment::Segment;
use ann_types::{Params, Pid, Tag};
use ann_vault::{Eye, Sealed};
use std::alloc::AllocError;

/// Adds the node block of a point. The only error is want of memory.
fn add_block(
    bytes: &mut Vec<u8>,
    pid: Pid,
    tag: Tag,
    vector: &[u8],
    list: &[u32],
) -> Result<(), AllocError>
    requires vector { length vector.now ≤ 1024 }
    requires degree { length list.now ≤ 128 }
    requires ascending { IsStrictlyIncreasing list.now }
    ensures added { OnOk result
        (bytes.new.items ≡ bytes.old.items ++ node_bytes pid tag vector.now list.now) }
    ensures long { OnOk result (length bytes.new.items ≡ length bytes.old.items + 4096) }
{
    let start = bytes.len();
    bytes.reserve(4096)?;
    bytes.resize(start + 4096, 0)?;
    write_node(pid, tag, vector, list, &mut bytes[start..]);
    Ok(())
}

/// Reads the node block of a row of a segment, and adds that of its point with another list.
///
/// # Errors
///
/// `Disk`, `BadSegment` exactly where the block isn't in the format, or `Memory`.
fn add_old<S: Sealed, E: Eye<Seal = S>>(
    segment: &Segment<S>,
    eye: &mut E,
    params: &Params,
    row: u32,
    list: &[u32],
    page: &mut [u8],
    bytes: &mut Vec<u8>,
) -> Result<(), WorkRefused>
    requires row { row < length segment.now.items }
    requires page { length page.old ≡ 4096 }
    requires degree { length list.now ≤ 128 }
    requires ascending { IsStrictlyIncreasing list.now }
    ensures added { OnOk result (HasAdded S.tells (source_in S.bytes segment.now) params.now row list.now
        (standing bytes.old.items (E.reads eye.old) (E.faults eye.old))
        (standing bytes.new.items (E.reads eye.new) (E.faults eye.new))) }
    ensures refused { IfErr result (IsRefusedFor S.tells (source_in S.bytes segment.now) params.now (row ∷ [])
        (standing bytes.old.items (E.reads eye.old) (E.faults eye.old))
        (standing bytes.new.items (E.reads eye.new) (E.faults eye.new))) }
    ensures page { length page.new ≡ 4096 }
{
    let block = segment.node_block(row);
    eye.read(segment.seal(), 4096 * block, page)?;
    let pid = segment.pid(row);
    match read_node(page, pid, row, segment.count(), params) {
        Ok(node) => {
            add_block(bytes, pid, node.tag(), node.vector(), list)?;
            Ok(())
        }
        Err(_) => Err(WorkRefused::BadSegment { block }),
    }
}

impl<S: Sealed> PatchPlan<S> {
    /// Reads the node block of a survivor, and adds that of its point with its list.
    fn add_survivor<E: Eye<Seal = S>>(
        &self,
        eye: &mut E,
        row: u32,
        list: &[u32],
        page: &mut [u8],
        bytes: &mut Vec<u8>,
    ) -> Result<(), WorkRefused>
        requires plan { IsPlan self.now }
        requires row { row < length self.now.survivors.items }
        requires list { list.now ≡ merged_list self.now row }
        requires page { length page.old ≡ 4096 }
        ensures { IsPatched S.tells S.bytes self.now row 1
            (standing bytes.old.items (E.reads eye.old) (E.faults eye.old))
            (standing bytes.new.items (E.reads eye.new) (E.faults eye.new)) result }
    {
        let Some(segment) = &self.segment else {
            unreachable!();
        };
        let old = self.survivors[row as usize];
        add_old(segment, eye, &self.params, old, list, page, bytes)
    }

    /// Adds the node block of a later row, whose point is new, with its list. The only error is want of memory.
    fn add_new(&self, row: u32, list: &[u32], bytes: &mut Vec<u8>) -> Result<(), AllocError>
        requires plan { IsPlan self.now }
        requires later { length self.now.survivors.items ≤ row }
        requires row { row < length self.now.decoded }
        requires list { list.now ≡ merged_list self.now row }
        ensures added { OnOk result
            (bytes.new.items ≡ bytes.old.items ++ block_of (new_at self.now row) (merged_list self.now row)) }
        ensures long { OnOk result (length bytes.new.items ≡ length bytes.old.items + 4096) }
    {
        let point = &self.points[row as usize - self.survivors.len()];
        add_block(bytes, point.pid, point.tag, point.vector.bytes(), list)
    }

    /// Adds the node block of a merged row.
    ///
    /// # Errors
    ///
    /// `Disk`, `BadSegment` exactly where a block was read that isn't in the format, or `Memory`.
    pub(crate) fn add_row<E: Eye<Seal = S>>(
        &self,
        eye: &mut E,
        row: u32,
        scratch: &mut Scratch,
        bytes: &mut Vec<u8>,
    ) -> Result<(), WorkRefused>
        requires plan { IsPlan self.now }
        requires row { row < length self.now.decoded }
        ensures { IsPatched S.tells S.bytes self.now row 1
            (standing bytes.old.items (E.reads eye.old) (E.faults eye.old))
            (standing bytes.new.items (E.reads eye.new) (E.faults eye.new)) result }
    {
        self.list(row, &mut scratch.candidates, &mut scratch.list)?;
        if (row as usize) < self.survivors.len() {
            return self.add_survivor(eye, row, &scratch.list, &mut scratch.page, bytes);
        }
        self.add_new(row, &scratch.list, bytes)?;
        Ok(())
    }
}
