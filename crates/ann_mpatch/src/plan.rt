ghost use Rattle.std.specs.Prelude.{◌≡◌, ◌<◌, length, OnOk};
ghost use Rattle.ann_mpatch.specs.Plan.{IsPlan, merged_list};

use crate::list::patch;
use ann_mdelete::{Decoded, Lists};
use ann_prune::Candidates;
use ann_segment::Segment;
use ann_types::{NewPoint, Params};
use ann_vault::Sealed;
use arrayvec::ArrayVec;
use std::alloc::AllocError;
use std::sync::Arc;

/// What the phases of a merge before the last one have made of the merged graph.
///
/// The merged rows are the survivors of the old long-term graph and then the new points, in order of Pid. The base, to
/// which new points are linked, is the first of them: the survivors, or where none survives the first new points.
#[derive(Drop)]
pub struct PatchPlan<S: Sealed> {
    /// The old long-term graph; none where there is none.
    pub segment: Option<Arc<Segment<S>>>,
    /// The rows of the segment that survive, in ascending order.
    pub survivors: Vec<u32>,
    /// The neighbours of each row of the base.
    pub base: Lists,
    /// The new neighbours of each row of the base: later rows.
    pub delta: Lists,
    /// The new points, in order of Pid.
    pub points: Vec<NewPoint>,
    /// The neighbours of each later row, which are rows of the base.
    pub links: Lists,
    /// The decoded vector of each merged row.
    pub decoded: Decoded,
    /// The parameters of the index.
    pub params: Params,
}

impl<S: Sealed> PatchPlan<S> {
    /// Leaves in `out` the list of a merged row: a row of the base is patched, and a later one has its links. The only
    /// error is want of memory.
    pub(crate) fn list(
        &self,
        row: u32,
        scratch: &mut Candidates,
        out: &mut ArrayVec<u32, 128>,
    ) -> Result<(), AllocError>
        requires plan { IsPlan self.now }
        requires row { row < length self.now.decoded }
        ensures { OnOk result (out.new.items ≡ merged_list self.now row) }
    {
        let place = row as usize;
        let count = self.base.len();
        if place < count {
            let own = self.base.get(row);
            let delta = self.delta.get(row);
            return patch(&self.decoded, row, own, delta, &self.params, scratch, out);
        }
        out.clear();
        let _ = out.try_extend_from_slice(self.links.get((place - count) as u32));
        Ok(())
    }
}
