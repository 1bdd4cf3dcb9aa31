// Opening the segment of a list's last merge.
ghost use Rattle.std.specs.Prelude.{◌≡◌, IfOk, IfErr};
ghost use Rattle.ann_base.specs.Causes.{AreCounted, counts_of};
ghost use Rattle.ann_state.specs.Merged.{IsMerged, IsMergeRefused};

use crate::refused::ListRefused;
use ann_base::open_below;
use ann_reopen::Merge;
use ann_segment::Segment;
use ann_types::Params;
use ann_vault::{Eye, Sealed, Vault};
use std::alloc::Global;

/// Opens the segment of the last merge that ended. Without one there is none, and nothing is read.
///
/// # Errors
///
/// `BadSegment` with the first block at fault, by the refusals of `open_below`: the segment's Pids are to be below the next Pid
/// of the entries before the merge's Begin. `Disk` where a call of the vault or the eye failed, or want of memory.
pub fn open_merged<V: Vault, E: Eye<Seal = V::Seal>>(
    alloc: Global,
    vault: &mut V,
    eye: &mut E,
    params: &Params,
    merge: Option<Merge>,
) -> Result<Option<Segment<V::Seal>>, ListRefused>
    ensures opened { IfOk result (
        IsMerged V.Seal.tells V.Seal.bytes (V.held vault.old) params.now merge) }
    ensures refused { IfErr result (
        IsMergeRefused V.Seal.tells (V.held vault.old) params.now merge) }
    ensures same { V.Seal.tells → V.held vault.new ≡ V.held vault.old }
    ensures cause { AreCounted ListRefused.Disk result
        (counts_of (V.faults vault.old) (E.faults eye.old))
        (counts_of (V.faults vault.new) (E.faults eye.new)) }
{
    let Some(merge) = merge else {
        return Ok(None);
    };
    let segment = open_below(alloc, vault, eye, params, merge.segment, merge.next)?;
    Ok(Some(segment))
}
