// Reading the list of a log: its base, and its entries judged on it.
ghost use Rattle.std.specs.Prelude.{◌≡◌, ◌<◌, ◌+◌, ◌^◌, true, length, IfOk, IfErr};
ghost use Rattle.ann_base.specs.Causes.{AreCounted, counts_of};
ghost use Rattle.ann_preamble.specs.Base.{is_base};
ghost use Rattle.ann_state.specs.List.{IsListState, IsListRefused};

use crate::refused::ListRefused;
use ann_base::{Grounded, open_base};
use ann_preamble::Base;
use ann_reopen::{Basis, Judged, judge};
use ann_segment::Segment;
use ann_types::{Entry, Params};
use ann_vault::{Eye, Sealed, Vault};
use std::alloc::Global;

/// What reading the list of a log leaves.
#[derive(Drop)]
pub struct ListState<S: Sealed> {
    /// The segment of the base's graph; none exactly where the base names none.
    pub segment: Option<Segment<S>>,
    /// What the entries leave.
    pub judged: Judged,
}

/// Opens the segment of a log's base, and judges the log's entries on its tags.
///
/// # Errors
///
/// `BadSegment` with the first block of the base's segment that is at fault, by the refusals of `open_base`. Where there is
/// none, `BadLog` with the position of the first entry that isn't legal. `Disk` where a call of the vault or the eye failed, or
/// want of memory.
pub fn read_list<V: Vault, E: Eye<Seal = V::Seal>>(
    alloc: Global,
    vault: &mut V,
    eye: &mut E,
    params: &Params,
    base: &Base,
    entries: &[Entry],
) -> Result<ListState<V::Seal>, ListRefused>
    requires base { is_base base.now ≡ true }
    requires room { base.now.position + length entries.now < 2 ^ 63 }
    ensures read { IfOk result (IsListState V.Seal.tells V.Seal.bytes (V.held vault.old)
        params.now base.now entries.now) }
    ensures refused { IfErr result (IsListRefused V.Seal.tells V.Seal.bytes (V.held vault.old)
        params.now base.now entries.now) }
    ensures same { V.Seal.tells → V.held vault.new ≡ V.held vault.old }
    ensures cause { AreCounted ListRefused.Disk result
        (counts_of (V.faults vault.old) (E.faults eye.old))
        (counts_of (V.faults vault.new) (E.faults eye.new)) }
{
    let next = base.next as u32;
    let grounded = open_base(alloc, vault, eye, params, base.segment, next)?;
    let Grounded { tags, segment } = grounded;
    let basis = Basis {
        position: base.position,
        next,
        tags,
    };
    let judged = judge(alloc, params, basis, entries)?;
    Ok(ListState { segment, judged })
}
