// The merged segment, written and sealed.
ghost use Rattle.std.specs.Prelude.{◌≡◌, ◌≤◌, ◌<◌, ◌+◌, length, None, IfOk, IfErr, OnOk, MatchResult};
ghost use Rattle.std.specs.FinMap as map;
ghost use Rattle.ann_vault.specs.Drafts.{KeepsOthers};
ghost use Rattle.ann_vault.specs.Held.{MayBeSealed};
ghost use Rattle.ann_segment.specs.Writer.{HasBegun, IsDraftOf, IsWritten, KeepsRest, SealsText};
ghost use Rattle.ann_mcause.specs.Eyes.{AreCause, HaveGone};
ghost use Rattle.ann_mpatch.specs.Plan.{IsPlan, source_for};
ghost use Rattle.ann_mseal.specs.Ends.{HasSealed, IsFault, IsSealable, IsSealedUnder, IsUnsealed, IsUnwritten, LeavesSealed, SealsMerged, as_work};
ghost use Rattle.ann_mseal.specs.Merged.{merged_header, merged_items};
ghost use Rattle.ann_mseal.specs.Pieces.{piece_count};
ghost use Rattle.ann_mseal.specs.Written.{IsSameSegment, IsWriting};

use crate::front::{directory_of, header_of};
use crate::window::patch_window;
use crate::writing::write_pieces;
use ann_crew::{Gate, Spot};
use ann_mdelete::WorkRefused;
use ann_mpatch::PatchPlan;
use ann_pq::Codebook;
use ann_segment::{Segment, SegmentRefused, SegmentWriter};
use ann_vault::{Eye, Vault};
use std::alloc::Global;
use std::thread::Threads;

/// What the refusal of a segment is for a merge.
fn as_work(why: SegmentRefused) -> WorkRefused
    ensures { result ≡ as_work why }
{
    match why {
        SegmentRefused::Disk => WorkRefused::Disk,
        SegmentRefused::Memory => WorkRefused::Memory,
        SegmentRefused::BadSegment { block } => WorkRefused::BadSegment { block },
    }
}

/// Begins the merged segment: writes its header and its directory.
///
/// # Errors
///
/// `Disk` of the vault, or `Memory`.
fn begin<V: Vault>(
    alloc: Global,
    plan: &PatchPlan<V::Seal>,
    entry: Option<u32>,
    number: u64,
    book: &Codebook,
    vault: &mut V,
) -> Result<SegmentWriter<V::Draft>, WorkRefused>
    requires sealable { IsSealable book.now plan.now entry }
    requires new { V.Seal.tells → map.get (V.held vault.old) number ≡ None }
    ensures begun { IfOk result
        (HasBegun (merged_header plan.now entry number) (merged_items book.now.book plan.now)) }
    ensures writing { IfOk result (IsWriting V.Seal.tells V.is_current V.draft_number V.draft_bytes
        V.Seal.bytes plan.now 0 vault.new) }
    ensures rest { V.Seal.tells →
        KeepsRest V.is_current V.draft_number V.held number vault.old vault.new }
    ensures later { V.faults vault.old ≤ V.faults vault.new }
    ensures refused { IfErr result (IsUnwritten (V.faults vault.old) (V.faults vault.new)) }
{
    let directory = directory_of(alloc, plan, book)?;
    match SegmentWriter::start(vault, header_of(plan, entry, number), directory) {
        Ok(writer) => Ok(writer),
        Err(why) => Err(as_work(why)),
    }
}

/// Makes the node blocks of pieces side by side, as many as `count` from `first` on, and writes them in order.
///
/// # Errors
///
/// `Disk` of the vault or of an eye, `BadSegment` of an eye, or `Memory`. The writer is then only good for being dropped.
fn write_window<R: Threads + Sync, V: Vault, E: Eye<Seal = V::Seal> + Send, G: Gate + Sync>(
    rt: &R,
    alloc: Global,
    gate: &G,
    plan: &PatchPlan<V::Seal>,
    first: u32,
    count: u32,
    vault: &mut V,
    writer: &mut SegmentWriter<V::Draft>,
    eyes: &mut Vec<E>,
) -> Result<(), WorkRefused>
where
    V::Seal: Send + Sync,
    requires plan { IsPlan plan.now }
    requires within { first + count ≤ piece_count plan.now }
    requires some { 0 < length eyes.old.items }
    requires few { length eyes.old.items ≤ 16 }
    requires writing { IsWriting V.Seal.tells V.is_current V.draft_number V.draft_bytes
        V.Seal.bytes plan.now first vault.old writer.old }
    ensures eyes { HaveGone E.reads E.faults eyes.old.items eyes.new.items }
    ensures same { IsSameSegment writer.old writer.new }
    ensures writing { OnOk result (IsWriting V.Seal.tells V.is_current V.draft_number V.draft_bytes
        V.Seal.bytes plan.now (first + count) vault.new writer.new) }
    ensures rest { V.Seal.tells →
        KeepsRest V.is_current V.draft_number V.held writer.old.header.number vault.old vault.new }
    ensures later { V.faults vault.old ≤ V.faults vault.new }
    ensures refused { IfErr result (IsUnsealed (AreCause E.reads E.faults V.Seal.tells
        (source_for V.Seal.bytes plan.now) plan.now.params eyes.old.items eyes.new.items)
        (V.faults vault.old) (V.faults vault.new)) }
{
    let pieces = patch_window(rt, alloc, gate, plan, first, count, eyes)?;
    match write_pieces(vault, writer, &pieces) {
        Ok(()) => Ok(()),
        Err(why) => Err(as_work(why)),
    }
}

/// Makes the node blocks of all merged rows and writes them, a window of pieces at a time.
///
/// # Errors
///
/// `Disk` of the vault or of an eye, `BadSegment` of an eye, or `Memory`. The writer is then only good for being dropped.
fn write_rows<R: Threads + Sync, V: Vault, E: Eye<Seal = V::Seal> + Send, G: Gate + Sync>(
    rt: &R,
    alloc: Global,
    gate: &G,
    plan: &PatchPlan<V::Seal>,
    vault: &mut V,
    writer: &mut SegmentWriter<V::Draft>,
    eyes: &mut Vec<E>,
) -> Result<(), WorkRefused>
where
    V::Seal: Send + Sync,
    requires plan { IsPlan plan.now }
    requires some { 0 < length eyes.old.items }
    requires few { length eyes.old.items ≤ 16 }
    requires writing { IsWriting V.Seal.tells V.is_current V.draft_number V.draft_bytes
        V.Seal.bytes plan.now 0 vault.old writer.old }
    ensures eyes { HaveGone E.reads E.faults eyes.old.items eyes.new.items }
    ensures same { IsSameSegment writer.old writer.new }
    ensures writing { OnOk result (IsWriting V.Seal.tells V.is_current V.draft_number V.draft_bytes
        V.Seal.bytes plan.now (piece_count plan.now) vault.new writer.new) }
    ensures rest { V.Seal.tells →
        KeepsRest V.is_current V.draft_number V.held writer.old.header.number vault.old vault.new }
    ensures later { V.faults vault.old ≤ V.faults vault.new }
    ensures refused { IfErr result (IsUnsealed (AreCause E.reads E.faults V.Seal.tells
        (source_for V.Seal.bytes plan.now) plan.now.params eyes.old.items eyes.new.items)
        (V.faults vault.old) (V.faults vault.new)) }
{
    let pieces = plan.decoded.len().div_ceil(256);
    let window = 4 * eyes.len() as u32;
    let mut first = 0;
    while first < pieces {
        let count = window.min(pieces - first);
        write_window(rt, alloc, gate, plan, first, count, vault, writer, eyes)?;
        first += count;
    }
    Ok(())
}

/// Seals a segment, all of whose rows are written.
///
/// # Errors
///
/// `Disk` of the vault. The bytes may be sealed or not.
fn end<V: Vault>(
    vault: &mut V,
    writer: SegmentWriter<V::Draft>,
) -> Result<Segment<V::Seal>, WorkRefused>
    requires all { writer.written ≡ writer.header.count }
    requires draft { V.Seal.tells → IsDraftOf V.is_current V.draft_number V.draft_bytes writer vault.old }
    ensures segment { IfOk result (IsWritten writer) }
    ensures sealed { V.Seal.tells → MatchResult result
        (λ segment. IsSealedUnder V.Seal.number V.Seal.bytes
        writer.header.number segment.seal (V.held vault.old) (V.held vault.new))
        (λ _. MayBeSealed writer.header.number (V.draft_bytes writer.draft)
        (V.held vault.old) (V.held vault.new)) }
    ensures text { V.Seal.tells →
        IfOk result (λ segment. SealsText writer (V.draft_bytes writer.draft) (V.Seal.bytes segment.seal)) }
    ensures others { V.Seal.tells →
        KeepsOthers V.is_current vault.old vault.new V.draft_number writer.header.number }
    ensures later { V.faults vault.old ≤ V.faults vault.new }
    ensures refused { IfErr result (IsFault (V.faults vault.old) (V.faults vault.new)) }
{
    match writer.finish(vault) {
        Ok(segment) => Ok(segment),
        Err(why) => Err(as_work(why)),
    }
}

/// Does the Patch phase of a merge by its plan, and seals the merged segment under a number that isn't sealed
/// (StreamingMerge of FreshDiskANN, section 5.3). Walks of it begin at the row of the entry.
///
/// Pieces of 256 rows are made side by side, four at a time for each eye, and then written in order.
///
/// # Errors
///
/// `Disk` where the vault or an eye failed, `BadSegment` with a block that an eye read and that is outside the format, or
/// `Memory`. The draft is gone, and after `Disk` the segment may be sealed or not.
pub fn seal_merge<R: Threads + Sync, V: Vault, E: Eye<Seal = V::Seal> + Send, G: Gate + Sync>(
    rt: &R,
    alloc: Global,
    gate: &G,
    plan: &PatchPlan<V::Seal>,
    entry: Option<u32>,
    number: u64,
    book: &Codebook,
    vault: &mut V,
    eyes: &mut Vec<E>,
) -> Result<Segment<V::Seal>, WorkRefused>
where
    V::Seal: Send + Sync,
    requires sealable { IsSealable book.now plan.now entry }
    requires workers { (0 < length eyes.old.items) × (length eyes.old.items ≤ 16) }
    requires new { V.Seal.tells → map.get (V.held vault.old) number ≡ None }

    ensures eyes { HaveGone E.reads E.faults eyes.old.items eyes.new.items }
    // The merged segment is sealed. A refusal leaves what was sealed, save that after `Disk` the merged text may be too.
    ensures ends { MatchResult result
        (HasSealed V.Seal.tells V.Seal.number V.Seal.bytes book.now.book plan.now entry number
        (V.held vault.old) (V.held vault.new))
        (λ why. V.Seal.tells → LeavesSealed (SealsMerged V.Seal.bytes book.now.book plan.now entry number)
        number (V.held vault.old) (V.held vault.new) why) }
    ensures others { V.Seal.tells →
        KeepsOthers V.is_current vault.old vault.new V.draft_number number }
    ensures later { V.faults vault.old ≤ V.faults vault.new }
    ensures refused { IfErr result (IsUnsealed (AreCause E.reads E.faults V.Seal.tells
        (source_for V.Seal.bytes plan.now) plan.now.params eyes.old.items eyes.new.items)
        (V.faults vault.old) (V.faults vault.new)) }
{
    gate.pass(Spot::Phase { phase: 3 });
    let mut writer = begin(alloc, plan, entry, number, book, vault)?;
    write_rows(rt, alloc, gate, plan, vault, &mut writer, eyes)?;
    end(vault, writer)
}
