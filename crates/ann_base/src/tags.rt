// Loading the tags of a segment's points.
ghost use Rattle.std.specs.Prelude.{◌≡◌, ◌<◌, ◌≤◌, ◌%◌, ◌+◌, ◌^◌, ◌++◌, ℕ, List, length, IfOk, IfErr, OnOk};
ghost use Rattle.ann_vault.specs.Counted.{CountsFault};
ghost use Rattle.ann_block.specs.Node.{NodeFields};
ghost use Rattle.ann_mdelete.specs.Loaded.{piece_rows};
ghost use Rattle.ann_base.specs.Tagged.{HasTags, IsAddRefused, HasNodes, HasAll, HasMore, IsLoadRefused};

use crate::refused::BaseRefused;
use ann_mdelete::{Loaded, load_piece};
use ann_segment::Segment;
use ann_tags::Tags;
use ann_types::Params;
use ann_vault::{Eye, Sealed};
use std::alloc::Global;

/// The tags of a segment's points, each with its Pid.
///
/// # Errors
///
/// `BadSegment` with the first node block at fault, `Disk` where the eye failed, or want of memory.
pub(crate) fn load_tags<S: Sealed, E: Eye<Seal = S>>(
    alloc: Global,
    segment: &Segment<S>,
    eye: &mut E,
    params: &Params,
) -> Result<Tags, BaseRefused>
    ensures loaded { IfOk result (λ tags. HasAll S.tells S.bytes segment.now params.now tags.pids) }
    ensures refused { S.tells →
        IfErr result (IsLoadRefused segment.now params.now (S.bytes segment.now.seal)) }
    ensures cause { CountsFault (λ why. why ≡ BaseRefused.Disk) result (E.faults eye.old) (E.faults eye.new) }
{
    let mut tags = Tags::new(alloc);
    let mut piece = Loaded::new(alloc)?;
    for index in 0..(u64::from(segment.count()) + 255) / 256 {
        let first = (256 * index) as u32;
        add_piece(segment, eye, params, first, &mut piece, &mut tags)?;
    }
    Ok(tags)
}

// Adds the tags of the rows from `first` to at most `first + 255`.
fn add_piece<S: Sealed, E: Eye<Seal = S>>(
    segment: &Segment<S>,
    eye: &mut E,
    params: &Params,
    first: u32,
    piece: &mut Loaded,
    tags: &mut Tags,
) -> Result<(), BaseRefused>
    requires piece { first % 256 ≡ 0 }
    requires first { first < length segment.now.items }
    requires few { length segment.now.items < 2 ^ 32 }
    ensures added { (nodes : List NodeFields) → length nodes ≡ first →
        HasNodes S.tells S.bytes segment.now params.now nodes tags.old.pids →
        let count = piece_rows (length segment.now.items) first in
        OnOk result (HasMore S.tells S.bytes segment.now params.now nodes count tags.new.pids) }
    ensures refused { S.tells → (nodes : List NodeFields) → length nodes ≡ first →
        HasNodes S.tells S.bytes segment.now params.now nodes tags.old.pids →
        IfErr result (IsLoadRefused segment.now params.now (S.bytes segment.now.seal)) }
    ensures cause { CountsFault (λ why. why ≡ BaseRefused.Disk) result (E.faults eye.old) (E.faults eye.new) }
{
    load_piece(segment, eye, params, first, piece)?;
    tags.reserve(piece.count())?;
    add_tags(segment, first, piece, tags)
}

// Adds the tags of the rows that were loaded.
fn add_tags<S: Sealed>(
    segment: &Segment<S>,
    first: u32,
    piece: &Loaded,
    tags: &mut Tags,
) -> Result<(), BaseRefused>
    requires rows { first + length piece.now.tags ≤ length segment.now.items }
    requires few { length segment.now.items < 2 ^ 32 }
    requires many { length piece.now.tags ≡ length piece.now.lists }
    requires room { length piece.now.tags ≤ tags.old.spare }
    ensures added { (before : List ℕ) → length before ≡ first → HasTags segment.now before tags.old.pids →
        OnOk result (HasTags segment.now (before ++ piece.now.tags) tags.new.pids) }
    ensures refused { (before : List ℕ) → length before ≡ first → HasTags segment.now before tags.old.pids →
        IfErr result (IsAddRefused segment.now before piece.now.tags) }
    // The only refusal is a bad block.
    ensures why { IfErr result (λ why. why ≡ BaseRefused.Disk → ⊥) }
{
    for i in 0..piece.count() {
        let tag = piece.tag(i);
        if tags.get(tag).is_some() {
            return Err(BaseRefused::BadSegment {
                block: segment.node_block(first + i),
            });
        }
        tags.insert(tag, segment.pid(first + i));
    }
    Ok(())
}
