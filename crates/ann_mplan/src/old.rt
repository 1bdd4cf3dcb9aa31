ghost use Rattle.std.specs.Prelude.{◌≡◌, ◌≤◌, ◌<◌, ◌+◌, ◌*◌, ◌++◌, [], All, length, IfErr, IfOk, OnOk};
ghost use Rattle.ann_mdelete.specs.Refusals.{counts_of};
ghost use Rattle.ann_mplan.specs.Old.{AreUnread, HasLists, decoded_items, gone_in};

use ann_dead::Deleted;
use ann_mdelete::{Decoded, Lists, Loaded, WorkRefused, load_piece};
use ann_pq::Codebook;
use ann_segment::Segment;
use ann_types::Params;
use ann_vault::{Eye, Sealed};
use std::alloc::{AllocError, Global};

/// Whether each row of a segment is deleted. The only error is want of memory.
pub fn deleted_rows<S: Sealed, D: Deleted>(
    alloc: Global,
    segment: &Segment<S>,
    dead: &D,
) -> Result<Vec<bool>, AllocError>
    ensures { IfOk result (λ gone. gone.items ≡ gone_in (D.pids dead.now) segment.now.items) }
{
    let mut gone = Vec::new(alloc);
    for row in 0..segment.count() {
        gone.push(dead.contains(segment.pid(row)))?;
    }
    Ok(gone)
}

/// The decoded vector of each row of a segment, from the codes of its directory. The only error is want of memory.
pub fn decode_rows<S: Sealed>(
    alloc: Global,
    segment: &Segment<S>,
    book: &Codebook,
) -> Result<Decoded, AllocError>
    requires { segment.now.m ≡ book.now.m }
    ensures { IfOk result (λ decoded. decoded ≡ decoded_items book.now.book segment.now.items) }
{
    let mut decoded = Decoded::new(alloc);
    for row in 0..segment.count() {
        decoded.push(book, segment.code(row))?;
    }
    Ok(decoded)
}

/// Adds the lists of a piece. The only error is want of memory.
pub fn add_lists(piece: &Loaded, out: &mut Lists) -> Result<(), AllocError>
    ensures { OnOk result (out.new ≡ out.old ++ piece.now.lists) }
{
    for i in 0..piece.count() {
        out.push(piece.list(i))?;
    }
    Ok(())
}

/// Leaves the lists of all rows of a segment, piece by piece, by one read each.
///
/// Also where the eye doesn't tell its bytes, the lists are a graph: each has other rows in ascending order, at most R.
///
/// # Errors
///
/// `Disk` where a read failed, `BadSegment` with the first block that was read and isn't the node block of its row, and
/// `Memory`. The piece and the lists may then hold anything.
pub fn read_lists<S: Sealed, E: Eye<Seal = S>>(
    segment: &Segment<S>,
    eye: &mut E,
    params: &Params,
    piece: &mut Loaded,
    out: &mut Lists,
) -> Result<(), WorkRefused>
    ensures read { OnOk result (HasLists S.tells S.bytes segment.now params.now out.new
        (counts_of (E.reads eye.old) (E.faults eye.old)) (counts_of (E.reads eye.new) (E.faults eye.new))) }
    ensures refused { IfErr result (AreUnread S.tells S.bytes segment.now params.now
        (counts_of (E.reads eye.old) (E.faults eye.old)) (counts_of (E.reads eye.new) (E.faults eye.new))) }
{
    out.clear();
    for at in 0..segment.count().div_ceil(256) {
        load_piece(segment, eye, params, 256 * at, piece)?;
        add_lists(piece, out)?;
    }
    Ok(())
}
