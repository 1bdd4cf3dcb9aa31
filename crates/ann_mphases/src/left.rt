ghost use Rattle.std.specs.Prelude.{◌≡◌, ◌≤◌, ◌<◌, Option, Some, length, IfOk, IfErr};
ghost use Rattle.std.specs.Arc.{arc_value};
ghost use Rattle.std.specs.Option.{option_map};
ghost use Rattle.ann_types.specs.Codes.{decode};
ghost use Rattle.ann_mcause.specs.Eyes.{AreCause, HaveGone};
ghost use Rattle.ann_mdelete.specs.declared.refused.WorkRefused.TheVariants.{Memory};
ghost use Rattle.ann_mdelete.specs.Rows.{AreRows};
ghost use Rattle.ann_mpatch.specs.Source.{source_in, source_of};
ghost use Rattle.ann_mphases.specs.Index.{index_of};
ghost use Rattle.ann_mlaws.specs.Rows.{HasCodes};
ghost use Rattle.ann_mphases.specs.Left.{AreWide, IsLeft, IsPacked};

use crate::reading::read_all;
use crate::repairing::{Repairing, repair_all};
use ann_crew::Gate;
use ann_dead::Dead;
use ann_mdelete::{Decoded, Lists, WorkRefused};
use ann_mplan::{Packing, decode_rows, deleted_rows};
use ann_pq::Codebook;
use ann_segment::Segment;
use ann_types::Params;
use ann_vault::{Eye, Sealed};
use std::alloc::Global;
use std::sync::Arc;
use std::thread::Threads;

/// What the Delete phase leaves of the old long-term graph: the rows that survive, in ascending order, and by their ranks,
/// which are their rows in the merged graph, their neighbours and their decoded vectors.
#[derive(Drop)]
pub(crate) struct Left {
    pub(crate) survivors: Vec<u32>,
    pub(crate) lists: Lists,
    pub(crate) decoded: Decoded,
}

/// What is true of every code: it stands for a vector of d components. It does nothing.
fn know_code(book: &Codebook, code: &[u8])
    requires { length code.now ≡ book.now.m }
    ensures { length (decode book.now.book code.now) ≡ book.now.d }
{
    book.known();
    let _ = code;
}

/// What is true of the codes of every segment: each stands for a vector of d components. It does nothing.
fn know_codes<S: Sealed>(segment: &Segment<S>, book: &Codebook)
    requires { segment.now.m ≡ book.now.m }
    ensures { AreWide book.now segment.now.items }
{
    for row in 0..segment.count() {
        know_code(book, segment.code(row));
    }
}

/// The Delete phase over all rows (FreshDiskANN, section 5.3), of which `gone` says whether they are deleted.
///
/// # Errors
///
/// Want of memory.
fn repair_old<R: Threads + Sync, G: Gate + Sync>(
    rt: &R,
    alloc: Global,
    gate: &G,
    lists: &Lists,
    decoded: &Decoded,
    gone: &[bool],
    params: &Params,
    workers: usize,
) -> Result<Left, WorkRefused>
    requires rows { AreRows params.now lists.now decoded.now gone.now }
    requires some { 0 < workers }
    requires few { workers ≤ 16 }
    ensures packed { IfOk result (IsPacked
        (record { lists = lists.now; vectors = decoded.now; gone = gone.now; params = params.now })) }
    ensures refused { IfErr result (λ why. why ≡ Memory) }
{
    decoded.known();
    let packing = Packing::new(alloc, gone)?;
    let task = Repairing {
        lists,
        decoded,
        gone,
        params,
        packing: &packing,
        alloc,
    };
    let left = repair_all(rt, gate, &task, workers)?;
    let vectors = packing.decoded(alloc, decoded)?;
    Ok(Left {
        survivors: packing.into_survivors(),
        lists: left,
        decoded: vectors,
    })
}

/// The Delete phase of a segment.
///
/// # Errors
///
/// `Disk` where a read failed, `BadSegment` where a block that was read is outside the format, and `Memory`.
fn delete_rows<R: Threads + Sync, S: Sealed + Send + Sync, E: Eye<Seal = S> + Send, G: Gate + Sync>(
    rt: &R,
    alloc: Global,
    gate: &G,
    segment: &Segment<S>,
    gone: &Dead,
    book: &Codebook,
    params: &Params,
    eyes: &mut Vec<E>,
) -> Result<Left, WorkRefused>
    requires some { 0 < length eyes.old.items }
    requires few { length eyes.old.items ≤ 16 }
    requires codes { segment.now.m ≡ book.now.m }
    requires book { params.now.d ≡ book.now.d }
    ensures eyes { HaveGone E.reads E.faults eyes.old.items eyes.new.items }
    ensures left { IfOk result (IsLeft S.tells S.bytes (index_of params.now book.now) gone.now
        (Some segment.now)) }
    ensures refused { IfErr result (AreCause E.reads E.faults S.tells (source_in S.bytes segment.now)
        params.now eyes.old.items eyes.new.items) }
{
    let workers = eyes.len();
    let lists = read_all(rt, alloc, segment, params, eyes)?;
    let gone = deleted_rows(alloc, segment, gone)?;
    let decoded = decode_rows(alloc, segment, book)?;
    know_codes(segment, book);
    repair_old(rt, alloc, gate, &lists, &decoded, &gone, params, workers)
}

/// What the Delete phase leaves of the old long-term graph: nothing where there is none.
///
/// # Errors
///
/// `Disk` where a read failed, `BadSegment` where a block that was read is outside the format, and `Memory`.
pub(crate) fn delete_old<
    R: Threads + Sync,
    S: Sealed + Send + Sync,
    E: Eye<Seal = S> + Send,
    G: Gate + Sync,
>(
    rt: &R,
    alloc: Global,
    gate: &G,
    old: &Option<Arc<Segment<S>>>,
    gone: &Dead,
    book: &Codebook,
    params: &Params,
    eyes: &mut Vec<E>,
) -> Result<Left, WorkRefused>
    requires some { 0 < length eyes.old.items }
    requires few { length eyes.old.items ≤ 16 }
    requires codes { HasCodes (option_map arc_value old.now) book.now.m }
    requires book { params.now.d ≡ book.now.d }
    ensures eyes { HaveGone E.reads E.faults eyes.old.items eyes.new.items }
    ensures left { IfOk result (IsLeft S.tells S.bytes (index_of params.now book.now) gone.now
        (option_map arc_value old.now)) }
    ensures refused { IfErr result (AreCause E.reads E.faults S.tells
        (source_of S.bytes (option_map arc_value old.now)) params.now eyes.old.items eyes.new.items) }
{
    match old {
        Some(segment) => delete_rows(rt, alloc, gate, segment, gone, book, params, eyes),
        None => Ok(Left {
            survivors: Vec::new(alloc),
            lists: Lists::new(alloc),
            decoded: Decoded::new(alloc),
        }),
    }
}
