ghost use Rattle.std.specs.Prelude.{◌≤◌, ◌<◌, ◌*◌, Some, length, IfOk, IfErr};
ghost use Rattle.ann_mcause.specs.Eyes.{AreCause, EyeCauses, EyeGoes, HaveGone};
ghost use Rattle.ann_mlaws.specs.Rows.{AreOldLists};
ghost use Rattle.ann_mpatch.specs.Source.{source_in};
ghost use Rattle.ann_mphases.specs.Read.{IsReadPiece};

use crate::joining::join;
use ann_crew::{NoGate, Stretch, Task, run};
use ann_mdelete::{Lists, Loaded, WorkRefused, load_piece};
use ann_mplan::add_lists;
use ann_segment::Segment;
use ann_types::Params;
use ann_vault::{Eye, Sealed};
use std::alloc::Global;
use std::thread::Threads;

/// The lists of the piece of a number, by one read.
fn read_piece<S: Sealed, E: Eye<Seal = S>>(
    alloc: Global,
    segment: &Segment<S>,
    params: &Params,
    number: u32,
    eye: &mut E,
) -> Result<Lists, WorkRefused>
    requires { 256 * number < length segment.now.items }
    ensures read { IfOk result (IsReadPiece S.tells S.bytes segment.now params.now number) }
    ensures eye { EyeGoes E.reads E.faults eye.old eye.new }
    ensures refused { IfErr result (EyeCauses E.reads E.faults S.tells (source_in S.bytes segment.now)
        params.now eye.old eye.new) }
{
    let _rows = segment.count();
    let mut piece = Loaded::new(alloc)?;
    load_piece(segment, eye, params, 256 * number, &mut piece)?;
    let mut lists = Lists::new(alloc);
    add_lists(&piece, &mut lists)?;
    Ok(lists)
}

/// The lists of a segment, piece by piece, each by the eye of a worker.
#[derive(Drop)]
struct Reading<'a, S: Sealed> {
    alloc: Global,
    segment: &'a Segment<S>,
    params: &'a Params,
}

impl<'a, S: Sealed, E: Eye<Seal = S>> Task<E> for Reading<'a, S> {
    type Piece = Lists;

    ghost use Rattle.std.specs.Prelude.{length};
    ghost use Rattle.ann_mcause.specs.Eyes.{EyeCauses, EyeGoes};
    ghost use Rattle.ann_mcause.proofs.Watched.{eye_caused, eye_goes_on, eye_stays};
    ghost use Rattle.ann_mplan.specs.Old.{pieces_of};
    ghost use Rattle.ann_mpatch.specs.Source.{source_in};
    ghost use Rattle.ann_mphases.specs.Read.{IsReadPiece};

    ghost count = { λ t. pieces_of (length t.segment.now.items) };

    ghost is_piece = { λ t number lists. IsReadPiece S.tells S.bytes t.segment.now t.params.now number lists };

    ghost goes = { λ t old new. EyeGoes E.reads E.faults old new };

    ghost causes = { λ t old new why. EyeCauses E.reads E.faults S.tells (source_in S.bytes t.segment.now) t.params.now old new why };

    fn work(&self, worker: &mut E, number: u32) -> Result<Lists, WorkRefused> {
        read_piece(self.alloc, self.segment, self.params, number, worker)
    }

    ghost stays = { λ t u. eye_stays E.reads E.faults u };

    ghost goes_on = { λ t u v w. eye_goes_on E.reads E.faults u v w };

    ghost caused = { λ t u v w why. eye_caused E.reads E.faults S.tells (source_in S.bytes t.segment.now) t.params.now u v w why };

    ghost memory = { λ t u v gone. tt };
}

/// The lists of all rows of a segment, each piece read once: what the Delete phase begins with.
///
/// # Errors
///
/// `Disk` where a read failed, `BadSegment` where a block that was read is outside the format, and `Memory`.
pub(crate) fn read_all<R: Threads + Sync, S: Sealed + Send + Sync, E: Eye<Seal = S> + Send>(
    rt: &R,
    alloc: Global,
    segment: &Segment<S>,
    params: &Params,
    eyes: &mut Vec<E>,
) -> Result<Lists, WorkRefused>
    requires some { 0 < length eyes.old.items }
    requires few { length eyes.old.items ≤ 16 }
    ensures eyes { HaveGone E.reads E.faults eyes.old.items eyes.new.items }
    ensures read { IfOk result (AreOldLists S.tells S.bytes params.now (Some segment.now)) }
    ensures refused { IfErr result (AreCause E.reads E.faults S.tells (source_in S.bytes segment.now)
        params.now eyes.old.items eyes.new.items) }
{
    let task = Reading {
        alloc,
        segment,
        params,
    };
    let stretch = Stretch {
        phase: 1,
        first: 0,
        count: segment.count().div_ceil(256),
    };
    let pieces = run(rt, alloc, &NoGate, &task, stretch, eyes)?;
    Ok(join(alloc, &pieces)?)
}
