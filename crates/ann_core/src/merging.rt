// The open merge: its pieces, its segment and its End.
ghost use Rattle.std.specs.Prelude.{◌≡◌, ◌<◌, ◌+◌, ◌/◌, ◌^◌, length, IfOk, OnErr};
ghost use Rattle.ann_types.specs.Index.{Index};
ghost use Rattle.ann_core_laws.specs.State.{CoreState, open_begin};
ghost use Rattle.ann_core_laws.specs.Events.{piece as piece_step, seal as seal_step, switch as switch_step};
ghost use Rattle.ann_core_laws.specs.declared.step.Step.TheVariants.{NotAllowed};
ghost use Rattle.ann_core.specs.Core.{IsCoreOf, ComesTo, seen};
ghost use Rattle.ann_core.specs.Made.{are_finished, is_finished_in};

use crate::kept::Kept;
use crate::state::State;
use ann_core_laws::Step;
use ann_segment::Segment;
use ann_types::Entry;
use ann_vault::MemorySeal;
use std::alloc::AllocError;
use std::thread::Threads;

/// How many pieces a segment has: one for each 256 rows, the last one fewer.
fn pieces_of(segment: &Segment<MemorySeal>) -> u64
    ensures count { result ≡ (length segment.now.items + 255) / 256 }
    ensures small { length segment.now.items < 2 ^ 32 }
{
    u64::from(segment.count().div_ceil(256))
}

/// Whether a piece is finished.
fn is_finished(pieces: &[u64], number: u64) -> bool
    ensures { result ≡ is_finished_in pieces.now number }
{
    for piece in pieces {
        if *piece == number {
            return true;
        }
    }
    false
}

/// Whether so many pieces are finished.
fn all_finished(pieces: &[u64], count: u64) -> bool
    ensures { result ≡ are_finished pieces.now count }
{
    for number in 0..count {
        if !is_finished(pieces, number) {
            return false;
        }
    }
    true
}

impl State {
    /// A piece of the open merge that isn't finished is finished.
    pub(crate) fn piece<R: Threads + Sync>(
        &mut self,
        rt: &R,
        number: u64,
    ) -> Result<Step, AllocError>
        requires { (index : Index) × (c : CoreState) × IsCoreOf index (seen self.old) c }
        ensures comes { (index : Index) (c : CoreState) → IsCoreOf index (seen self.old) c →
            IfOk result (ComesTo index (piece_step index c number (open_begin index c)) (seen self.new)) }
        ensures kept { IfOk result (λ step. step ≡ NotAllowed → seen self.new ≡ seen self.old) }
        ensures refused { OnErr result (seen self.new ≡ seen self.old) }
    {
        let Some(segment) = self.merged(rt)? else {
            return Ok(Step::NotAllowed);
        };
        if number >= pieces_of(&segment) {
            return Ok(Step::NotAllowed);
        }
        if is_finished(&self.pieces, number) {
            return Ok(Step::NotAllowed);
        }
        self.pieces.push(number)?;
        Ok(Step::Done)
    }

    /// The segment of the open merge is kept, where all its pieces are finished and it isn't sealed.
    pub(crate) fn seal<R: Threads + Sync>(&mut self, rt: &R) -> Result<Step, AllocError>
        requires { (index : Index) × (c : CoreState) × IsCoreOf index (seen self.old) c }
        ensures comes { (index : Index) (c : CoreState) → IsCoreOf index (seen self.old) c →
            IfOk result (ComesTo index (seal_step index c (open_begin index c)) (seen self.new)) }
        ensures kept { IfOk result (λ step. step ≡ NotAllowed → seen self.new ≡ seen self.old) }
        ensures refused { OnErr result (seen self.new ≡ seen self.old) }
    {
        let Some(segment) = self.merged(rt)? else {
            return Ok(Step::NotAllowed);
        };
        if self.sealed {
            return Ok(Step::NotAllowed);
        }
        if !all_finished(&self.pieces, pieces_of(&segment)) {
            return Ok(Step::NotAllowed);
        }
        self.known();
        let bytes = segment.seal().bytes().to_vec(self.alloc)?;
        self.kept.push(Kept {
            number: segment.number(),
            bytes,
        })?;
        self.sealed = true;
        Ok(Step::Done)
    }

    /// The open merge ends, where it is sealed.
    pub(crate) fn switch(&mut self, by: u32) -> Result<Step, AllocError>
        requires { (index : Index) × (c : CoreState) × IsCoreOf index (seen self.old) c }
        ensures comes { (index : Index) (c : CoreState) → IsCoreOf index (seen self.old) c →
            IfOk result (ComesTo index (switch_step c by (open_begin index c)) (seen self.new)) }
        ensures kept { IfOk result (λ step. step ≡ NotAllowed → seen self.new ≡ seen self.old) }
        ensures refused { OnErr result (seen self.new ≡ seen self.old) }
    {
        let Some(position) = self.begun()? else {
            return Ok(Step::NotAllowed);
        };
        if !self.sealed {
            return Ok(Step::NotAllowed);
        }
        let segment = 2 * position + 1;
        self.list.push(Entry::End { by, segment })?;
        self.sealed = false;
        Ok(Step::Done)
    }
}
