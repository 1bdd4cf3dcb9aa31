// A segment that nobody may read any more.
ghost use Rattle.std.specs.Prelude.{◌≡◌, ◌≤◌, ◌<◌, ◌^◌, flat_map, length, All, IfOk, MatchOption, OnErr};
ghost use Rattle.std.specs.Option.{option_map};
ghost use Rattle.ann_types.specs.Fold.{Begun};
ghost use Rattle.ann_types.specs.Index.{Index};
ghost use Rattle.ann_types.specs.Order.{has};
ghost use Rattle.ann_core_laws.specs.State.{CoreState, in_use, last_end, of_end, of_pin, open_begin};
ghost use Rattle.ann_core_laws.specs.Events.{remove as remove_step};
ghost use Rattle.ann_core_laws.specs.declared.step.Step.TheVariants.{NotAllowed};
ghost use Rattle.ann_core.specs.Core.{IsCoreOf, ComesTo, seen};

use crate::ends::last_end_of;
use crate::kept::{is_kept, take_away};
use crate::prefix::judge_list;
use crate::state::State;
use ann_core_laws::Step;
use ann_types::Entry;
use std::alloc::AllocError;

/// The last End of some entries names a segment.
fn names(entries: &[Entry], number: u64) -> bool
    ensures { result ≡ has (of_end (last_end entries.now)) number }
{
    last_end_of(entries) == Some(number)
}

/// What a reader has pinned names a segment.
fn pin_names(list: &[Entry], pin: Option<usize>, number: u64) -> bool
    requires { MatchOption pin (Unit {0}) (λ end. end ≤ length list.now) }
    ensures { result ≡ has (of_pin list.now pin) number }
{
    match pin {
        Some(end) => names(&list[..end], number),
        None => false,
    }
}

/// The last End of a pinned prefix names a segment.
fn is_pinned(list: &[Entry], pins: &[Option<usize>], number: u64) -> bool
    requires { All (λ pin. MatchOption pin (Unit {0}) (λ end. end ≤ length list.now)) pins.now }
    ensures { result ≡ has (flat_map (of_pin list.now) pins.now) number }
{
    for pin in pins {
        if pin_names(list, *pin, number) {
            return true;
        }
    }
    false
}

impl State {
    /// The position of the open Begin, if there is one. The only error is want of memory: the list is legal.
    pub(crate) fn begun(&self) -> Result<Option<u64>, AllocError>
        ensures begun { (index : Index) (c : CoreState) → IsCoreOf index (seen self.now) c →
            IfOk result (λ begun. begun ≡ option_map (λ (b : Begun). b.position) (open_begin index c)) }
        ensures small { IfOk result (λ begun. MatchOption begun (Unit {0}) (λ position. position < 2 ^ 63)) }
    {
        match judge_list(self.alloc, &self.params, &self.list) {
            Ok(judged) => Ok(judged.begun),
            Err(_why) => Err(AllocError),
        }
    }

    /// Whether a segment may not be removed: the open Begin's, and the last End's of the list, of what is shown and of what
    /// each reader has pinned.
    fn is_used(&self, number: u64) -> Result<bool, AllocError>
        requires { (index : Index) × (c : CoreState) × IsCoreOf index (seen self.now) c }
        ensures { (index : Index) (c : CoreState) → IsCoreOf index (seen self.now) c →
            IfOk result (λ used. used ≡ has (in_use index c) number) }
    {
        let opening = match self.begun()? {
            Some(position) => number == 2 * position + 1,
            None => false,
        };
        Ok(
            opening
                || names(&self.list, number)
                || names(&self.list[..self.shown], number)
                || is_pinned(&self.list, &self.pins, number),
        )
    }

    /// A kept segment that isn't used is no more kept.
    pub(crate) fn remove(&mut self, number: u64) -> Result<Step, AllocError>
        requires { (index : Index) × (c : CoreState) × IsCoreOf index (seen self.old) c }
        ensures comes { (index : Index) (c : CoreState) → IsCoreOf index (seen self.old) c →
            IfOk result (ComesTo index (remove_step index c number) (seen self.new)) }
        ensures kept { IfOk result (λ step. step ≡ NotAllowed → seen self.new ≡ seen self.old) }
        ensures refused { OnErr result (seen self.new ≡ seen self.old) }
    {
        if !is_kept(&self.kept, number) {
            return Ok(Step::NotAllowed);
        }
        if self.is_used(number)? {
            return Ok(Step::NotAllowed);
        }
        take_away(&mut self.kept, number);
        Ok(Step::Done)
    }
}
