// What readers see.
ghost use Rattle.std.specs.Prelude.{◌≡◌, ◌≤◌, Some, length, slice_get, IfOk};
ghost use Rattle.ann_types.specs.Answer.{answer};
ghost use Rattle.ann_types.specs.Index.{Index};
ghost use Rattle.ann_types.specs.Lists.{BasedList};
ghost use Rattle.ann_vault.specs.Seal.{seal_bytes};
ghost use Rattle.ann_view.specs.Holding.{HoldsGraph};
ghost use Rattle.ann_view.specs.Stands.{StandsFor, lti_of};
ghost use Rattle.ann_view.specs.View.{index_of};
ghost use Rattle.ann_core_laws.specs.State.{CoreState};
ghost use Rattle.ann_core_laws.specs.Events.{enter as enter_step, leave as leave_step, pin_of, reply as reply_step};
ghost use Rattle.ann_core_laws.specs.Facts.{IsPin};
ghost use Rattle.ann_core_laws.specs.declared.step.Step.TheVariants.{Done, NotAllowed};
ghost use Rattle.ann_core.specs.Core.{IsCoreOf, ComesTo, seen, show_step};

use crate::prefix::open_list;
use crate::state::State;
use ann_beam::Desk;
use ann_core_laws::{Hits, Step};
use ann_types::{Ask, Params};
use ann_vault::{MemoryEye, MemorySeal};
use ann_view::View;
use std::alloc::{AllocError, Global};

/// The answer of a view. The only error is want of memory: the eye is in memory, and fails for that alone.
fn answer_of(
    alloc: Global,
    params: &Params,
    view: &View<MemorySeal>,
    ask: &Ask,
) -> Result<Hits, AllocError>
    ensures { (h : BasedList) → StandsFor view.now h → HoldsGraph seal_bytes view.now (lti_of view.now h) →
        IfOk result (λ hits. hits ≡ answer (index_of view.now) h ask.now) }
{
    let mut desk = Desk::new(alloc, params)?;
    let mut eye = MemoryEye::new(alloc, &[])?;
    match view.search(&mut desk, &mut eye, ask) {
        Ok(_found) => Ok(Hits::from_vec(desk.hits().to_vec(alloc)?)),
        Err(_why) => Err(AllocError),
    }
}

impl State {
    /// All that is logged is shown.
    pub(crate) fn show(&mut self) -> Step
        ensures comes { (index : Index) (c : CoreState) → IsCoreOf index (seen self.old) c →
            ComesTo index (show_step c) (seen self.new) result }
        ensures done { result ≡ Done }
    {
        self.shown = self.list.len();
        Step::Done
    }

    /// What a reader has pinned, or none; nothing is found of a number that is no reader's.
    fn pin_of(&self, reader: usize) -> Option<Option<usize>>
        ensures { result ≡ slice_get self.now.pins.items reader }
    {
        self.pins.get(reader).copied()
    }

    /// A reader that isn't in comes in.
    pub(crate) fn enter(&mut self, reader: usize) -> Step
        ensures comes { (index : Index) (c : CoreState) → IsCoreOf index (seen self.old) c →
            ComesTo index (enter_step c reader (pin_of c reader)) (seen self.new) result }
        ensures kept { result ≡ NotAllowed → seen self.new ≡ seen self.old }
    {
        match self.pin_of(reader) {
            Some(None) => {
                self.pins[reader] = Some(self.shown);
                Step::Done
            }
            Some(Some(_)) => Step::NotAllowed,
            None => Step::NotAllowed,
        }
    }

    /// A reader that is in goes.
    pub(crate) fn leave(&mut self, reader: usize) -> Step
        ensures comes { (index : Index) (c : CoreState) → IsCoreOf index (seen self.old) c →
            ComesTo index (leave_step c reader (pin_of c reader)) (seen self.new) result }
        ensures kept { result ≡ NotAllowed → seen self.new ≡ seen self.old }
    {
        match self.pin_of(reader) {
            Some(Some(_)) => {
                self.pins[reader] = None;
                Step::Done
            }
            Some(None) => Step::NotAllowed,
            None => Step::NotAllowed,
        }
    }

    /// The answer of what a reader that is in has pinned, where the lengths agree.
    pub(crate) fn reply(&self, reader: usize, ask: &Ask) -> Result<Step, AllocError>
        requires { (index : Index) × (c : CoreState) × IsCoreOf index (seen self.now) c }
        ensures { (index : Index) (c : CoreState) → IsCoreOf index (seen self.now) c →
            IfOk result (λ step. step ≡ (reply_step index c ask.now (pin_of c reader)).1) }
    {
        match self.pin_of(reader) {
            Some(Some(pin)) => self.reply_at(pin, ask),
            Some(None) => Ok(Step::NotAllowed),
            None => Ok(Step::NotAllowed),
        }
    }

    /// The answer of a prefix, where the lengths agree.
    fn reply_at(&self, pin: usize, ask: &Ask) -> Result<Step, AllocError>
        requires core { (index : Index) × (c : CoreState) × IsCoreOf index (seen self.now) c }
        requires pin { pin ≤ length self.now.list.items }
        ensures { (index : Index) (c : CoreState) → IsCoreOf index (seen self.now) c →
            IsPin index c (Some pin) →
            IfOk result (λ step. step ≡ (reply_step index c ask.now (Some (Some pin))).1) }
    {
        if ask.vector.bytes().len() != usize::from(self.params.d) {
            return Ok(Step::NotAllowed);
        }
        let prefix = &self.list[..pin];
        let opened = open_list(self.alloc, &self.params, &self.book, &self.kept, prefix)?;
        let hits = answer_of(self.alloc, &self.params, &opened.view, ask)?;
        Ok(Step::Answered {
            at: pin as u64,
            hits,
        })
    }
}
