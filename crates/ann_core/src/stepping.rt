// One event.
ghost use Rattle.std.specs.Prelude.{◌≡◌, IfOk, OnErr};
ghost use Rattle.ann_types.specs.Index.{Index};
ghost use Rattle.ann_core_laws.specs.State.{CoreState};
ghost use Rattle.ann_core_laws.specs.Events.{core_step};
ghost use Rattle.ann_core_laws.specs.declared.step.Step.TheVariants.{NotAllowed};
ghost use Rattle.ann_core.specs.Core.{IsCoreOf, ComesTo, seen};

use crate::state::State;
use ann_core_laws::{Event, Step};
use std::alloc::AllocError;
use std::thread::Threads;

impl State {
    /// One event.
    pub(crate) fn step<R: Threads + Sync>(
        &mut self,
        rt: &R,
        event: &Event,
    ) -> Result<Step, AllocError>
        requires { (index : Index) × (c : CoreState) × IsCoreOf index (seen self.old) c }
        ensures comes { (index : Index) (c : CoreState) → IsCoreOf index (seen self.old) c →
            IfOk result (ComesTo index (core_step index c event.now) (seen self.new)) }
        ensures kept { IfOk result (λ step. step ≡ NotAllowed → seen self.new ≡ seen self.old) }
        ensures refused { OnErr result (seen self.new ≡ seen self.old) }
    {
        match event {
            Event::Frame { entries } => self.frame(entries.items()),
            Event::Show => Ok(self.show()),
            Event::Enter { reader } => Ok(self.enter(*reader as usize)),
            Event::Reply { reader, ask } => self.reply(*reader as usize, ask),
            Event::Leave { reader } => Ok(self.leave(*reader as usize)),
            Event::Piece { number } => self.piece(rt, *number),
            Event::Seal => self.seal(rt),
            Event::Switch { by } => self.switch(*by),
            Event::Remove { number } => self.remove(*number),
        }
    }
}
