// A frame of the log.
ghost use Rattle.std.specs.Prelude.{◌≡◌, IfOk, OnErr};
ghost use Rattle.ann_types.specs.Index.{Index};
ghost use Rattle.ann_core_laws.specs.State.{CoreState};
ghost use Rattle.ann_core_laws.specs.Events.{frame as frame_step};
ghost use Rattle.ann_core_laws.specs.declared.step.Step.TheVariants.{NotAllowed};
ghost use Rattle.ann_core.specs.Core.{IsCoreOf, ComesTo, seen, with_list};

use crate::ends::{has_begin, has_end};
use crate::prefix::{copy_all, judge_list};
use crate::state::State;
use ann_core_laws::Step;
use ann_reopen::JudgeRefused;
use ann_types::Entry;
use std::alloc::AllocError;

/// A frame has no more entries.
const FRAME_END: usize = 64;

impl State {
    /// Appends a frame, where the list with it is legal and it has no End.
    pub(crate) fn frame(&mut self, entries: &[Entry]) -> Result<Step, AllocError>
        ensures comes { (index : Index) (c : CoreState) → IsCoreOf index (seen self.old) c →
            IfOk result (ComesTo index (frame_step index c entries.now) (seen self.new)) }
        ensures kept { IfOk result (λ step. step ≡ NotAllowed → seen self.new ≡ seen self.old) }
        ensures refused { OnErr result (seen self.new ≡ seen self.old) }
    {
        if entries.is_empty() || entries.len() > FRAME_END || has_end(entries) {
            return Ok(Step::NotAllowed);
        }
        let mut list = Vec::new(self.alloc);
        copy_all(self.alloc, &self.list, &mut list)?;
        copy_all(self.alloc, entries, &mut list)?;
        match judge_list(self.alloc, &self.params, &list) {
            Ok(_judged) => {
                self.append(list, has_begin(entries));
                Ok(Step::Done)
            }
            Err(JudgeRefused::BadLog { .. }) => Ok(Step::NotAllowed),
            Err(JudgeRefused::Memory) => Err(AllocError),
        }
    }

    /// Takes a longer list. A Begin among its new entries begins with no finished piece.
    fn append(&mut self, list: Vec<Entry>, begins: bool)
        ensures { seen self.new ≡ with_list (seen self.old) list.items begins }
    {
        self.list = list;
        if begins {
            self.pieces.clear();
        }
    }
}
