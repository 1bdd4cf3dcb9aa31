ghost use Rattle.std.specs.Prelude.{◌≡◌, None, replicate, IfOk, OnErr};
ghost use Rattle.ann_types.specs.Index.{Index};
ghost use Rattle.ann_pq.specs.Format.{codebook, fault};
ghost use Rattle.ann_state.specs.State.{index_with};
ghost use Rattle.ann_core_laws.specs.State.{CoreState, first_state, readers};
ghost use Rattle.ann_core_laws.specs.Events.{core_step};
ghost use Rattle.ann_core_laws.specs.declared.event.Event.{Event};
ghost use Rattle.ann_core_laws.specs.declared.step.Step.TheVariants.{NotAllowed};
ghost use Rattle.ann_core.specs.Core.{IsCoreOf, ComesTo, HasRun, HasStopped};

use crate::state::State;
use ann_core_laws::{Event, Step, Steps};
use ann_pq::Codebook;
use ann_types::Params;
use std::alloc::{AllocError, Global};
use std::marker::Model;
use std::sync::Arc;
use std::thread::Threads;

/// How many readers there may be.
const READERS: usize = 32;

/// No reader has pinned anything. The only error is want of memory.
fn no_pins(alloc: Global) -> Result<Vec<Option<usize>>, AllocError>
    ensures { IfOk result (λ pins. pins.items ≡ replicate readers None) }
{
    let mut pins = Vec::new(alloc);
    for _ in 0..READERS {
        pins.push(None)?;
    }
    Ok(pins)
}

/// The core: the table of events as code.
#[derive(Drop)]
pub struct Core {
    state: State,
}

impl Model for Core {
    ghost use Rattle.ann_types.specs.Index.{Index};
    ghost use Rattle.ann_core_laws.specs.State.{CoreState};
    ghost use Rattle.ann_core.specs.Core.{CoreView, IsCoreOf, seen};

    ghost Value = { CoreView };

    ghost view = { λ core. seen core.state };

    ghost invariant = { λ core. (index : Index) × (c : CoreState) × IsCoreOf index (seen core.state) c };
}

impl Core {
    /// The core without entries, readers and segments. The bytes are a codebook's for these parameters. The only error is want
    /// of memory.
    pub fn new(alloc: Global, params: &Params, book: &[u8]) -> Result<Core, AllocError>
        requires book { fault params.now.d params.now.m book.now ≡ None }
        // It is in the first state, as a core of this index.
        ensures first { IfOk result (λ core. IsCoreOf (index_with params.now
            (codebook params.now.d params.now.m book.now).book) core first_state) }
    {
        let Ok(book) = Codebook::read(alloc, book, params.d, params.m) else {
            return Err(AllocError);
        };
        let pins = no_pins(alloc)?;
        Ok(Core {
            state: State {
                alloc,
                params: *params,
                book: Arc::new(alloc, book)?,
                list: Vec::new(alloc),
                shown: 0,
                pins,
                pieces: Vec::new(alloc),
                sealed: false,
                kept: Vec::new(alloc),
            },
        })
    }

    /// One event. A merge that it makes is worked by one thread. The only error is want of memory.
    pub fn step<R: Threads + Sync>(&mut self, rt: &R, event: &Event) -> Result<Step, AllocError>
        // The step and the state behind it are the definition's, for whatever state the core is in.
        ensures comes { (index : Index) (c : CoreState) → IsCoreOf index self.old c →
            IfOk result (ComesTo index (core_step index c event.now) self.new) }
        // An event that isn't allowed leaves all as it was, and so does want of memory.
        ensures kept { IfOk result (λ step. step ≡ NotAllowed → self.new ≡ self.old) }
        ensures refused { OnErr result (self.new ≡ self.old) }
    {
        self.state.step(rt, event)
    }

    /// Events, one after the other: what each of them comes to. The only error is want of memory.
    pub fn run<R: Threads + Sync>(
        &mut self,
        rt: &R,
        alloc: Global,
        events: &[Event],
    ) -> Result<Steps, AllocError>
        // The steps are the definition's, from whatever state on the core is in.
        ensures run { (index : Index) (c : CoreState) → IsCoreOf index self.old c →
            IfOk result (HasRun index c events.now self.new) }
        // Want of memory leaves the state of some first ones of the events.
        ensures stopped { (index : Index) (c : CoreState) → IsCoreOf index self.old c →
            OnErr result (HasStopped index c events.now self.new) }
    {
        let mut steps = Steps::new(alloc);
        for event in events {
            steps.push(self.step(rt, event)?)?;
        }
        Ok(steps)
    }
}
