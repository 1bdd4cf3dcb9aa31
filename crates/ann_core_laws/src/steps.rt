ghost use Rattle.std.specs.Prelude.{◌≡◌, ◌++◌, ◌∷◌, [], OnOk, OnErr};

use crate::Step;
use std::alloc::{AllocError, Global};
use std::marker::Model;

/// What events come to, one step for each, in order. Contracts see the list.
#[derive(Debug, Drop)]
pub struct Steps {
    steps: Vec<Step>,
}

impl Model for Steps {
    ghost use Rattle.std.specs.Prelude.{List};
    ghost use Rattle.ann_core_laws.specs.declared.step.Step.{Step};

    ghost Value = { List Step };

    ghost view = { λ s. s.steps.items };
}

impl Steps {
    /// No steps. It takes no memory.
    pub fn new(alloc: Global) -> Steps
        ensures { result ≡ [] }
    {
        Steps {
            steps: Vec::new(alloc),
        }
    }

    /// Adds a step. The only error is want of memory, and the list is then as it was.
    pub fn push(&mut self, step: Step) -> Result<(), AllocError>
        ensures pushed { OnOk result (self.new ≡ self.old ++ step ∷ []) }
        ensures kept { OnErr result (self.new ≡ self.old) }
    {
        self.steps.push(step)?;
        Ok(())
    }

    /// The steps, in order.
    pub fn items(&self) -> &[Step]
        ensures { result.now ≡ self.now }
    {
        &self.steps
    }
}
