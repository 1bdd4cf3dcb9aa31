ghost use Rattle.std.specs.Prelude.{◌≡◌, List, [], ◌∷◌, ◌++◌, OnOk, OnErr};

use ann_types::Change;
use std::alloc::{AllocError, Global};
use std::marker::Model;

/// A list of changes, in order.
#[derive(Debug, Drop)]
pub struct ChangeList {
    changes: Vec<Change>,
}

impl Model for ChangeList {
    ghost use Rattle.std.specs.Prelude.{List};
    ghost use Rattle.ann_types.specs.declared.change.Change.{Change};

    ghost Value = { List Change };

    ghost view = { λ l. l.changes.items };
}

impl ChangeList {
    /// The empty list.
    pub fn new(alloc: Global) -> ChangeList
        ensures { result ≡ [] }
    {
        ChangeList {
            changes: Vec::new(alloc),
        }
    }

    /// Adds a change behind the others.
    ///
    /// The only error is want of memory, and the list is then as before.
    pub fn push(&mut self, change: Change) -> Result<(), AllocError>
        ensures ok { OnOk result (self.new ≡ self.old ++ change ∷ []) }
        ensures err { OnErr result (self.new ≡ self.old) }
    {
        self.changes.push(change)?;
        Ok(())
    }

    /// The changes, in order.
    pub fn items(&self) -> &[Change]
        ensures { result.now ≡ self.now }
    {
        &self.changes
    }
}
