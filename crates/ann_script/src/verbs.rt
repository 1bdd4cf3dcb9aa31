ghost use Rattle.std.specs.Prelude.{◌≡◌};
ghost use Rattle.ann_script.specs.Grammar.{has_updates, has_merges, has};
ghost use Rattle.ann_script.specs.Order.{order_of};

use crate::command::Command;

/// Whose verbs a script has.
#[derive(Clone, Copy, Debug, PartialEq, Eq)]
pub enum Verbs {
    /// Those of the command `once`: updates and searches.
    Once,
    /// Those of the command `run`: all.
    All,
    /// That of the command `truth`: `search` alone.
    Truth,
}

/// What a script may have: whose verbs, and how many clients.
#[derive(Clone, Copy, Debug)]
pub struct Rules {
    pub verbs: Verbs,
    pub clients: u32,
}

impl Verbs {
    /// Whether updates are among these verbs.
    fn has_updates(self) -> bool
        ensures { result ≡ has_updates self }
    {
        match self {
            Verbs::Once => true,
            Verbs::All => true,
            Verbs::Truth => false,
        }
    }

    /// Whether merges and fills are among these verbs.
    fn has_merges(self) -> bool
        ensures { result ≡ has_merges self }
    {
        match self {
            Verbs::Once => false,
            Verbs::All => true,
            Verbs::Truth => false,
        }
    }

    /// Whether a command has one of these verbs.
    pub(crate) fn has(self, command: &Command) -> bool
        ensures { result ≡ has self (order_of command.now) }
    {
        match command {
            Command::Update { .. } => self.has_updates(),
            Command::Search { .. } => true,
            Command::Merge => self.has_merges(),
            Command::Fill { .. } => self.has_merges(),
        }
    }
}
