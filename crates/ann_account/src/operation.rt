// The operation of an entry.
ghost use Rattle.ann_resume.specs.Applied.{CanMake, IsMadeOf};

use ann_types::{Entry, Pid};
use ann_vault::Sealed;
use ann_view::Op;

/// The operation of an entry that is no End, with the Pid that the entry deletes, if it deletes one. Takes no memory.
pub(crate) fn operation<S: Sealed>(entry: Entry, gone: Option<Pid>) -> Op<S>
    requires { CanMake entry gone }
    ensures { IsMadeOf entry gone result }
{
    match (entry, gone) {
        (Entry::Insert { tag, vector, .. }, _) => Op::Insert { tag, vector },
        (Entry::Delete { .. }, Some(pid)) => Op::Delete { pid },
        (Entry::Replace { tag, vector, .. }, Some(gone)) => Op::Replace { tag, gone, vector },
        (Entry::Begin { .. }, _) => Op::Begin,
        // A Delete and a Replace take a Pid away, and an End isn't noted so.
        (Entry::Delete { .. }, None) => unreachable!(),
        (Entry::Replace { .. }, None) => unreachable!(),
        (Entry::End { .. }, _) => unreachable!(),
    }
}
