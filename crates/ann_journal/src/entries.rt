// The entries of an update.
ghost use Rattle.std.specs.Prelude.{◌≡◌, map, IfOk};
ghost use Rattle.ann_types.specs.Judge.{entry_of as entry_in};

use ann_types::{Change, Entry, Vector};
use std::alloc::{AllocError, Global};

/// The entry of a change. The only error is want of memory.
fn entry_of(alloc: Global, by: u32, change: &Change) -> Result<Entry, AllocError>
    ensures { IfOk result (λ entry. entry ≡ entry_in by change.now) }
{
    Ok(match change {
        Change::Insert { tag, vector } => Entry::Insert {
            by,
            tag: *tag,
            vector: Vector::copy(alloc, vector.bytes())?,
        },
        Change::Delete { tag } => Entry::Delete { by, tag: *tag },
        Change::Replace { tag, vector } => Entry::Replace {
            by,
            tag: *tag,
            vector: Vector::copy(alloc, vector.bytes())?,
        },
    })
}

/// The entries of a client's changes, in order. The only error is want of memory.
pub(crate) fn entries_of(
    alloc: Global,
    by: u32,
    changes: &[Change],
) -> Result<Vec<Entry>, AllocError>
    ensures { IfOk result (λ entries. entries.items ≡ map (entry_in by) changes.now) }
{
    let mut entries = Vec::with_capacity(alloc, changes.len())?;
    for change in changes {
        entries.push(entry_of(alloc, by, change)?)?;
    }
    Ok(entries)
}
