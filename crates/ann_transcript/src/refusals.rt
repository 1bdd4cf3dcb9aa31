ghost use Rattle.std.specs.Prelude.{◌≡◌, ◌++◌, OnOk, string_bytes};
ghost use Rattle.ann_transcript.specs.Transcript.{change_text, update_text, search_text, merge_text};

use crate::reply::{MergeWord, SearchWord, UpdateWord};
use std::alloc::AllocError;
use std::fmt::Write;

/// Writes which change of a batch is refused, counted from 1.
fn write_change(text: &mut String, batch: bool, index: u32) -> Result<(), AllocError>
    ensures { OnOk result (string_bytes text.new ≡ string_bytes text.old ++ change_text batch index) }
{
    let place = u64::from(index) + 1;
    if batch {
        write!(text, "change {place} ")?;
    }
    Ok(())
}

/// Writes why an update was refused.
pub fn write_update(text: &mut String, refused: UpdateWord, batch: bool) -> Result<(), AllocError>
    ensures { OnOk result (string_bytes text.new ≡ string_bytes text.old ++ update_text refused batch) }
{
    match refused {
        UpdateWord::Dimension {
            index,
            got,
            want,
            at,
        } => {
            write_change(text, batch, index)?;
            write!(text, "dimension {got} of {want} at {at}")
        }
        UpdateWord::Full { index, at } => {
            write_change(text, batch, index)?;
            write!(text, "full at {at}")
        }
        UpdateWord::Present { index, tag, at } => {
            write_change(text, batch, index)?;
            write!(text, "present {tag} at {at}")
        }
        UpdateWord::Absent { index, tag, at } => {
            write_change(text, batch, index)?;
            write!(text, "absent {tag} at {at}")
        }
        UpdateWord::LogFault => write!(text, "log fault"),
        UpdateWord::Stopped { at } => write!(text, "stopped at {at}"),
        UpdateWord::Memory => write!(text, "memory"),
        UpdateWord::MemoryLogged { at } => write!(text, "memory, logged at {at}"),
    }
}

/// Writes why a search was refused.
pub fn write_search(text: &mut String, refused: SearchWord) -> Result<(), AllocError>
    ensures { OnOk result (string_bytes text.new ≡ string_bytes text.old ++ search_text refused) }
{
    match refused {
        SearchWord::Dimension { got, want } => write!(text, "dimension {got} of {want}"),
        SearchWord::Disk => write!(text, "disk"),
        SearchWord::BadSegment { block } => write!(text, "bad segment {block}"),
        SearchWord::Shut => write!(text, "shut"),
    }
}

/// Writes what came of a merge.
pub fn write_merge(text: &mut String, word: MergeWord) -> Result<(), AllocError>
    ensures { OnOk result (string_bytes text.new ≡ string_bytes text.old ++ merge_text word) }
{
    match word {
        MergeWord::Merged { segment, at } => write!(text, "merged {segment} at {at}"),
        MergeWord::Nothing { at } => write!(text, "nothing at {at}"),
        MergeWord::Running { at, since } => write!(text, "running at {at} since {since}"),
        MergeWord::Shut => write!(text, "shut"),
        MergeWord::Disk => write!(text, "disk"),
        MergeWord::BadSegment { block } => write!(text, "bad segment {block}"),
        MergeWord::LogFault => write!(text, "log fault"),
        MergeWord::Stopped { at } => write!(text, "stopped at {at}"),
        MergeWord::Memory => write!(text, "memory"),
        MergeWord::MemoryLogged { at } => write!(text, "memory, logged at {at}"),
    }
}
