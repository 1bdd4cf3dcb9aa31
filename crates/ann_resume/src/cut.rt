// What is left of a list behind the Begin of its last merge.
ghost use Rattle.std.specs.Prelude.{◌≡◌, ◌<◌, vec_len};
ghost use Rattle.ann_types.specs.Index.{Index};
ghost use Rattle.ann_types.specs.Lists.{BasedList};
ghost use Rattle.ann_reopen.specs.Judged.{IsLastMerge};
ghost use Rattle.ann_resume.specs.Cut.{without_merge, StandsIn, IsTailOf};

use ann_reopen::Merge;
use ann_types::{Entry, Pid};

/// Leaves of a list's entries those behind the Begin of its last merge, without that merge's End, and of the Pids that the
/// entries delete those of these entries. The list's base stands at this position. Takes no memory.
pub fn cut_tail(position: u64, merge: &Merge, entries: &mut Vec<Entry>, gone: &mut Vec<Option<Pid>>)
    requires merge { StandsIn position merge.now (vec_len entries.old) }
    requires many { vec_len gone.old ≡ vec_len entries.old }
    ensures { (index : Index) (h : BasedList) → (last : IsLastMerge h merge.now) →
        IsTailOf index position h merge.now last
        entries.old.items gone.old.items entries.new.items gone.new.items }
{
    let begin = (merge.position - position) as usize;
    let end = (merge.end - position) as usize;
    cut_merge(entries, begin, end);
    cut_merge(gone, begin, end);
}

// Takes away all up to a Begin, and an End, which stand at these places.
fn cut_merge<T: Drop>(items: &mut Vec<T>, begin: usize, end: usize)
    requires order { begin < end }
    requires within { end < vec_len items.old }
    ensures { items.new.items ≡ without_merge begin end items.old.items }
{
    let _end = items.remove(end);
    let _front = items.drain(..begin + 1);
}
