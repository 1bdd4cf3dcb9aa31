// Showing what waits.
ghost use Rattle.std.specs.Prelude.{◌≡◌, ◌<◌, [], Bool, length, OnOk};
ghost use Rattle.ann_types.specs.Lists.{BasedList};
ghost use Rattle.ann_showing.specs.Showing.{Follows, HasShown};

use ann_disk::LogFile;
use ann_journal::Journal;
use ann_vault::Sealed;
use ann_view::View;
use std::alloc::AllocError;

/// Shows all that waits, in order.
///
/// The only error is want of memory. What was shown before it stays shown, and the rest waits.
pub fn show_all<F: LogFile, S: Sealed>(
    journal: &mut Journal<F, S>,
    view: &mut View<S>,
) -> Result<(), AllocError>
    requires { (sound : Bool) × (h : BasedList) × (shown : BasedList)
        × Follows F.LogFile S.bytes sound h shown journal.old view.old }
    ensures some { HasShown journal.old journal.new }
    ensures follows { (sound : Bool) (h shown : BasedList)
        → Follows F.LogFile S.bytes sound h shown journal.old view.old
        → (later : BasedList) × Follows F.LogFile S.bytes sound h later journal.new view.new }
    // Where none waits any more, the view shows the journal's list.
    ensures shown { OnOk result (journal.new.account.waiting ≡ []) }
{
    while journal.unshown().is_some() {
        show_first(journal, view)?;
    }
    Ok(())
}

/// Shows the first operation that waits. It is there.
///
/// The only error is want of memory, and all is then as before.
fn show_first<F: LogFile, S: Sealed>(
    journal: &mut Journal<F, S>,
    view: &mut View<S>,
) -> Result<(), AllocError>
    requires some { 0 < length journal.old.account.waiting }
    requires follows { (sound : Bool) × (h : BasedList) × (shown : BasedList)
        × Follows F.LogFile S.bytes sound h shown journal.old view.old }
    ensures some { HasShown journal.old journal.new }
    ensures less { OnOk result (length journal.new.account.waiting < length journal.old.account.waiting) }
    ensures follows { (sound : Bool) (h shown : BasedList)
        → Follows F.LogFile S.bytes sound h shown journal.old view.old
        → (later : BasedList) × Follows F.LogFile S.bytes sound h later journal.new view.new }
{
    let _bound = journal.log().count();
    let Some(op) = journal.unshown() else {
        unreachable!()
    };
    view.apply(op)?;
    journal.showed();
    Ok(())
}
