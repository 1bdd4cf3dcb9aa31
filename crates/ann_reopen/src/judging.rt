// Judging a list of entries.
ghost use Rattle.std.specs.Prelude.{◌<◌, ◌+◌, ◌^◌, length};
ghost use Rattle.ann_types.specs.Index.{Index};
ghost use Rattle.ann_types.specs.Lists.{BasedList};
ghost use Rattle.ann_reopen.specs.Judged.{IsListOn, IsVerdict};

use crate::basis::Basis;
use crate::judged::{JudgeRefused, Judged};
use crate::reading::Reading;
use ann_types::{Entry, Params};
use std::alloc::Global;

/// Judges the entries of a list, and gives what reopening needs of it.
///
/// # Errors
///
/// `BadLog` with the position of the first entry that may not stand where it does: the list up to it is legal, and with it
/// it isn't. Or want of memory.
pub fn judge(
    alloc: Global,
    params: &Params,
    basis: Basis,
    entries: &[Entry],
) -> Result<Judged, JudgeRefused>
    requires { basis.position + length entries.now < 2 ^ 63 }
    ensures { (index : Index) (h : BasedList) → IsListOn index params.now basis entries.now h →
        IsVerdict index h result }
{
    let mut reading = Reading::new(alloc, params, basis);
    for entry in entries {
        if !reading.may_come(entry) {
            return Err(JudgeRefused::BadLog {
                entry: reading.position,
            });
        }
        reading.take(entry)?;
    }
    Ok(reading.into_judged())
}
