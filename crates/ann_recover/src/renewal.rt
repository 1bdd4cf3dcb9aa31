// Writing the log of an index anew when it is opened again.
ghost use Rattle.std.specs.Prelude.{◌≡◌, ◌<◌, ◌+◌, ◌*◌, ◌^◌, true, false, OnOk, OnErr, MatchOption};
ghost use Rattle.ann_preamble.specs.Base.{is_base};
ghost use Rattle.ann_log.specs.LogView.{files_of, held_of};
ghost use Rattle.ann_log.specs.Causes.{HaveCause};
ghost use Rattle.ann_log.specs.Told.{LeaveFiles};
ghost use Rattle.ann_recover.specs.Renewal.{base_of, renewal_of, IsNumbered, IsAtRest, IsOldOrRenewed, IsRenewed, IsNotRenewed};

use ann_disk::LogFile;
use ann_log::{Base, Disk, Entries, Log};
use ann_reopen::Merge;
use ann_types::Entry;

/// Writes a log anew where it must, on its last merge or to a file of version 2, with these entries as its tail.
///
/// # Errors
///
/// A fault of one of the files. The log is then closed, and it holds what it held before or all that is new.
pub(crate) fn renew_log<F: LogFile>(
    log: &mut Log<F>,
    merge: Option<Merge>,
    tail: Vec<Entry>,
) -> Result<(), Disk>
    requires { IsAtRest F.LogFile log.old merge tail.items }
    ensures renewed { OnOk result (IsRenewed F.LogFile log.old
        (renewal_of log.old.base log.old.generation merge) tail.items log.new) }
    ensures open_now { OnOk result (log.new.is_closed ≡ false) }
    ensures refused { OnErr result (IsNotRenewed F.LogFile log.old
        (renewal_of log.old.base log.old.generation merge) tail.items log.new) }
    ensures during { LeaveFiles F.LogFile (files_of log.old) (files_of log.new)
        (IsOldOrRenewed (held_of log.old)
        (renewal_of log.old.base log.old.generation merge) tail.items) }
    ensures cause { HaveCause F.LogFile (files_of log.old) (files_of log.new) result }
{
    match new_base(log.base(), log.generation(), merge) {
        None => Ok(()),
        Some(base) => log.renew(&base, &Entries::from_vec(tail)),
    }
}

// The base with which a log is written anew, if it must be.
fn new_base(base: &Base, generation: u64, merge: Option<Merge>) -> Option<Base>
    requires base { is_base base.now ≡ true }
    requires merge { IsNumbered merge }
    ensures value { result ≡ renewal_of base.now generation merge }
    ensures valid { MatchOption result (Unit {0}) (λ b. is_base b ≡ true) }
{
    match merge {
        None => { if generation == 0 { Some(*base) } else { None } }
        Some(merge) => {
            if generation < u64::MAX && merge.segment < 1 << 63 {
                Some(base_of(&merge))
            } else {
                None
            }
        }
    }
}

// The base that counts a merge as passed.
fn base_of(merge: &Merge) -> Base
    requires place { merge.now.position < 2 ^ 63 }
    requires number { merge.now.segment ≡ 2 * merge.now.position + 1 }
    requires small { merge.now.segment < 2 ^ 63 }
    ensures value { result ≡ base_of merge.now }
    ensures valid { is_base result ≡ true }
{
    Base {
        position: merge.position + 2,
        next: u64::from(merge.next),
        segment: merge.segment,
    }
}
