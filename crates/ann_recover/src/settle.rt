// Writing the log of an index anew, and removing the segments that nobody names.
ghost use Rattle.std.specs.Prelude.{◌≡◌, false, OnOk, OnErr, IfErr};
ghost use Rattle.ann_log.specs.LogView.{files_of, held_of};
ghost use Rattle.ann_log.specs.Told.{LeaveFiles};
ghost use Rattle.ann_recover.specs.Causes.{AreCounted, IsOfStore, faults_of};
ghost use Rattle.ann_recover.specs.Renewal.{renewal_of, number_of, IsAtRest, IsOldOrRenewed};
ghost use Rattle.ann_recover.specs.Settled.{IsSettled, IsUnsettled};

use crate::refused::RecoverWhy;
use crate::renewal::renew_log;
use ann_disk::LogFile;
use ann_log::Log;
use ann_reopen::Merge;
use ann_resume::remove_others;
use ann_types::Entry;
use ann_vault::Vault;
use std::alloc::Global;

/// Writes a log anew where it must, and then removes the sealed segments that neither its base nor its last End names.
///
/// # Errors
///
/// `Disk` where a call of the log or the vault failed, or want of memory. Nothing is removed before the log was written.
#[tactic(auto, using(crate::proofs::Counting::remove_store))]
pub(crate) fn settle<F: LogFile, V: Vault>(
    alloc: Global,
    log: &mut Log<F>,
    vault: &mut V,
    merge: Option<Merge>,
    tail: Vec<Entry>,
) -> Result<(), RecoverWhy>
    requires { IsAtRest F.LogFile log.old merge tail.items }
    ensures settled { OnOk result (IsSettled F.LogFile V.Seal.tells log.old merge tail.items
        (V.held vault.old) log.new (V.held vault.new)) }
    ensures open_now { OnOk result (log.new.is_closed ≡ false) }
    ensures why { IfErr result IsOfStore }
    ensures refused { OnErr result (IsUnsettled F.LogFile V.Seal.tells log.old merge tail.items
        (V.held vault.old) log.new (V.held vault.new)) }
    ensures during { LeaveFiles F.LogFile (files_of log.old) (files_of log.new)
        (IsOldOrRenewed (held_of log.old)
        (renewal_of log.old.base log.old.generation merge) tail.items) }
    ensures cause { AreCounted RecoverWhy.Disk result
        (faults_of F.faults (files_of log.old) (V.faults vault.old) 0)
        (faults_of F.faults (files_of log.new) (V.faults vault.new) 0) }
{
    renew_log(log, merge, tail)?;
    remove_others(alloc, vault, log.base().segment, number_of(merge))?;
    Ok(())
}

// The number of the segment that the last End names, and 0 without one.
fn number_of(merge: Option<Merge>) -> u64
    ensures { result ≡ number_of merge }
{
    match merge {
        None => 0,
        Some(merge) => merge.segment,
    }
}
