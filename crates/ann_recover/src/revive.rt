// Making the view of a log that was opened, and putting the log and the vault in order.
ghost use Rattle.std.specs.Prelude.{◌≡◌, IfOk, IfErr};
ghost use Rattle.ann_log.specs.LogView.{files_of};
ghost use Rattle.ann_log.specs.Pairs.{EachPair};
ghost use Rattle.ann_log.specs.Told.{LeaveFiles};
ghost use Rattle.ann_recover.specs.Causes.{AreCounted, faults_of};
ghost use Rattle.ann_recover.specs.Fresh.{IsFresh, held_with};
ghost use Rattle.ann_recover.specs.NotRecovered.{IsNotRevived};
ghost use Rattle.ann_recover.specs.Places.{IsKeptList, StandKept};
ghost use Rattle.ann_recover.specs.Recovered.{IsRevived, AreOfList};

use crate::load::{Loaded, load};
use crate::refused::RecoverWhy;
use crate::settle::settle;
use ann_disk::LogFile;
use ann_log::{Entries, Log};
use ann_tags::Tags;
use ann_vault::{Eye, Sealed, Vault};
use ann_view::View;
use std::alloc::Global;

/// What of an index is made when it is opened again.
#[derive(Drop)]
pub(crate) struct Shown<S: Sealed> {
    /// The view of the log's list.
    pub(crate) view: View<S>,
    /// The live tags.
    pub(crate) tags: Tags,
    /// The position of the open Begin, if there is one.
    pub(crate) begun: Option<u64>,
}

/// Makes the view of a log that has these entries, writes the log anew where it must, and removes the segments that nobody
/// names.
pub(crate) fn revive<F: LogFile, V: Vault, E: Eye<Seal = V::Seal>>(
    alloc: Global,
    log: &mut Log<F>,
    entries: Entries,
    vault: &mut V,
    eye: &mut E,
) -> Result<Shown<V::Seal>, RecoverWhy>
    requires { IsFresh F.LogFile log.old entries }
    ensures revived { IfOk result (λ shown.
        IsRevived F.LogFile V.Seal.tells V.Seal.bytes (V.held vault.old) (V.held vault.new)
        (held_with log.old entries) log.old.generation log.new shown.view shown.tags shown.begun) }
    ensures refused { IfErr result (IsNotRevived F.LogFile V.Seal.tells V.Seal.bytes
        (V.held vault.old) (V.held vault.new) log.old entries (files_of log.new)) }
    ensures during { LeaveFiles F.LogFile (files_of log.old) (files_of log.new)
        (AreOfList V.Seal.tells V.Seal.bytes (V.held vault.old)
        (held_with log.old entries) log.old.generation) }
    // Where the vault held what the list names, each image stands for a list of which it holds so.
    ensures sound { F.tells → V.Seal.tells → IsKeptList (V.held vault.old) (held_with log.old entries) →
        EachPair F.unsynced (StandKept (V.held vault.new) log.old.params log.old.book) (files_of log.new) }
    ensures cause { AreCounted RecoverWhy.Disk result
        (faults_of F.faults (files_of log.old) (V.faults vault.old) (E.faults eye.old))
        (faults_of F.faults (files_of log.new) (V.faults vault.new) (E.faults eye.new)) }
{
    let _bound = log.count();
    let entries = entries.into_vec();
    let loaded = load(
        alloc,
        vault,
        eye,
        log.params(),
        log.book(),
        log.base(),
        entries,
    )?;
    let Loaded {
        view,
        tags,
        begun,
        merge,
        tail,
    } = loaded;
    settle(alloc, log, vault, merge, tail)?;
    Ok(Shown { view, tags, begun })
}
