// Opening an index again.
ghost use Rattle.std.specs.Prelude.{◌≡◌, ◌<◌, ◌∷◌, List, vec_len, IfOk, IfErr, MatchResult};
ghost use Rattle.ann_types.specs.declared.params.Params.{Params};
ghost use Rattle.ann_pq.specs.Codebook.{CodebookView};
ghost use Rattle.ann_log.specs.LogView.{files_of};
ghost use Rattle.ann_log.specs.Pairs.{EachPair, LeavePairs};
ghost use Rattle.ann_log.specs.Told.{LeaveFiles};
ghost use Rattle.ann_recover.specs.Causes.{IsCounted, IsOfStore};
ghost use Rattle.ann_recover.specs.Fresh.{IsFresh, held_with};
ghost use Rattle.ann_recover.specs.NotRecovered.{IsNotRevived, IsNotRecovered};
ghost use Rattle.ann_recover.specs.Opened.{IsSoundlyOpened};
ghost use Rattle.ann_recover.specs.Places.{IsKeptList, StandKept, IsSoundPlace};
ghost use Rattle.ann_recover.specs.Recovered.{IsRecovered, IsRevived, AreOfList, AreLeft};

use crate::parts::Parts;
use crate::refused::{RecoverRefused, RecoverWhy};
use crate::revive::revive;
use ann_disk::LogFile;
use ann_log::{Entries, Files, Log};
use ann_vault::{Eye, Vault};
use std::alloc::Global;

/// Opens an index again: its log, the view of the log's list, the live tags and the open merge. The first eye reads the
/// segments.
///
/// A log whose list has a merge that ended, or whose file is of version 1, is written anew on that merge; after that, the
/// segments that neither the log's base nor its last End names are removed.
///
/// # Errors
///
/// `NoIndex` and `BadLog` by what the files say; then `BadSegment` by the base's segment, `BadLog` by the first entry that isn't
/// legal, and `BadSegment` by the segment of the last End. The vault then holds what it held, and so do the files up to the last
/// gate of the log. `Disk` where a call of the log, the vault or the first eye failed, or want of memory; the log may then be
/// written anew, and after that segments that nobody names may be gone. All parts come back.
pub fn recover<F: LogFile, V: Vault, E: Eye<Seal = V::Seal>>(
    alloc: Global,
    files: Files<F>,
    vault: V,
    eyes: Vec<E>,
) -> Result<Parts<F, V, E>, RecoverRefused<F, V, E>>
    requires { 0 < vec_len eyes }
    ensures recovered { IfOk result (λ parts.
        IsRecovered F.LogFile V.Seal.tells V.Seal.bytes (V.held vault) (V.held parts.vault)
        files parts.log parts.view parts.tags parts.begun) }
    ensures refused { IfErr result (λ refused.
        IsNotRecovered F.LogFile V.Seal.tells V.Seal.bytes (V.held vault) (V.held refused.vault)
        files refused.files refused.why) }
    // A crash at any moment leaves files that read as before, or that are of the list for which they stood.
    ensures during { MatchResult result
        (λ parts. LeaveFiles F.LogFile files (files_of parts.log)
        (AreLeft F.LogFile V.Seal.tells V.Seal.bytes (V.held vault) files))
        (λ refused. LeaveFiles F.LogFile files refused.files
        (AreLeft F.LogFile V.Seal.tells V.Seal.bytes (V.held vault) files)) }
    // A sound place stays sound, also after a refusal.
    ensures sound { F.tells → V.Seal.tells → (params : Params) (book : CodebookView)
        → IsSoundPlace F.LogFile files (V.held vault) params book → MatchResult result
        (λ parts. IsSoundPlace F.LogFile (files_of parts.log) (V.held parts.vault) params book)
        (λ refused. IsSoundPlace F.LogFile refused.files (V.held refused.vault) params book) }
    // It opens as a sound index: the view's segment holds its graph, and the vault what the list names.
    ensures opened { F.tells → V.Seal.tells → (params : Params) (book : CodebookView)
        → IsSoundPlace F.LogFile files (V.held vault) params book → IfOk result (λ parts.
        IsSoundlyOpened F.LogFile V.Seal.tells V.Seal.bytes (V.held vault) (V.held parts.vault)
        files params book parts.log parts.view parts.tags parts.begun) }
    // And a crash at any moment leaves files that stand for a list of which the vault held what it names.
    ensures kept { F.tells → V.Seal.tells → (params : Params) (book : CodebookView)
        → IsSoundPlace F.LogFile files (V.held vault) params book → MatchResult result
        (λ parts. LeavePairs F.past F.unsynced files (files_of parts.log)
        (StandKept (V.held vault) params book))
        (λ refused. LeavePairs F.past F.unsynced files refused.files
        (StandKept (V.held vault) params book)) }
    // And it is never refused as bad.
    ensures never_bad { F.tells → V.Seal.tells → (params : Params) (book : CodebookView)
        → IsSoundPlace F.LogFile files (V.held vault) params book
        → IfErr result (λ refused. IsOfStore refused.why) }
    // A success is no fault, and `Disk` is one call of one device that failed. The further eyes are as they were.
    ensures cause { (first : E) (rest : List E) → eyes.items ≡ first ∷ rest → MatchResult result
        (λ parts. IsCounted F.faults E.faults ⊥ files (V.faults vault) first rest
        (files_of parts.log) (V.faults parts.vault) parts.eyes.items)
        (λ refused. IsCounted F.faults E.faults (refused.why ≡ RecoverWhy.Disk)
        files (V.faults vault) first rest
        refused.files (V.faults refused.vault) refused.eyes.items) }
{
    match Log::open(alloc, files) {
        Ok((log, entries)) => open_list(alloc, log, entries, vault, eyes),
        Err(refused) => Err(RecoverRefused {
            why: RecoverWhy::from(refused.why),
            files: refused.files,
            vault,
            eyes,
        }),
    }
}

// Opens an index again whose log is open, and has these entries.
fn open_list<F: LogFile, V: Vault, E: Eye<Seal = V::Seal>>(
    alloc: Global,
    log: Log<F>,
    entries: Entries,
    vault: V,
    eyes: Vec<E>,
) -> Result<Parts<F, V, E>, RecoverRefused<F, V, E>>
    requires some { 0 < vec_len eyes }
    requires fresh { IsFresh F.LogFile log entries }
    ensures revived { IfOk result (λ parts.
        IsRevived F.LogFile V.Seal.tells V.Seal.bytes (V.held vault) (V.held parts.vault)
        (held_with log entries) log.generation parts.log parts.view parts.tags parts.begun) }
    ensures refused { IfErr result (λ refused.
        IsNotRevived F.LogFile V.Seal.tells V.Seal.bytes (V.held vault) (V.held refused.vault)
        log entries refused.files refused.why) }
    ensures during { MatchResult result
        (λ parts. LeaveFiles F.LogFile (files_of log) (files_of parts.log)
        (AreOfList V.Seal.tells V.Seal.bytes (V.held vault) (held_with log entries) log.generation))
        (λ refused. LeaveFiles F.LogFile (files_of log) refused.files
        (AreOfList V.Seal.tells V.Seal.bytes (V.held vault) (held_with log entries) log.generation)) }
    ensures sound { F.tells → V.Seal.tells → IsKeptList (V.held vault) (held_with log entries) →
        MatchResult result
        (λ parts. EachPair F.unsynced
        (StandKept (V.held parts.vault) log.params log.book) (files_of parts.log))
        (λ refused. EachPair F.unsynced
        (StandKept (V.held refused.vault) log.params log.book) refused.files) }
    ensures cause { (first : E) (rest : List E) → eyes.items ≡ first ∷ rest → MatchResult result
        (λ parts. IsCounted F.faults E.faults ⊥ (files_of log) (V.faults vault) first rest
        (files_of parts.log) (V.faults parts.vault) parts.eyes.items)
        (λ refused. IsCounted F.faults E.faults (refused.why ≡ RecoverWhy.Disk)
        (files_of log) (V.faults vault) first rest
        refused.files (V.faults refused.vault) refused.eyes.items) }
{
    let mut log = log;
    let mut vault = vault;
    let mut eyes = eyes;
    match revive(alloc, &mut log, entries, &mut vault, &mut eyes[0]) {
        Ok(shown) => Ok(Parts {
            log,
            vault,
            eyes,
            view: shown.view,
            tags: shown.tags,
            begun: shown.begun,
        }),
        Err(why) => Err(RecoverRefused {
            why,
            files: log.into_files(),
            vault,
            eyes,
        }),
    }
}
