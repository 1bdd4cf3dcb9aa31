// Looking into an index without a change.
ghost use Rattle.std.specs.Prelude.{◌≡◌, true, IfOk, IfErr};
ghost use Rattle.ann_types.specs.declared.params.Params.{Params};
ghost use Rattle.ann_pq.specs.Codebook.{CodebookView};
ghost use Rattle.ann_base.specs.Causes.{AreCounted as AreSealsCounted, counts_of};
ghost use Rattle.ann_log.specs.Told.{AreSame};
ghost use Rattle.ann_preamble.specs.Base.{is_base};
ghost use Rattle.ann_recover.specs.Causes.{AreCounted, IsOfStore, faults_of};
ghost use Rattle.ann_recover.specs.Inspected.{IsInspected, IsNotInspected, IsSummed, IsSumRefused, segment_named};
ghost use Rattle.ann_recover.specs.Places.{IsSoundPlace};

use crate::refused::RecoverWhy;
use crate::verify::verify;
use ann_disk::LogFile;
use ann_log::{Base, Files, Inspected, inspect_log};
use ann_reopen::Merge;
use ann_state::{open_merged, read_list};
use ann_vault::{Eye, Vault};
use std::alloc::Global;

/// What an index says of itself.
#[derive(Clone, Copy, Debug, PartialEq, Eq)]
pub struct Summary {
    /// The length of its list.
    pub entries: u64,
    /// The number of its live tags.
    pub live: u64,
    /// The number of the last End's segment, or else of the base's; none where there is neither.
    pub segment: Option<u64>,
}

/// Looks into an index, and changes nothing. It refuses as `recover` does, and besides for the first node block that isn't in
/// the format or whose code isn't the directory's, of the base's segment and then of the last End's.
///
/// # Errors
///
/// Those of `recover`.
pub fn inspect<F: LogFile, V: Vault, E: Eye<Seal = V::Seal>>(
    alloc: Global,
    files: &mut Files<F>,
    vault: &mut V,
    eye: &mut E,
) -> Result<Summary, RecoverWhy>
    ensures inspected { IfOk result (IsInspected F.LogFile V.Seal.tells V.Seal.bytes
        (V.held vault.old) files.old) }
    ensures refused { IfErr result (IsNotInspected F.LogFile V.Seal.tells V.Seal.bytes
        (V.held vault.old) files.old) }
    // A sound place is never refused as bad.
    ensures never_bad { F.tells → V.Seal.tells → (params : Params) (book : CodebookView)
        → IsSoundPlace F.LogFile files.old (V.held vault.old) params book → IfErr result IsOfStore }
    ensures same { AreSame F.LogFile files.old files.new }
    ensures held { V.Seal.tells → V.held vault.new ≡ V.held vault.old }
    ensures cause { AreCounted RecoverWhy.Disk result
        (faults_of F.faults files.old (V.faults vault.old) (E.faults eye.old))
        (faults_of F.faults files.new (V.faults vault.new) (E.faults eye.new)) }
{
    let found = inspect_log(alloc, files)?;
    sum_up(alloc, vault, eye, &found)
}

// What the list says that was found in a log.
fn sum_up<V: Vault, E: Eye<Seal = V::Seal>>(
    alloc: Global,
    vault: &mut V,
    eye: &mut E,
    found: &Inspected,
) -> Result<Summary, RecoverWhy>
    requires { is_base found.now.base ≡ true }
    ensures summed { IfOk result (IsSummed V.Seal.tells V.Seal.bytes (V.held vault.old)
        found.now.params found.now.book found.now.base found.now.entries) }
    ensures refused { IfErr result (IsSumRefused V.Seal.tells V.Seal.bytes (V.held vault.old)
        found.now.params found.now.book found.now.base found.now.entries) }
    ensures held { V.Seal.tells → V.held vault.new ≡ V.held vault.old }
    ensures cause { AreSealsCounted RecoverWhy.Disk result
        (counts_of (V.faults vault.old) (E.faults eye.old))
        (counts_of (V.faults vault.new) (E.faults eye.new)) }
{
    let entries = found.entries.items();
    let list = read_list(alloc, vault, eye, &found.params, &found.base, entries)?;
    let merge = list.judged.merge;
    let merged = open_merged(alloc, vault, eye, &found.params, merge)?;
    verify(&list.segment, eye, &found.book, &found.params)?;
    verify(&merged, eye, &found.book, &found.params)?;
    Ok(Summary {
        entries: found.base.position + entries.len() as u64,
        live: list.judged.tags.count(),
        segment: segment_named(&found.base, merge),
    })
}

// The number of the last End's segment, or else of the base's, if it has one.
fn segment_named(base: &Base, merge: Option<Merge>) -> Option<u64>
    ensures { result ≡ segment_named base.now merge }
{
    match merge {
        Some(merge) => Some(merge.segment),
        None => {
            if base.segment == 0 {
                None
            } else {
                Some(base.segment)
            }
        }
    }
}
