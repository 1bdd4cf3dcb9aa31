// Reading the list of a log, and making the view of it.
ghost use Rattle.std.specs.Prelude.{◌≡◌, ◌<◌, ◌+◌, ◌^◌, true, vec_len, IfOk, IfErr};
ghost use Rattle.ann_base.specs.Causes.{AreCounted, counts_of};
ghost use Rattle.ann_preamble.specs.Base.{is_base};
ghost use Rattle.ann_recover.specs.Loaded.{IsLoaded, IsLoadRefused};

use crate::refused::RecoverWhy;
use ann_log::Base;
use ann_pq::Codebook;
use ann_reopen::Merge;
use ann_resume::resume;
use ann_state::{State, open_merged, read_list, state_of};
use ann_tags::Tags;
use ann_types::{Entry, Params};
use ann_vault::{Eye, Sealed, Vault};
use ann_view::View;
use std::alloc::Global;

/// What the list of a log makes.
#[derive(Drop)]
pub(crate) struct Loaded<S: Sealed> {
    /// The view of the list.
    pub(crate) view: View<S>,
    /// The live tags.
    pub(crate) tags: Tags,
    /// The position of the open Begin, if there is one.
    pub(crate) begun: Option<u64>,
    /// The last merge that ended, if there is one.
    pub(crate) merge: Option<Merge>,
    /// What is left of the entries behind that merge's Begin, or all of them.
    pub(crate) tail: Vec<Entry>,
}

/// Reads the list of a log, and makes the view of it. Nothing is changed.
pub(crate) fn load<V: Vault, E: Eye<Seal = V::Seal>>(
    alloc: Global,
    vault: &mut V,
    eye: &mut E,
    params: &Params,
    book: &Codebook,
    base: &Base,
    entries: Vec<Entry>,
) -> Result<Loaded<V::Seal>, RecoverWhy>
    requires base { is_base base.now ≡ true }
    requires room { base.now.position + vec_len entries < 2 ^ 63 }
    requires sizes { (book.now.d ≡ params.now.d) × (book.now.m ≡ params.now.m) }
    ensures loaded { IfOk result (IsLoaded V.Seal.tells V.Seal.bytes (V.held vault.old)
        params.now book.now base.now entries.items) }
    ensures refused { IfErr result (IsLoadRefused V.Seal.tells V.Seal.bytes (V.held vault.old)
        params.now base.now entries.items) }
    ensures same { V.Seal.tells → V.held vault.new ≡ V.held vault.old }
    ensures cause { AreCounted RecoverWhy.Disk result
        (counts_of (V.faults vault.old) (E.faults eye.old))
        (counts_of (V.faults vault.new) (E.faults eye.new)) }
{
    let list = read_list(alloc, vault, eye, params, base, &entries)?;
    let merge = list.judged.merge;
    let merged = open_merged(alloc, vault, eye, params, merge)?;
    let state = state_of(base, list, merged, entries);
    let State {
        start,
        entries,
        gone,
        tags,
        begun,
    } = state;
    let view = resume(alloc, params, book.copy()?, start, &entries, &gone)?;
    Ok(Loaded {
        view,
        tags,
        begun,
        merge,
        tail: entries,
    })
}
