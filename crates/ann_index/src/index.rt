ghost use Rattle.std.specs.Prelude.{◌≡◌, ◌<◌, [], Bool, length, map, vec_len, IfOk, IfErr};
ghost use Rattle.ann_types.specs.Lists.{BasedList, length_of, live_of};
ghost use Rattle.ann_beam.specs.Ranking.{hit_of};
ghost use Rattle.ann_stock.specs.Stock.{AtHand};
ghost use Rattle.ann_ledger.specs.Opening.{ArePartsOf};
ghost use Rattle.ann_index.specs.Index.{IsIndexOf};

use crate::refusal::OpenRefused;
use ann_beam::Desk;
use ann_disk::LogFile;
use ann_ledger::{Ledger, Opened};
use ann_recover::Parts;
use ann_types::{Hit, Params};
use ann_vault::{Eye, Vault};
use ann_view::View;
use std::alloc::Global;
use std::marker::Model;

/// A streaming index with one client, whose number in the log is 0. It is always of a list of entries, which its log has; and
/// where the place was sound, it stays so.
#[derive(Drop)]
pub struct Index<F: LogFile, V: Vault, E: Eye<Seal = V::Seal>> {
    pub(crate) alloc: Global,
    pub(crate) ledger: Ledger<F, V, E>,
    pub(crate) view: View<V::Seal>,
    pub(crate) desk: Desk,
    pub(crate) eye: E,
}

impl<F: LogFile, V: Vault, E: Eye<Seal = V::Seal>> Model for Index<F, V, E> {
    ghost use Rattle.std.specs.Coded.{codes};
    ghost use Rattle.ann_tags.specs.Tags.{shown_code};
    ghost use Rattle.ann_beam.specs.Desk.{page_of, result_of};
    ghost use Rattle.ann_index.specs.Index.{HolderView, IsSomeIndex, kept_of};

    ghost Value = { HolderView F V E V.Seal };

    ghost coded = { Prim.hlevel (codes, shown_code) };

    ghost view = { λ i. record {
      kept = kept_of i.ledger.journal i.ledger.stock i.view;
      result = result_of i.desk;
      page = page_of i.desk;
      eye = i.eye;
    } };

    ghost invariant = { λ i. IsSomeIndex F.LogFile V.Seal.tells V.Seal.bytes V.held
        (kept_of i.ledger.journal i.ledger.stock i.view) };
}

impl<F: LogFile, V: Vault, E: Eye<Seal = V::Seal>> Index<F, V, E> {
    /// An index of the parts that opening a place gives, with an eye for the searches. The parts have an eye at least, for
    /// each thread that a merge may use.
    ///
    /// # Errors
    ///
    /// The only error is want of memory for the desk, and the parts and the eye come back as they were.
    pub fn open(
        alloc: Global,
        parts: Parts<F, V, E>,
        eye: E,
    ) -> Result<Index<F, V, E>, OpenRefused<F, V, E>>
        requires eyes { 0 < vec_len parts.eyes }
        requires parts { (sound : Bool) × (h : BasedList) × ArePartsOf F.LogFile V.Seal.tells V.Seal.bytes
            sound h parts.log (V.held parts.vault) parts.view parts.tags parts.begun }
        ensures index { (sound : Bool) (h : BasedList) → ArePartsOf F.LogFile V.Seal.tells V.Seal.bytes
            sound h parts.log (V.held parts.vault) parts.view parts.tags parts.begun →
            IfOk result (λ index. IsIndexOf F.LogFile V.Seal.tells V.Seal.bytes V.held
            sound h h index.kept) }
        ensures log { IfOk result (λ index. index.kept.journal.log ≡ parts.log) }
        ensures tools { IfOk result (λ index.
            (index.kept.stock.tools ≡ AtHand parts.vault parts.eyes.items)
            × (index.kept.stock.retired ≡ [])) }
        ensures view { IfOk result (λ index. index.kept.view ≡ parts.view) }
        ensures desk { IfOk result (λ index. (index.result.points ≡ []) × (index.eye ≡ eye)) }
        ensures refused { IfErr result (λ refused. (refused.parts ≡ parts) × (refused.eye ≡ eye)) }
    {
        match Desk::new(alloc, parts.log.params()) {
            Ok(desk) => {
                let Opened { ledger, view } = Opened::of(alloc, parts);
                Ok(Index {
                    alloc,
                    ledger,
                    view,
                    desk,
                    eye,
                })
            }
            Err(_) => Err(OpenRefused { parts, eye }),
        }
    }

    /// How many entries the list of the index has: those that are logged, and those below the log's base.
    pub fn at(&self) -> u64
        ensures { (sound : Bool) (h shown : BasedList) → IsIndexOf F.LogFile V.Seal.tells V.Seal.bytes
            V.held sound h shown self.now.kept → result ≡ length_of h }
    {
        self.ledger.journal.account().at()
    }

    /// The parameters of the index.
    pub fn params(&self) -> &Params
        ensures { result.now ≡ self.now.kept.journal.log.params }
    {
        self.ledger.journal.log().params()
    }

    /// How many tags are live, and so how many points there are.
    pub fn live(&self) -> u64
        ensures { (sound : Bool) (h shown : BasedList) → IsIndexOf F.LogFile V.Seal.tells V.Seal.bytes
            V.held sound h shown self.now.kept → result ≡ length (live_of h) }
    {
        self.ledger.journal.account().live()
    }

    /// What the last search found, the nearest first: at most the `k` points that it asked for, each with its tag and its
    /// distance, which is the sum of the squares of the differences. Empty before the first search and after one that was
    /// refused.
    pub fn hits(&self) -> &[Hit]
        ensures { result.now ≡ map hit_of self.now.result.points }
    {
        self.desk.hits()
    }
}
