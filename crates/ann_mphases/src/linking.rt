ghost use Rattle.std.specs.Prelude.{◌≡◌, ◌≤◌, ◌<◌, ◌*◌, length, IfOk, IfErr};
ghost use Rattle.ann_mdelete.specs.declared.refused.WorkRefused.TheVariants.{Memory};
ghost use Rattle.ann_mphases.specs.Linked.{LinkView, MayLink, linked_piece, links_in};

use crate::joining::join;
use crate::workers::scratches_for;
use ann_crew::{Gate, Stretch, Task, run};
use ann_mdelete::{Lists, WorkRefused};
use ann_minsert::{Base, LinkScratch, link_piece};
use ann_pq::Codebook;
use ann_types::{NewPoint, Params};
use std::alloc::{AllocError, Global};
use std::marker::Model;
use std::thread::Threads;

/// A base and the new points outside it.
#[derive(Drop)]
pub(crate) struct Linking<'a> {
    pub(crate) base: &'a Base,
    pub(crate) points: &'a [NewPoint],
    pub(crate) book: &'a Codebook,
    pub(crate) params: &'a Params,
    pub(crate) alloc: Global,
}

impl<'a> Model for Linking<'a> {
    ghost use Rattle.ann_mphases.specs.Linked.{LinkView, MayLink};

    ghost Value = { LinkView };

    ghost view = { λ l. record { base = l.base.now; points = l.points.now; book = l.book.now; params = l.params.now } };

    ghost invariant = { λ l. MayLink (record { base = l.base.now; points = l.points.now; book = l.book.now; params = l.params.now }) };
}

impl<'a> Linking<'a> {
    /// The links of the piece of a number. The only error is want of memory.
    fn link(&self, scratch: &mut LinkScratch, number: u32) -> Result<Lists, AllocError>
        requires { 256 * number < length self.now.points }
        ensures { IfOk result (λ lists. lists ≡ linked_piece self.now number) }
    {
        let first = 256 * number as usize;
        let end = (first + 256).min(self.points.len());
        let mut lists = Lists::new(self.alloc);
        let points = &self.points[first..end];
        link_piece(
            self.base,
            points,
            self.book,
            self.params,
            scratch,
            &mut lists,
        )?;
        Ok(lists)
    }
}

impl<'a> Task<LinkScratch> for Linking<'a> {
    type Piece = Lists;

    ghost use Rattle.std.specs.Prelude.{◌≡◌, length};
    ghost use Rattle.std.proofs.Common.{refl};
    ghost use Rattle.ann_mdelete.specs.declared.refused.WorkRefused.TheVariants.{Memory};
    ghost use Rattle.ann_mplan.specs.Old.{pieces_of};
    ghost use Rattle.ann_mphases.specs.Linked.{linked_piece};

    ghost count = { λ t. pieces_of (length t.points) };

    ghost is_piece = { λ t number lists. lists ≡ linked_piece t number };

    ghost goes = { λ t old new. Unit {0} };

    ghost causes = { λ t old new why. why ≡ Memory };

    fn work(&self, worker: &mut LinkScratch, number: u32) -> Result<Lists, WorkRefused> {
        Ok(self.link(worker, number)?)
    }

    ghost stays = { λ t u. tt };

    ghost goes_on = { λ t u v w a b. tt };

    ghost caused = { λ t u v w why a b. b };

    ghost memory = { λ t u v a. refl };
}

/// The links of all new points outside the base (FreshDiskANN, section 5.3, insert phase).
///
/// # Errors
///
/// Want of memory.
pub(crate) fn link_all<R: Threads + Sync, G: Gate + Sync>(
    rt: &R,
    gate: &G,
    task: &Linking,
    workers: usize,
) -> Result<Lists, WorkRefused>
    requires some { 0 < workers }
    requires few { workers ≤ 16 }
    ensures linked { IfOk result (λ lists. lists ≡ links_in task.now task.now.points) }
    ensures refused { IfErr result (λ why. why ≡ Memory) }
{
    let alloc = task.alloc;
    let mut scratches = scratches_for(alloc, workers)?;
    let stretch = Stretch {
        phase: 2,
        first: 0,
        count: task.points.len().div_ceil(256) as u32,
    };
    let pieces = run(rt, alloc, gate, task, stretch, &mut scratches)?;
    Ok(join(alloc, &pieces)?)
}
