ghost use Rattle.std.specs.Prelude.{◌≡◌, ◌≤◌, ◌<◌, [], length, true, Some, IsSome, IsTrue, OnOk, MatchOption, ◌↔◌};
ghost use Rattle.ann_merge.specs.Job.{Order};
ghost use Rattle.ann_stock.specs.Cleared.{HasCleared};
ghost use Rattle.ann_stock.specs.Stock.{AtHand, GivenBack, Out, IsAtHand, ended, given_in, job_of, parts_in, without_job};

use crate::clear::clear_retired;
use crate::tools::{StockParts, Tools};
use ann_mbegin::MergeInput;
use ann_merge::{Job, JobParts};
use ann_segment::Segment;
use ann_vault::{Eye, Vault};
use std::alloc::{AllocError, Global};
use std::marker::Model;
use std::mem;
use std::sync::Arc;

/// What an index keeps to merge: the vault and the eyes of the workers, and the retired segments.
#[derive(Drop)]
pub struct Stock<V: Vault, E: Eye<Seal = V::Seal>> {
    tools: Tools<V, E>,
    retired: Vec<Arc<Segment<V::Seal>>>,
}

impl<V: Vault, E: Eye<Seal = V::Seal>> Model for Stock<V, E> {
    ghost use Rattle.std.specs.Prelude.{map, vec_capacity};
    ghost use Rattle.std.specs.Arc.{arc_value};
    ghost use Rattle.ann_stock.specs.Stock.{StockView, HaveEyes};
    ghost use Rattle.ann_stock.specs.Tools.{tools_of};

    ghost Value = { StockView V E V.Seal };

    ghost view = { λ s. record {
      tools = tools_of s.tools;
      retired = map arc_value s.retired.items;
      room = vec_capacity s.retired;
    } };

    ghost invariant = { λ s. HaveEyes (tools_of s.tools) };
}

impl<V: Vault, E: Eye<Seal = V::Seal>> Stock<V, E> {
    /// A vault and the eyes of the workers, at hand. No segment is retired.
    pub fn new(alloc: Global, vault: V, eyes: Vec<E>) -> Stock<V, E>
        requires { 0 < length eyes.items }
        ensures tools { result.tools ≡ AtHand vault eyes.items }
        ensures retired { result.retired ≡ [] }
    {
        Stock {
            tools: Tools::Held { vault, eyes },
            retired: Vec::new(alloc),
        }
    }

    /// Whether the vault and the eyes are out with a job.
    pub fn is_out(&self) -> bool
        ensures { IsTrue result ↔ (self.now.tools ≡ Out) }
    {
        matches!(&self.tools, Tools::Away)
    }

    /// Whether they are in a job that was given back.
    pub fn has_job(&self) -> bool
        ensures { IsTrue result ↔ IsSome (given_in self.now.tools) }
    {
        matches!(&self.tools, Tools::Back(_))
    }

    /// The job of a merge, with the vault and the eyes, which are at hand and then out.
    pub fn take(&mut self, input: MergeInput<V::Seal>) -> Job<V, E>
        requires { IsAtHand self.old.tools }
        ensures tools { self.old.tools ≡ AtHand result.vault result.eyes }
        ensures job { result ≡ job_of input result.vault result.eyes }
        ensures out { self.new ≡ record self.old { tools = Out } }
    {
        match mem::replace(&mut self.tools, Tools::Away) {
            Tools::Held { vault, eyes } => input.into_job(vault, eyes),
            // They are at hand.
            Tools::Back(_) => unreachable!(),
            Tools::Away => unreachable!(),
        }
    }

    /// The job that was given back, which is out again; none exactly where none was given back, and all is then as before.
    pub fn take_again(&mut self) -> Option<Job<V, E>>
        ensures job { result ≡ given_in self.old.tools }
        ensures rest { self.new ≡ record self.old { tools = without_job self.old.tools } }
    {
        match mem::replace(&mut self.tools, Tools::Away) {
            Tools::Back(job) => Some(job),
            other => {
                self.tools = other;
                None
            }
        }
    }

    /// Takes the job back that was out. It stays as it is until it is taken again.
    pub fn give_back(&mut self, job: Job<V, E>)
        requires { self.old.tools ≡ Out }
        ensures { self.new ≡ record self.old { tools = GivenBack job } }
    {
        self.tools = Tools::Back(job);
    }

    /// Makes room for one retired segment more. The only error is want of memory.
    pub fn reserve_retired(&mut self) -> Result<(), AllocError>
        ensures room { OnOk result (length self.new.retired < self.new.room) }
        ensures larger { self.old.room ≤ self.new.room }
        ensures same { self.new ≡ record self.old { room = self.new.room } }
    {
        self.retired.reserve(1)?;
        Ok(())
    }

    /// Ends a done job that was out: its vault and eyes are at hand again, and its old segment, if there was one, is retired.
    /// Takes no memory. The job's own share of the merged segment is dropped.
    pub fn end(&mut self, job: Job<V, E>)
        requires out { self.old.tools ≡ Out }
        requires done { IsSome job.segment }
        requires room { length self.old.retired < self.old.room }
        ensures { self.new ≡ ended self.old job }
    {
        let JobParts {
            vault,
            eyes,
            old,
            ..
        } = job.into_parts();
        if let Some(old) = old {
            self.retired.push_reserved(old);
        }
        self.tools = Tools::Held { vault, eyes };
    }

    /// Where the vault is at hand, lets go of the segment with the number of the log's base, which stays in the vault, and
    /// removes each other retired segment that nobody else holds. A segment whose removal failed is retired no longer, and
    /// may still be in the vault.
    ///
    /// The answer is false exactly where a removal failed, so only where the vault's count of faults rose in this call. Who
    /// else holds a segment isn't told, so no contract says that one goes.
    pub fn clear(&mut self, base: u64) -> bool
        ensures { HasCleared V.Seal.tells V.held V.faults base self.old self.new result }
    {
        match &mut self.tools {
            Tools::Held { vault, .. } => clear_retired(vault, &mut self.retired, base),
            Tools::Back(_) => true,
            Tools::Away => true,
        }
    }

    /// The vault and the eyes, at hand or of the job that was given back; none exactly where they are out. What is still
    /// retired stays in the vault.
    pub fn into_parts(self) -> Option<StockParts<V, E>>
        ensures { MatchOption result (self.tools ≡ Out)
            (λ parts. parts_in self.tools ≡ Some (parts.vault, parts.eyes.items)) }
    {
        let Stock { tools, .. } = self;
        match tools {
            Tools::Held { vault, eyes } => Some(StockParts { vault, eyes }),
            Tools::Back(job) => {
                let parts = job.into_parts();
                Some(StockParts {
                    vault: parts.vault,
                    eyes: parts.eyes,
                })
            }
            Tools::Away => None,
        }
    }
}
