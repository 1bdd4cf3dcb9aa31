// The merge of the open Begin, by the job that a running server works.
ghost use Rattle.std.specs.Prelude.{◌≡◌, None, IfOk, MatchOption};
ghost use Rattle.std.specs.Arc.{arc_value};
ghost use Rattle.std.specs.Option.{option_map};
ghost use Rattle.ann_types.specs.Index.{Index, IsBookOf};
ghost use Rattle.ann_merge.specs.Job.{IsMergeOf};
ghost use Rattle.ann_vault.specs.Seal.{seal_bytes};
ghost use Rattle.ann_core_laws.specs.State.{CoreState, open_begin};
ghost use Rattle.ann_core.specs.Core.{IsCoreOf, seen};
ghost use Rattle.ann_core.specs.Made.{IsInputOf, IsMadeBy};

use crate::prefix::open_list;
use crate::state::State;
use ann_mbegin::MergeInput;
use ann_merge::NoGate;
use ann_segment::Segment;
use ann_vault::{MemoryEye, MemorySeal, MemoryVault};
use std::alloc::{AllocError, Global};
use std::sync::Arc;
use std::thread::Threads;

impl State {
    /// What the merge of the open Begin takes; none exactly where no Begin is open. The only error is want of memory.
    fn input(&self) -> Result<Option<MergeInput<MemorySeal>>, AllocError>
        requires { (index : Index) × (c : CoreState) × IsCoreOf index (seen self.now) c }
        ensures { (index : Index) (c : CoreState) → IsCoreOf index (seen self.now) c →
            IfOk result (λ input. MatchOption input (open_begin index c ≡ None) (IsInputOf index c)) }
    {
        let (alloc, params) = (self.alloc, &self.params);
        let opened = open_list(alloc, params, &self.book, &self.kept, &self.list)?;
        let Some(position) = opened.begun else {
            return Ok(None);
        };
        let book = self.book.clone()?;
        let input = MergeInput::of_begin(alloc, &opened.view, position, params, book)?;
        Ok(Some(input))
    }

    /// What is true of every core: its codebook is the index's. It does nothing.
    pub(crate) fn known(&self)
        requires { (index : Index) × (c : CoreState) × IsCoreOf index (seen self.now) c }
        ensures { IsBookOf self.now.params self.now.book.value.book }
    {
        self.book.known();
    }

    /// The segment that the open merge makes; none exactly where no Begin is open. The only error is want of memory.
    pub(crate) fn merged<R: Threads + Sync>(
        &self,
        rt: &R,
    ) -> Result<Option<Arc<Segment<MemorySeal>>>, AllocError>
        requires { (index : Index) × (c : CoreState) × IsCoreOf index (seen self.now) c }
        ensures { (index : Index) (c : CoreState) → IsCoreOf index (seen self.now) c →
            IfOk result (λ merged. MatchOption (option_map arc_value merged)
            (open_begin index c ≡ None) (IsMadeBy index c)) }
    {
        match self.input()? {
            None => Ok(None),
            Some(input) => Ok(Some(make(rt, self.alloc, input)?)),
        }
    }
}

/// Makes a merge by one worker. The only error is want of memory: the vault and the eye are in memory, and fail for that
/// alone.
fn make<R: Threads + Sync>(
    rt: &R,
    alloc: Global,
    input: MergeInput<MemorySeal>,
) -> Result<Arc<Segment<MemorySeal>>, AllocError>
    ensures { IfOk result (λ segment. IsMergeOf (Unit {0}) seal_bytes input segment.value) }
{
    let vault = MemoryVault::new(alloc, &[])?;
    let mut eyes = Vec::with_capacity(alloc, 1)?;
    eyes.push_reserved(MemoryEye::new(alloc, &[])?);
    let mut job = input.into_job(vault, eyes);
    let Ok(()) = job.work(rt, 1, &NoGate) else {
        return Err(AllocError);
    };
    match job.merged()? {
        Some(segment) => Ok(segment),
        None => Err(AllocError),
    }
}
