// Two sorted lists of Pids as one.
ghost use Rattle.std.specs.Prelude.{◌≡◌, IfOk};
ghost use Rattle.ann_dead.specs.Pids.{union, IsAscending};

use std::alloc::{AllocError, Global};

// The Pids of both, in order, each once.
pub(crate) fn merged(alloc: Global, first: &[u32], second: &[u32]) -> Result<Vec<u32>, AllocError>
    requires first { IsAscending first.now }
    requires second { IsAscending second.now }
    ensures { IfOk result (λ pids. pids.items ≡ union first.now second.now) }
{
    let mut pids = Vec::with_capacity(alloc, first.len() + second.len())?;
    let (mut i, mut k) = (0, 0);
    while i < first.len() && k < second.len() {
        let pid = first[i].min(second[k]);
        pids.push(pid)?;
        i += usize::from(first[i] == pid);
        k += usize::from(second[k] == pid);
    }
    pids.extend_from_slice(&first[i..])?;
    pids.extend_from_slice(&second[k..])?;
    Ok(pids)
}
