ghost use Rattle.std.specs.Prelude.{◌≡◌, length, IfOk};

use ann_mdelete::Loaded;
use ann_minsert::LinkScratch;
use std::alloc::{AllocError, Global};

/// What so many workers repair lists with. The only error is want of memory.
pub(crate) fn loaded_for(alloc: Global, workers: usize) -> Result<Vec<Loaded>, AllocError>
    ensures { IfOk result (λ all. length all.items ≡ workers) }
{
    let mut all = Vec::new(alloc);
    for _made in 0..workers {
        all.push(Loaded::new(alloc)?)?;
    }
    Ok(all)
}

/// What so many workers link points with. The only error is want of memory.
pub(crate) fn scratches_for(alloc: Global, workers: usize) -> Result<Vec<LinkScratch>, AllocError>
    ensures { IfOk result (λ all. length all.items ≡ workers) }
{
    let mut all = Vec::new(alloc);
    for _made in 0..workers {
        all.push(LinkScratch::new(alloc)?)?;
    }
    Ok(all)
}
