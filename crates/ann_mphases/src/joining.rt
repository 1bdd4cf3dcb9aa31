ghost use Rattle.std.specs.Prelude.{◌≡◌, ◌≤◌, ◌++◌, length, IfOk, OnOk};
ghost use Rattle.ann_mphases.specs.Pieces.{AreSmall, joined};

use ann_mdelete::Lists;
use std::alloc::{AllocError, Global};

/// Adds the lists of a piece. The only error is want of memory.
fn add_all(piece: &Lists, out: &mut Lists) -> Result<(), AllocError>
    requires { length piece.now ≤ 256 }
    ensures { OnOk result (out.new ≡ out.old ++ piece.now) }
{
    for i in 0..piece.len() as u32 {
        out.push(piece.get(i))?;
    }
    Ok(())
}

/// The lists of all pieces, one piece after the other. The only error is want of memory.
pub(crate) fn join(alloc: Global, pieces: &[Lists]) -> Result<Lists, AllocError>
    requires { AreSmall pieces.now }
    ensures { IfOk result (λ lists. lists ≡ joined pieces.now) }
{
    let mut lists = Lists::new(alloc);
    for piece in pieces {
        add_all(piece, &mut lists)?;
    }
    Ok(lists)
}
