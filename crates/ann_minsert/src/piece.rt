ghost use Rattle.std.specs.Prelude.{◌≡◌, ◌<◌, ◌-◌, ◌^◌, length, All, OnOk, OnErr};
ghost use Rattle.ann_minsert.specs.Added.{AreAdded, AreBegun};

use crate::graph::Base;
use crate::linking::link;
use crate::scratch::LinkScratch;
use ann_mdelete::Lists;
use ann_pq::Codebook;
use ann_types::{NewPoint, Params};
use arrayvec::ArrayVec;
use std::alloc::AllocError;

/// Links the new points of a piece to a base, each of them to the base alone, and adds their lists to `out`.
///
/// The only error is want of memory: `out` then has what it had and the lists of some first points, and the scratch may
/// hold anything.
pub fn link_piece(
    base: &Base,
    points: &[NewPoint],
    book: &Codebook,
    params: &Params,
    scratch: &mut LinkScratch,
    out: &mut Lists,
) -> Result<(), AllocError>
    requires few { length base.now.vectors < 2 ^ 32 - 1 }
    requires base { All (λ vector. length vector ≡ book.now.d) base.now.vectors }
    requires vectors { All (λ x. length x.vector ≡ book.now.d) points.now }

    // They are the lists that the definition of the Insert phase gives the points.
    ensures added { OnOk result (AreAdded params.now book.now.book base.now points.now out.old out.new) }
    ensures begun { OnErr result (AreBegun params.now book.now.book base.now points.now out.old out.new) }
{
    base.known();
    let mut kept = ArrayVec::new();
    for point in points {
        link(base, point, book, params, scratch, &mut kept)?;
        out.push(&kept)?;
    }
    Ok(())
}
