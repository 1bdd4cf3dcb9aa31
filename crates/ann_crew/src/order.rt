ghost use Rattle.std.specs.Prelude.{◌≡◌, length, map, IsPermutation, IfOk};
ghost use Rattle.std.specs.List.{range_with_len};
ghost use Rattle.ann_claim.specs.Claims.{IsEachOnce};
ghost use Rattle.ann_crew.specs.Members.{number_of, piece_of};

use std::alloc::{AllocError, Global};

/// Puts results in order of their numbers, which are those below a limit, each once.
pub(crate) fn put_in_order<P>(numbers: u32, results: &mut Vec<(u32, P)>)
    requires { IsEachOnce numbers (map number_of results.old.items) }
    ensures order { map number_of results.new.items ≡ range_with_len 0 numbers }
    ensures same { IsPermutation results.old.items results.new.items }
{
    results.sort_unstable_by_key(|numbered| numbered.0);
}

/// The results alone. The only error is want of memory.
pub(crate) fn without_numbers<P: Drop>(
    alloc: Global,
    mut results: Vec<(u32, P)>,
) -> Result<Vec<P>, AllocError>
    ensures { IfOk result (λ pieces. pieces.items ≡ map piece_of results.items) }
{
    let mut pieces = Vec::with_capacity(alloc, results.len())?;
    while let Some((_number, piece)) = results.pop() {
        pieces.push_reserved(piece);
    }
    pieces.reverse();
    Ok(pieces)
}
