ghost use Rattle.std.specs.Prelude.{◌≡◌, ◌≤◌, length, OnOk};
ghost use Rattle.ann_types.specs.Codes.{decoded as decoded_by};

use ann_pq::Codebook;
use std::alloc::AllocError;

/// Leaves in `code` the code of a vector, and in `own` the vector that it stands for. The only error is want of memory.
pub(crate) fn decode_own(
    book: &Codebook,
    vector: &[u8],
    code: &mut Vec<u8>,
    own: &mut Vec<u8>,
) -> Result<(), AllocError>
    requires { length vector.now ≡ book.now.d }
    ensures own { OnOk result (own.new.items ≡ decoded_by book.now.book vector.now) }
    ensures length { OnOk result (length own.new.items ≡ book.now.d) }
    ensures short { OnOk result (length own.new.items ≤ 1024) }
{
    book.known();
    code.clear();
    code.resize(usize::from(book.m()), 0)?;
    own.clear();
    own.resize(usize::from(book.d()), 0)?;
    book.code(vector, code);
    book.decode(code, own);
    Ok(())
}
