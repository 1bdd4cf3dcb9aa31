ghost use Rattle.std.specs.Prelude.{◌≡◌, ◌≤◌, IfOk};
ghost use Rattle.ann_once.specs.Book.{zeros, zero_bytes};

use ann_pq::{Codebook, CodebookRefused};
use std::alloc::{AllocError, Global};

/// The bytes of a codebook of zeros for vectors of one part.
fn zero_bytes(alloc: Global, d: u16) -> Result<Vec<u8>, AllocError>
    ensures { IfOk result (λ bytes. bytes.items ≡ zero_bytes d) }
{
    let mut bytes = Vec::from_slice(alloc, b"ANNPQ001")?;
    bytes.extend_from_slice(&d.to_le_bytes())?;
    bytes.extend_from_slice(&1u16.to_le_bytes())?;
    let components = vec![in alloc; 0; 256 * usize::from(d)]?;
    bytes.extend_from_slice(&components)?;
    Ok(bytes)
}

/// A codebook of zeros, for an index whose points are all in memory. The only error is want of memory.
pub(crate) fn zero_book(alloc: Global, d: u16) -> Result<Codebook, AllocError>
    requires { (1 ≤ d) × (d ≤ 1024) }
    ensures sizes { IfOk result (λ book. (book.d ≡ d) × (book.m ≡ 1)) }
    ensures zeros { IfOk result (λ book. book.book ≡ zeros d) }
{
    let bytes = zero_bytes(alloc, d)?;
    match Codebook::read(alloc, &bytes, d, 1) {
        Ok(book) => Ok(book),
        Err(CodebookRefused::Memory) => Err(AllocError),
        // The bytes are in the format, so no other fault is found.
        Err(CodebookRefused::Length) => unreachable!(),
        Err(CodebookRefused::Magic) => unreachable!(),
        Err(CodebookRefused::Shape) => unreachable!(),
    }
}
