// Whether bytes are a codebook.
ghost use Rattle.std.specs.Prelude.{◌≡◌};
ghost use Rattle.ann_pq.specs.Codebook.{AreSizes};
ghost use Rattle.ann_pq.specs.Format.{fault, named};

use crate::CodebookRefused;
use ann_bytes::get_u16;

/// What a codebook begins with.
const MAGIC: [u8; 8] = *b"ANNPQ001";

/// Bytes before the centroids: the magic, d and m.
pub(crate) const HEAD: usize = 12;

/// The first fault of the bytes, as a codebook of vectors of d components in m parts.
pub(crate) fn check(bytes: &[u8], d: u16, m: u16) -> Result<(), CodebookRefused>
    ensures { named result ≡ fault d m bytes.now }
{
    if bytes.len() < HEAD {
        return Err(CodebookRefused::Length);
    }
    if !bytes.starts_with(&MAGIC) {
        return Err(CodebookRefused::Magic);
    }
    if get_u16(bytes, 8) != Ok(d) || get_u16(bytes, 10) != Ok(m) {
        return Err(CodebookRefused::Shape);
    }
    if bytes.len() != HEAD + 256 * usize::from(d) {
        return Err(CodebookRefused::Length);
    }
    Ok(())
}
