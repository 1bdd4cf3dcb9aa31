//! Three points in a line, at 10, 20 and 30, in a segment with the number 7. A point's code is its component, and its tag is
//! its Pid.

ghost use Rattle.std.specs.Prelude.{◌≡◌, ◌<◌, All, IfOk, IsTrue};
ghost use Rattle.ann_segment.specs.Directory.{Item};
ghost use Rattle.ann_vault.specs.Seal.{seal_number};

use ann_pq::Codebook;
use ann_segment::Segment;
use ann_types::{Params, Pid};
use ann_vault::{MemoryEye, MemorySeal, MemoryVault, Vault};
use std::alloc::{AllocError, Global};
use std::sync::Arc;
use std::test::Fail;

// With what each block begins, before zeros; the entry is the second point.
const BLOCKS: [&[u8]; 5] = [
    &[
        0x41, 0x4e, 0x4e, 0x53, 0x45, 0x47, 0x30, 0x31, 7, 0, 0, 0, 0, 0, 0, 0, 1, 0, 2, 0, 1, 0,
        0, 0, 3, 0, 0, 0, 1,
    ],
    &[0, 0, 0, 0, 10, 1, 0, 0, 0, 20, 2, 0, 0, 0, 30],
    &[
        0, 0, 0, 0, 1, 0, 0, 0, 0, 0, 0, 0, 0, 0, 0, 0, 10, 1, 0, 0, 0,
    ],
    &[
        1, 0, 0, 0, 2, 0, 0, 0, 1, 0, 0, 0, 0, 0, 0, 0, 20, 0, 0, 0, 0, 2, 0, 0, 0,
    ],
    &[
        2, 0, 0, 0, 1, 0, 0, 0, 2, 0, 0, 0, 0, 0, 0, 0, 30, 1, 0, 0, 0,
    ],
];

/// The parameters: d 1, R 2, l_build 10, alpha 1/1, w 1, m 1, freeze_at 100.
pub(crate) fn params() -> Result<Params, Fail>
    ensures { IfOk result (λ params. (params.d ≡ 1) × (params.m ≡ 1)) }
{
    match Params::new(1, 2, 10, 1, 1, 1, 1, 100) {
        Some(params) => Ok(params),
        None => Err("no parameters".into()),
    }
}

// The bytes of a codebook of one part of one component, in which centroid i is i.
fn centroids(alloc: Global) -> Result<Vec<u8>, AllocError> {
    let mut bytes = b"ANNPQ001\x01\x00\x01\x00".to_vec(alloc)?;
    for i in 0..=255u8 {
        bytes.push(i)?;
    }
    Ok(bytes)
}

/// That codebook.
pub(crate) fn codebook(alloc: Global) -> Result<Arc<Codebook>, Fail>
    ensures { IfOk result (λ book. (book.value.d ≡ 1) × (book.value.m ≡ 1)) }
{
    let bytes = centroids(alloc)?;
    let book = Codebook::read(alloc, &bytes, 1, 1)?;
    Ok(Arc::new(alloc, book)?)
}

// The bytes of the segment.
fn text(alloc: Global) -> Result<Vec<u8>, AllocError> {
    let mut bytes = Vec::new(alloc);
    for (at, front) in BLOCKS.iter().enumerate() {
        bytes.extend_from_slice(front)?;
        bytes.resize(4096 * (at + 1), 0)?;
    }
    Ok(bytes)
}

/// A vault that holds the segment, and its seal. The vault's calls with these numbers fail; the first one is made here.
pub(crate) fn sealed(alloc: Global, failing: &[u64]) -> Result<(MemoryVault, MemorySeal), Fail>
    ensures { IfOk result (λ sealed. seal_number sealed.1 ≡ 7) }
{
    let mut vault = MemoryVault::new(alloc, failing)?;
    vault.preset(7, &text(alloc)?)?;
    match vault.open(7)? {
        Some(seal) => Ok((vault, seal)),
        None => Err("no seal".into()),
    }
}

/// The segment of that seal.
pub(crate) fn opened(alloc: Global, seal: MemorySeal) -> Result<Arc<Segment<MemorySeal>>, Fail>
    requires { seal_number seal ≡ 7 }
    ensures { IfOk result (λ segment. segment.value.m ≡ 1) }
{
    let params = params()?;
    let mut eye = MemoryEye::new(alloc, &[])?;
    match Segment::open(alloc, seal, 7, &params, &mut eye) {
        Ok(segment) => Ok(Arc::new(alloc, segment)?),
        Err((why, _seal)) => Err(why.into()),
    }
}

/// Whether a segment's Pids are below one.
pub(crate) fn is_below(segment: &Segment<MemorySeal>, next: Pid) -> bool
    ensures { IsTrue result → All (λ (x : Item). x.0 < next) segment.now.items }
{
    for row in 0..segment.count() {
        if segment.pid(row) >= next {
            return false;
        }
    }
    true
}
