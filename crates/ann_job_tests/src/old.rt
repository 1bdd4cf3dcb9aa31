//! Segments by their bytes, which the tests share.

ghost use Rattle.std.specs.Prelude.{◌≡◌, IfOk};
ghost use Rattle.ann_vault.specs.Seal.{seal_number};

use ann_segment::Segment;
use ann_types::Params;
use ann_vault::{MemoryEye, MemorySeal, MemoryVault, Vault};
use std::alloc::{AllocError, Global};
use std::sync::Arc;
use std::test::Fail;

/// With what a block begins, before zeros, and where it ends.
pub(crate) type Block = (&'static [u8], usize);

/// The bytes of blocks.
pub(crate) fn text(alloc: Global, blocks: &[Block]) -> Result<Vec<u8>, AllocError> {
    let mut bytes = Vec::new(alloc);
    for (front, end) in blocks {
        bytes.extend_from_slice(front)?;
        bytes.resize(*end, 0)?;
    }
    Ok(bytes)
}

// A seal of bytes under a number.
fn seal_of(alloc: Global, number: u64, bytes: &[u8]) -> Result<MemorySeal, Fail>
    ensures { IfOk result (λ seal. seal_number seal ≡ number) }
{
    let mut vault = MemoryVault::new(alloc, &[])?;
    vault.preset(number, bytes)?;
    match vault.open(number)? {
        Some(seal) => Ok(seal),
        None => Err("no seal".into()),
    }
}

/// The segment of bytes under a number.
pub(crate) fn opened(
    alloc: Global,
    number: u64,
    bytes: &[u8],
    params: &Params,
) -> Result<Segment<MemorySeal>, Fail>
    ensures number { IfOk result (λ segment. segment.number ≡ number) }
    ensures codes { IfOk result (λ segment. segment.m ≡ params.now.m) }
{
    let seal = seal_of(alloc, number, bytes)?;
    let mut eye = MemoryEye::new(alloc, &[])?;
    match Segment::open(alloc, seal, number, params, &mut eye) {
        Ok(segment) => Ok(segment),
        Err((why, _seal)) => Err(why.into()),
    }
}
