//! A segment of two points, a codebook and parameters for it, which the tests share.

ghost use Rattle.std.specs.Prelude.{◌≡◌, IfOk};

use ann_pq::Codebook;
use ann_segment::{Segment, SegmentRefused};
use ann_types::Params;
use ann_vault::{MemoryEye, MemorySeal, MemoryVault, Vault};
use std::alloc::{AllocError, Global};
use std::test::Fail;

/// The parameters of an index of one component, with R of two and codes of one byte.
pub(crate) fn params(freeze_at: u32) -> Result<Params, Fail>
    ensures { IfOk result (λ params. (params.d ≡ 1) × (params.m ≡ 1)) }
{
    match Params::new(1, 2, 10, 1, 1, 1, 1, freeze_at) {
        Some(params) => Ok(params),
        None => Err("no parameters".into()),
    }
}

// The bytes of a codebook of one component in one part. Centroid i is i, of which the mask keeps some bits.
fn centroids(alloc: Global, mask: u8) -> Result<Vec<u8>, AllocError> {
    let mut bytes = b"ANNPQ001\x01\0\x01\0".to_vec(alloc)?;
    for i in 0..=255u8 {
        bytes.push(i & mask)?;
    }
    Ok(bytes)
}

/// That codebook.
pub(crate) fn codebook(alloc: Global, mask: u8) -> Result<Codebook, AllocError>
    ensures sizes { IfOk result (λ book. (book.d ≡ 1) × (book.m ≡ 1)) }
{
    let bytes = centroids(alloc, mask)?;
    Codebook::read(alloc, &bytes, 1, 1).map_err(|_refused| AllocError)
}

/// Writes bytes at their places, where these are there.
pub(crate) fn put(bytes: &mut [u8], places: &[(usize, u8)]) {
    for (at, byte) in places {
        if let Some(place) = bytes.get_mut(*at) {
            *place = *byte;
        }
    }
}

/// The bytes of a segment with d 1, R 2 and m 1: Pid 0 with tag 1, and Pid 1 with tag 2, each the other's neighbour, and
/// the first is the entry.
pub(crate) fn two_points(
    alloc: Global,
    number: u8,
    codes: [u8; 2],
    components: [u8; 2],
) -> Result<Vec<u8>, AllocError> {
    let mut bytes = b"ANNSEG01".to_vec(alloc)?;
    bytes.resize(16384, 0)?;
    // The header: number, d, R, m and count.
    put(
        &mut bytes,
        &[(8, number), (16, 1), (18, 2), (20, 1), (24, 2)],
    );
    // The directory: each Pid and its code.
    put(&mut bytes, &[(4100, codes[0]), (4101, 1), (4105, codes[1])]);
    // The first node block: one neighbour, tag, component, row 1.
    put(
        &mut bytes,
        &[(8196, 1), (8200, 1), (8208, components[0]), (8209, 1)],
    );
    // The second: Pid, one neighbour, tag, component, row 0.
    put(
        &mut bytes,
        &[(12288, 1), (12292, 1), (12296, 2), (12304, components[1])],
    );
    Ok(bytes)
}

/// A segment, or why it isn't opened.
pub(crate) type Opened = Result<Segment<MemorySeal>, SegmentRefused>;

// Whether bytes are still sealed under a number, and stand in a seal of it that came back.
fn is_kept(
    vault: &mut MemoryVault,
    number: u64,
    seal: &MemorySeal,
    bytes: &[u8],
) -> Result<bool, Fail> {
    let held = vault.open(number)?.ok_or("no seal")?;
    Ok(held.bytes() == bytes && seal.bytes() == bytes)
}

/// What is opened of these bytes under a number. A refusal leaves the vault and the seal.
pub(crate) fn opened(
    alloc: Global,
    number: u64,
    bytes: &[u8],
    params: &Params,
    eye: &mut MemoryEye,
) -> Result<Opened, Fail>
    ensures codes { IfOk result (λ opened. IfOk opened (λ segment. segment.m ≡ params.now.m)) }
{
    let mut vault = MemoryVault::new(alloc, &[])?;
    vault.preset(number, bytes)?;
    let seal = vault.open(number)?.ok_or("no seal")?;
    match Segment::open(alloc, seal, number, params, eye) {
        Ok(segment) => Ok(Ok(segment)),
        Err((why, seal)) => {
            if !is_kept(&mut vault, number, &seal, bytes)? {
                return Err("a refused segment was changed".into());
            }
            Ok(Err(why))
        }
    }
}

/// The segment of these bytes under a number.
pub(crate) fn segment(
    alloc: Global,
    number: u64,
    bytes: &[u8],
    params: &Params,
) -> Result<Segment<MemorySeal>, Fail>
    ensures codes { IfOk result (λ segment. segment.m ≡ params.now.m) }
{
    let mut eye = MemoryEye::new(alloc, &[])?;
    match opened(alloc, number, bytes, params, &mut eye)? {
        Ok(segment) => Ok(segment),
        Err(why) => Err(why.into()),
    }
}
