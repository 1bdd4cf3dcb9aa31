// Reading an entry.
ghost use Rattle.std.specs.Prelude.{◌≡◌, ◌↔◌, ◌+◌, ◌≤◌, ◌<◌, length, get_or, IfOk, IsErrOf, MatchResult, alloc_error};
ghost use Rattle.ann_entry.specs.EntryBytes.{entry_bytes};
ghost use Rattle.ann_entry.specs.Standing.{StandsAt, IsOtherKind, EndsWithin};
ghost use Rattle.ann_entry.specs.Kinds.{kind_byte, kind_size, IsNoKind};
ghost use Rattle.ann_bytes.specs.LittleEndian.{number_of, field};

use crate::entry_refused::EntryRefused;
use crate::kind::{FRONT, Kind, NAMED};
use ann_bytes::{get_u32, get_u64};
use ann_types::{Entry, Vector};
use std::alloc::{AllocError, Global};

/// Reads the entry that stands at a place, where vectors have d components, and gives it and the place after it.
///
/// `Kind` comes exactly where a byte stands at the place that isn't 1 to 5, and `Short` exactly where the bytes end
/// within the entry, which they also do where no byte stands there. `Memory` is want of memory for a whole entry.
pub fn decode(
    alloc: Global,
    bytes: &[u8],
    at: usize,
    d: u16,
) -> Result<(Entry, usize), EntryRefused>
    // What is read stands there, and what follows it is at the place that is given.
    ensures stands { IfOk result (λ found. StandsAt d bytes.now at found.0) }
    ensures after { IfOk result (λ found. found.1 ≡ at + length (entry_bytes found.0)) }
    // Each refusal has its cause.
    ensures kind { IsErrOf result EntryRefused.Kind ↔ IsOtherKind bytes.now at }
    ensures short { IsErrOf result EntryRefused.Short ↔ EndsWithin d bytes.now at }
    // An entry that stands there is the one that is read, unless memory runs out.
    ensures only { (entry : Entry) → StandsAt d bytes.now at entry →
        MatchResult result (λ found. found.0 ≡ entry) (λ refused. refused ≡ EntryRefused.Memory alloc_error) }
{
    let kind = kind_at(bytes, at)?;
    let size = kind.size(usize::from(d));
    if bytes.len() - at < size {
        return Err(EntryRefused::Short);
    }
    let entry = entry_at(alloc, kind, bytes, at, d)?;
    Ok((entry, at + size))
}

// The kind of the entry at a place.
fn kind_at(bytes: &[u8], at: usize) -> Result<Kind, EntryRefused>
    ensures { MatchResult result
        (λ kind. (at < length bytes.now) × (kind_byte kind ≡ get_or bytes.now at 0))
        (λ refused. IsNoKind refused bytes.now at) }
{
    let Some(byte) = bytes.get(at) else {
        return Err(EntryRefused::Short);
    };
    Kind::of(*byte).ok_or(EntryRefused::Kind)
}

// The entry of a kind of which all bytes are there.
fn entry_at(alloc: Global, kind: Kind, bytes: &[u8], at: usize, d: u16) -> Result<Entry, AllocError>
    requires kind { kind_byte kind ≡ get_or bytes.now at 0 }
    requires whole { at + kind_size kind d ≤ length bytes.now }
    ensures { IfOk result (λ entry. StandsAt d bytes.now at entry) }
{
    let by = by_at(bytes, at);
    Ok(match kind {
        Kind::Insert => Entry::Insert {
            by,
            tag: number_at(bytes, at),
            vector: vector_at(alloc, bytes, at, d)?,
        },
        Kind::Delete => Entry::Delete {
            by,
            tag: number_at(bytes, at),
        },
        Kind::Begin => Entry::Begin { by },
        Kind::End => Entry::End {
            by,
            segment: number_at(bytes, at),
        },
        Kind::Replace => Entry::Replace {
            by,
            tag: number_at(bytes, at),
            vector: vector_at(alloc, bytes, at, d)?,
        },
    })
}

// Who made the entry.
fn by_at(bytes: &[u8], at: usize) -> u32
    requires { at + 5 ≤ length bytes.now }
    ensures { result ≡ number_of (field bytes.now (at + 1) 4) }
{
    get_u32(bytes, at + 1).unwrap()
}

// The tag or the segment's number of an entry.
fn number_at(bytes: &[u8], at: usize) -> u64
    requires { at + 13 ≤ length bytes.now }
    ensures { result ≡ number_of (field bytes.now (at + 5) 8) }
{
    get_u64(bytes, at + FRONT).unwrap()
}

// The vector of an entry.
fn vector_at(alloc: Global, bytes: &[u8], at: usize, d: u16) -> Result<Vector, AllocError>
    requires { at + 13 + d ≤ length bytes.now }
    ensures { IfOk result (λ vector. vector ≡ field bytes.now (at + 13) d) }
{
    Vector::copy(alloc, &bytes[at + NAMED..at + NAMED + usize::from(d)])
}
