ghost use Rattle.std.specs.Prelude.{◌≡◌, ◌≤◌, true, IfOk, IfSome, Some};
ghost use Rattle.ann_preamble.specs.Preamble.{gate_place, book_place, preamble_of, with_fields, said_by, said_by_found, fields_of, are_sound};
ghost use Rattle.ann_preamble.specs.Reading.{IsSoundIn, IsWrittenIn, IsSaidBefore, HasFronts};

use crate::base::Base;
use crate::fields::read_fields;
use ann_pq::{Codebook, CodebookRefused};
use ann_types::Params;
use std::alloc::{AllocError, Global};

/// The preamble of a log file.
#[derive(Drop)]
pub struct Preamble {
    /// The parameters of the index.
    pub params: Params,
    /// The codebook of its codes.
    pub book: Codebook,
    /// What stood before the entries.
    pub base: Base,
    /// How often the log was written anew, from 1; 0 for a file of version 1.
    pub generation: u64,
}

impl Preamble {
    /// The preamble with which the bytes begin, of either version, or `None` exactly where they begin with none. The only
    /// error is want of memory.
    pub fn read(alloc: Global, bytes: &[u8]) -> Result<Option<Preamble>, AllocError>
        ensures found { IfOk result (λ found. said_by_found found ≡ preamble_of bytes.now) }
        // Its parts go together, and the bytes have its first gate.
        ensures sound { IfOk result (λ found. IfSome found (λ p. IsSoundIn bytes.now (said_by p))) }
        // What is read of version 2 is in the grammar of what is written.
        ensures grammar { IfOk result (λ found.
            IfSome found (λ p. 1 ≤ p.generation → IsWrittenIn bytes.now p)) }
        // Bytes that agree up to the first gate say the same, whatever stands there and behind it.
        ensures before_the_gate { IfOk result (λ found.
            IfSome found (λ p. IsSaidBefore bytes.now (said_by p))) }
        // Where the file is cut it has the same preamble, or none.
        ensures fronts { HasFronts bytes.now }
    {
        preamble_in(alloc, bytes)
    }

    /// The place of the first gate in the file.
    pub fn gate(&self) -> u64
        ensures { result ≡ gate_place self.now.generation self.now.params.d }
    {
        book_at(self.generation) as u64 + 12 + 256 * u64::from(self.params.d)
    }
}

// Where the codebook stands.
fn book_at(generation: u64) -> usize
    ensures { result ≡ book_place generation }
{
    if generation == 0 { 29 } else { 61 }
}

// The preamble with which the bytes begin.
#[tactic(auto, unfolding(crate::specs::Preamble::preamble_of))]
fn preamble_in(alloc: Global, bytes: &[u8]) -> Result<Option<Preamble>, AllocError>
    ensures { IfOk result (λ found. said_by_found found ≡ preamble_of bytes.now) }
{
    let Some(fields) = read_fields(bytes) else {
        return Ok(None);
    };
    let Some(params) = fields.params() else {
        return Ok(None);
    };
    with_book(alloc, bytes, params, fields.base, fields.generation)
}

// The preamble with these fields, where the codebook and the first gate follow them.
fn with_book(
    alloc: Global,
    bytes: &[u8],
    params: Params,
    base: Base,
    generation: u64,
) -> Result<Option<Preamble>, AllocError>
    requires { are_sound (fields_of params base generation) ≡ true }
    ensures { IfOk result (λ found.
        said_by_found found ≡ with_fields bytes.now (Some (fields_of params base generation))) }
{
    let at = book_at(generation);
    let end = at + 12 + 256 * usize::from(params.d);
    if bytes.len() <= end {
        return Ok(None);
    }
    match Codebook::read(alloc, &bytes[at..end], params.d, params.m) {
        Ok(book) => Ok(Some(Preamble {
            params,
            book,
            base,
            generation,
        })),
        Err(CodebookRefused::Memory) => Err(AllocError),
        Err(_) => Ok(None),
    }
}
