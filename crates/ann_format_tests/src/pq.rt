ghost use Rattle.std.specs.Prelude.{◌≡◌, IfOk};
ghost use Rattle.ann_pq.specs.Codebook.{AreSizes};

use ann_pq::{Codebook, CodebookRefused, Tables};
use std::alloc::{AllocError, Global};
use std::test::Fail;

// The bytes of a codebook. Byte i of its centroids is `i * factor`, of which the mask keeps some bits.
fn bytes_of(alloc: Global, d: u8, m: u8, factor: u8, mask: u8) -> Result<Vec<u8>, AllocError> {
    let mut bytes = b"ANNPQ001".to_vec(alloc)?;
    bytes.extend_from_slice(&[d, 0, m, 0])?;
    for _component in 0..d {
        for i in 0..=255u8 {
            bytes.push(i.wrapping_mul(factor) & mask)?;
        }
    }
    Ok(bytes)
}

// A value that may go to another thread and be shared by several.
fn shared<T: Send + Sync>(value: T) -> T
    ensures { result ≡ value }
{
    value
}

// The codebook of these bytes.
fn read(alloc: Global, bytes: &[u8], d: u16, m: u16) -> Result<Codebook, AllocError>
    requires { AreSizes d m }
    ensures components { IfOk result (λ book. book.d ≡ d) }
    ensures parts { IfOk result (λ book. book.m ≡ m) }
{
    Codebook::read(alloc, bytes, d, m).map_err(|_refused| AllocError)
}

// How a codebook of two components in two parts is refused that ends at a place and has another byte at one.
fn refusal(alloc: Global, end: usize, at: usize) -> Result<Option<CodebookRefused>, AllocError> {
    let mut bytes = bytes_of(alloc, 2, 2, 1, 255)?;
    bytes.resize(end, 0)?;
    if at < bytes.len() {
        bytes[at] ^= 1;
    }
    Ok(Codebook::read(alloc, &bytes, 2, 2).err())
}

const LENGTH: Option<CodebookRefused> = Some(CodebookRefused::Length);

const MAGIC: Option<CodebookRefused> = Some(CodebookRefused::Magic);

const SHAPE: Option<CodebookRefused> = Some(CodebookRefused::Shape);

/// Where a codebook ends, which of its bytes is another, and how it is refused.
const REFUSALS: [(usize, usize, Option<CodebookRefused>); 33] = [
    (524, 524, None),
    (524, 12, None),
    (524, 523, None),
    (0, 524, LENGTH),
    (1, 524, LENGTH),
    (2, 524, LENGTH),
    (3, 524, LENGTH),
    (4, 524, LENGTH),
    (5, 524, LENGTH),
    (6, 524, LENGTH),
    (7, 524, LENGTH),
    (8, 524, LENGTH),
    (9, 524, LENGTH),
    (10, 524, LENGTH),
    (11, 0, LENGTH),
    (12, 524, LENGTH),
    (523, 524, LENGTH),
    (525, 524, LENGTH),
    (524, 0, MAGIC),
    (524, 1, MAGIC),
    (524, 2, MAGIC),
    (524, 3, MAGIC),
    (524, 4, MAGIC),
    (524, 5, MAGIC),
    (524, 6, MAGIC),
    (524, 7, MAGIC),
    (12, 7, MAGIC),
    (524, 8, SHAPE),
    (524, 9, SHAPE),
    (524, 10, SHAPE),
    (524, 11, SHAPE),
    (523, 8, SHAPE),
    (525, 10, SHAPE),
];

// The first row that is refused otherwise.
fn wrong_row(alloc: Global) -> Result<Option<(usize, usize)>, AllocError> {
    for (end, at, wanted) in REFUSALS {
        if refusal(alloc, end, at)? != wanted {
            return Ok(Some((end, at)));
        }
    }
    Ok(None)
}

#[test]
fn bytes_are_refused_for_their_first_fault(rt: HostRuntime) -> Result<(), Fail> {
    assert_eq!(rt; wrong_row(rt.alloc())?, None);
    Ok(())
}

// The first component whose code or distance from 10 is another one. The centroids are multiples of 16, each 16 times.
fn wrong_component(book: &Codebook, tables: &mut Tables) -> Option<u8>
    requires sizes { (book.now.d ≡ 1) × (book.now.m ≡ 1) }
{
    tables.fill(book, &[10]);
    for (component, wanted, distance) in [
        (8, 0, 100),
        (9, 16, 36),
        (10, 16, 36),
        (255, 240, 52900),
    ] {
        let mut code = [0];
        book.code(&[component], &mut code);
        if code[0] != wanted || tables.distance(&code) != distance {
            return Some(component);
        }
    }
    None
}

#[test]
fn a_tie_goes_to_the_first_centroid(rt: HostRuntime) -> Result<(), Fail> {
    let bytes = bytes_of(rt.alloc(), 1, 1, 1, 0xf0)?;
    let book = read(rt.alloc(), &bytes, 1, 1)?;
    let mut tables = Tables::with_room(rt.alloc())?;
    assert_eq!(rt; wrong_component(&book, &mut tables), None);
    Ok(())
}

// Whether the codebook of two parts of three components codes, decodes and measures as worked out by hand.
fn is_in_two_parts(book: &Codebook, tables: &mut Tables) -> bool
    requires sizes { (book.now.d ≡ 6) × (book.now.m ≡ 2) }
{
    let mut code = [0; 2];
    book.code(&[200, 10, 99, 0, 255, 128], &mut code);
    let mut decoded = [0; 6];
    book.decode(&code, &mut decoded);
    tables.fill(book, &[9, 8, 7, 6, 5, 4]);
    code == [99, 213]
        && decoded == [237, 18, 55, 91, 128, 165]
        && tables.distance(&code) == 102_663
        && book.d() == 6
        && book.m() == 2
}

#[test]
fn parts_follow_each_other(rt: HostRuntime) -> Result<(), Fail> {
    let bytes = bytes_of(rt.alloc(), 6, 2, 37, 255)?;
    let book = shared(read(rt.alloc(), &bytes, 6, 2)?.copy()?);
    let mut tables = shared(Tables::with_room(rt.alloc())?);
    assert!(rt; is_in_two_parts(&book, &mut tables) && book.bytes() == bytes.as_slice());
    Ok(())
}
