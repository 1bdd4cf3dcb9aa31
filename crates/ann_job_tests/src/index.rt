//! Parameters, codebooks and frozen graphs, which the tests share.

ghost use Rattle.std.specs.Prelude.{◌≡◌, ◌≤◌, ◌<◌, ◌+◌, ◌*◌, All, length, IfOk, OnOk};

use ann_frozen::Frozen;
use ann_insert::{PutScratch, put};
use ann_pq::Codebook;
use ann_table::Table;
use ann_types::{Params, Pid};
use std::alloc::{AllocError, Global};
use std::sync::Arc;
use std::test::Fail;

/// The parameters of an index of one or two components, with R of two and codes of a byte for each component.
pub(crate) fn params(d: u16, l_build: u16) -> Result<Params, Fail>
    ensures { IfOk result (λ params. (params.d ≡ d) × (params.m ≡ d)) }
{
    match Params::new(d, 2, l_build, 1, 1, 1, d, 100) {
        Some(params) => Ok(params),
        None => Err("no parameters".into()),
    }
}

// The bytes of a codebook of so many parts of one component. Centroid i of each part is i.
fn centroids(alloc: Global, d: u16) -> Result<Vec<u8>, AllocError> {
    let mut bytes = b"ANNPQ001".to_vec(alloc)?;
    bytes.extend_from_slice(&d.to_le_bytes())?;
    bytes.extend_from_slice(&d.to_le_bytes())?;
    for _ in 0..d {
        for i in 0..=255u8 {
            bytes.push(i)?;
        }
    }
    Ok(bytes)
}

/// That codebook.
pub(crate) fn codebook(alloc: Global, d: u16) -> Result<Arc<Codebook>, Fail>
    requires { (1 ≤ d) × (d ≤ 64) }
    ensures { IfOk result (λ book. (book.value.d ≡ d) × (book.value.m ≡ d)) }
{
    let bytes = centroids(alloc, d)?;
    let book = Codebook::read(alloc, &bytes, d, d)?;
    Ok(Arc::new(alloc, book)?)
}

// The vector of this number among vectors that stand one behind the other.
fn vector_of(components: &[u8], d: u16, number: u32) -> Result<&[u8], Fail>
    ensures { IfOk result (λ vector. length vector.now ≡ d) }
{
    let width = usize::from(d);
    let start = number as usize * width;
    match components.get(start..start + width) {
        Some(vector) => Ok(vector),
        None => Err("no vector".into()),
    }
}

// Puts a point. Its tag is its Pid.
fn put_next(
    table: &mut Table,
    scratch: &mut PutScratch,
    pid: Pid,
    vector: &[u8],
) -> Result<(), AllocError>
    requires width { length vector.now ≡ table.old.params.d }
    requires below { All (λ x. x.pid < pid) table.old.nodes }
    requires small { pid < 4294967295 }
    ensures params { table.new.params ≡ table.old.params }
    ensures below { OnOk result (All (λ x. x.pid < pid + 1) table.new.nodes) }
{
    put(table, scratch, pid, u64::from(pid), vector)
}

/// A frozen graph of the points with the Pids from `first` to `end`, whose vectors stand among these; a point's tag is its Pid.
pub(crate) fn graph(
    alloc: Global,
    params: &Params,
    components: &[u8],
    first: Pid,
    end: Pid,
) -> Result<Arc<Frozen>, Fail>
    ensures { IfOk result (λ graph. graph.value.params ≡ params.now) }
{
    let mut table = Table::new(alloc, params);
    let mut scratch = PutScratch::new(alloc)?;
    for pid in first..end {
        let vector = vector_of(components, params.d, pid)?;
        put_next(&mut table, &mut scratch, pid, vector)?;
    }
    let frozen = Frozen::from_table(alloc, &table)?;
    Ok(Arc::new(alloc, frozen)?)
}

// One component of the generator more.
fn next_component(x: &mut u32) -> u8 {
    *x = x.wrapping_mul(1_103_515_245).wrapping_add(12345) & 0x7FFF_FFFF;
    x.to_le_bytes()[2]
}

/// So many components of the generator.
pub(crate) fn generated(alloc: Global, seed: u32, count: usize) -> Result<Vec<u8>, AllocError> {
    let mut x = seed;
    let mut components = Vec::new(alloc);
    for _ in 0..count {
        components.push(next_component(&mut x))?;
    }
    Ok(components)
}
