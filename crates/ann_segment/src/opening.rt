// Reading the header and the directory of a segment.
ghost use Rattle.std.specs.Prelude.{◌≡◌, ◌≢◌, ◌≤◌, ◌<◌, ◌+◌, ◌-◌, ◌*◌, ◌⊎◌, ℕ, length, OnOk, OnErr, IfOk, IfErr, IfSome, None, MatchOption, MatchResult, IsTrue, Any, ◌↔◌};
ghost use Rattle.ann_fault.specs.Counts.{next_count};
ghost use Rattle.ann_vault.specs.Counted.{CountsFault};
ghost use Rattle.ann_vault.specs.Reads.{more_reads};
ghost use Rattle.ann_block.specs.Header.{IsHeader, header_of};
ghost use Rattle.ann_segment.specs.Directory.{AreRising, directory_blocks, items_in, pid_at, RiseBefore};
ghost use Rattle.ann_segment.specs.Opening.{segment_length, IsHeaderFor, IsFirstBlock, BeginsWell, header_in, directory_in, IsDirectory, IsFirstRefused, IsRefusal, IsFrontFor, IsFrontOf, HasRead};
ghost use Rattle.ann_segment.specs.declared.refused.SegmentRefused.TheVariants.{Disk, Memory, BadSegment};

use crate::SegmentRefused;
use crate::fields::{BLOCK, directory_blocks, pid_at, segment_length};
use ann_block::{Header, read_header};
use ann_types::Params;
use ann_vault::{Eye, Sealed};
use std::alloc::Global;

// What stands before the nodes: the header, and the directory with the zeros behind it.
#[derive(Drop)]
pub(crate) struct Front {
    pub(crate) header: Header,
    pub(crate) directory: Vec<u8>,
}

/// Reads the header and the directory of a segment.
pub(crate) fn read_front<S: Sealed, E: Eye<Seal = S>>(
    alloc: Global,
    seal: &S,
    number: u64,
    params: &Params,
    eye: &mut E,
) -> Result<Front, SegmentRefused>
    ensures front { IfOk result (λ front. IsFrontFor number params.now front.header front.directory.items) }
    ensures told { S.tells → MatchResult result
        (λ front. IsFrontOf number params.now (S.bytes seal.now) front.header front.directory.items)
        (IsRefusal number params.now (S.bytes seal.now)) }
    ensures reads { HasRead (λ why. why) result (E.reads eye.old) (E.reads eye.new) }
    ensures cause { CountsFault (λ why. why ≡ Disk) result (E.faults eye.old) (E.faults eye.new) }
{
    let header = read_first(seal, number, params, eye)?;
    let directory = read_directory(alloc, seal, &header, eye)?;
    match refused_block(&directory, header.count, header.m) {
        None => Ok(Front { header, directory }),
        Some(block) => Err(SegmentRefused::BadSegment { block }),
    }
}

// Reads the header block.
fn read_first<S: Sealed, E: Eye<Seal = S>>(
    seal: &S,
    number: u64,
    params: &Params,
    eye: &mut E,
) -> Result<Header, SegmentRefused>
    ensures header { IfOk result (λ header. IsHeader header × IsHeaderFor number params.now header) }
    ensures told { S.tells → IfOk result (λ header.
        BeginsWell number params.now (S.bytes seal.now) × (header ≡ header_in (S.bytes seal.now))) }
    ensures bad { S.tells → IfErr result
        (λ why. why ≡ BadSegment 0 → BeginsWell number params.now (S.bytes seal.now) → ⊥) }
    ensures refused { IfErr result (λ why. (why ≡ Disk) ⊎ (why ≡ BadSegment 0)) }
    ensures reads { (n : ℕ) × (n ≤ 1) × OnOk result (n ≡ 1)
        × (E.reads eye.new ≡ more_reads n (E.reads eye.old)) }
    ensures cause { CountsFault (λ why. why ≡ Disk) result (E.faults eye.old) (E.faults eye.new) }
{
    let long = eye.length(seal)?;
    if long < BLOCK as u64 {
        return Err(SegmentRefused::BadSegment { block: 0 });
    }
    let mut block = [0; BLOCK];
    eye.read(seal, 0, &mut block)?;
    match expected_header(&block, long, number, params) {
        Some(header) => Ok(header),
        None => Err(SegmentRefused::BadSegment { block: 0 }),
    }
}

// The header in a block, where it is that of the expected segment.
fn expected_header(block: &[u8], long: u64, number: u64, params: &Params) -> Option<Header>
    ensures { MatchOption result
        (IsFirstBlock number params.now long block.now → ⊥)
        (λ header. IsFirstBlock number params.now long block.now
        × (header ≡ header_of block.now) × IsHeader header) }
{
    let Ok(header) = read_header(block) else {
        return None;
    };
    if is_expected(&header, number, params) && long == segment_length(header.count, header.m) {
        Some(header)
    } else {
        None
    }
}

// The header has the expected number and sizes.
fn is_expected(header: &Header, number: u64, params: &Params) -> bool
    ensures { IsTrue result ↔ IsHeaderFor number params.now header.now }
{
    header.number == number && header.d == params.d && header.r == params.r && header.m == params.m
}

// Reads the directory blocks.
#[tactic(auto, unfolding(crate::specs::Opening::segment_length))]
fn read_directory<S: Sealed, E: Eye<Seal = S>>(
    alloc: Global,
    seal: &S,
    header: &Header,
    eye: &mut E,
) -> Result<Vec<u8>, SegmentRefused>
    requires header { IsHeader header.now }
    requires long { S.tells → length (S.bytes seal.now) ≡ segment_length header.now.count header.now.m }
    ensures rows { IfOk result
        (λ directory. length directory.items ≡ 4096 * directory_blocks header.now.count header.now.m) }
    ensures told { S.tells → IfOk result
        (λ directory. directory.items ≡ directory_in header.now (S.bytes seal.now)) }
    ensures refused { IfErr result (λ why. (why ≡ Disk) ⊎ (why ≡ Memory)) }
    ensures read { OnOk result (E.reads eye.new ≡ next_count (E.reads eye.old)) }
    ensures unread { OnErr result (E.reads eye.new ≡ E.reads eye.old) }
    ensures cause { CountsFault (λ why. why ≡ Disk) result (E.faults eye.old) (E.faults eye.new) }
{
    let size = BLOCK * directory_blocks(header.count, header.m) as usize;
    let mut directory = vec![in alloc; 0; size]?;
    eye.read(seal, BLOCK as u64, &mut directory)?;
    Ok(directory)
}

// The first directory block that the format refuses, as a block of the segment.
fn refused_block(directory: &[u8], count: u32, m: u16) -> Option<u64>
    requires size { m ≤ 64 }
    requires rows { length directory.now ≡ 4096 * directory_blocks count m }
    ensures found { MatchOption result
        (IsDirectory m count directory.now) (IsFirstRefused m count directory.now) }
    ensures rising { result ≡ None → AreRising (items_in m count directory.now) }
    ensures behind { IfSome result (λ block. 1 ≤ block) }
{
    let size = 4 + u64::from(m);
    if let Some(row) = first_fall(directory, count, m) {
        return Some(1 + u64::from(row) * size / BLOCK as u64);
    }
    let end = u64::from(count) * size;
    if has_other_than_zeros(&directory[end as usize..]) {
        return Some(directory_blocks(count, m));
    }
    None
}

// One of the bytes isn't 0.
fn has_other_than_zeros(bytes: &[u8]) -> bool
    ensures { IsTrue result ↔ Any (λ byte. byte ≢ 0) bytes.now }
{
    bytes.iter().any(|&byte| byte != 0)
}

// The first row whose Pid isn't above the one before.
#[tactic(auto, using(crate::proofs::Rows::row_within))]
fn first_fall(directory: &[u8], count: u32, m: u16) -> Option<u32>
    requires size { m ≤ 64 }
    requires rows { count * (4 + m) ≤ length directory.now }
    ensures none { result ≡ None → RiseBefore m directory.now count }
    ensures below { IfSome result (λ fall. (1 ≤ fall) × (fall < count)) }
    ensures falls { IfSome result (λ fall. pid_at m directory.now fall ≤ pid_at m directory.now (fall - 1)) }
    ensures first { IfSome result (RiseBefore m directory.now) }
{
    for row in 1..count {
        if pid_at(directory, m, row) <= pid_at(directory, m, row - 1) {
            return Some(row);
        }
    }
    None
}
