ghost use Rattle.std.specs.Prelude.{◌≡◌, ◌≤◌, ◌%◌, length, IfOk, IfErr, None, Some, Ok};
ghost use Rattle.ann_bytes.specs.LittleEndian.{with_field};
ghost use Rattle.ann_block.specs.Header.{IsHeader, header_bytes, header_of, judge_header, are_limits, may_enter, is_shape, fields_in, header_with};

use crate::bytes::{are_zeros_from, clear, put_bytes};
use crate::refused::BlockRefused;
use ann_bytes::{get_u16, get_u32, get_u64, put_u16, put_u32, put_u64};

const MAGIC: [u8; 8] = *b"ANNSEG01";

/// What the header block of a segment says.
#[derive(Clone, Copy, Debug, PartialEq, Eq)]
pub struct Header {
    /// The segment's number.
    pub number: u64,
    /// Components of a vector: 1 to 1024, a multiple of `m`.
    pub d: u16,
    /// The greatest number of neighbours of a point: 2 to 128.
    pub r: u16,
    /// Bytes of a code: 1 to 64.
    pub m: u16,
    /// How many points the segment has, a row each.
    pub count: u32,
    /// The row of the entry, at which walks begin (the medoid of DiskANN, section 2.3); none where there is no point.
    pub start_row: Option<u32>,
}

/// Writes a header block.
pub fn write_header(header: &Header, block: &mut [u8])
    requires header { IsHeader header.now }
    requires block { length block.old ≡ 4096 }
    ensures written { block.new ≡ header_bytes header.now }
    // What was written is read again.
    ensures accepted { judge_header block.new ≡ None }
    ensures read_back { header_of block.new ≡ header.now }
{
    let Header {
        number,
        d,
        r,
        m,
        count,
        start_row,
    } = *header;
    clear(block);
    put_bytes(block, 0, &MAGIC);
    put_u64(block, 8, number);
    put_u16(block, 16, d);
    put_u16(block, 18, r);
    put_u16(block, 20, m);
    put_u16(block, 22, 0);
    put_u32(block, 24, count);
    put_u32(block, 28, start_row.unwrap_or(u32::MAX));
}

/// Reads a header block, or says which rule it breaks first: `Length`, `Magic`, `Shape` or `Padding`.
pub fn read_header(block: &[u8]) -> Result<Header, BlockRefused>
    ensures read { IfOk result (λ header. (judge_header block.now ≡ None) × (header ≡ header_of block.now)) }
    ensures refused { IfErr result (λ why. judge_header block.now ≡ Some why) }
    // What is read is in the format.
    ensures grammar { IfOk result (λ header. block.now ≡ header_bytes header) }
    ensures sound { IfOk result IsHeader }
{
    judged_header(block)
}

// Reads a header block by the tests alone.
#[tactic(auto, unfolding(crate::specs::Header::judge_header, crate::specs::Header::header_of))]
fn judged_header(block: &[u8]) -> Result<Header, BlockRefused>
    ensures read { IfOk result (λ header. (judge_header block.now ≡ None) × (header ≡ header_of block.now)) }
    ensures refused { IfErr result (λ why. judge_header block.now ≡ Some why) }
{
    if block.len() != 4096 {
        return Err(BlockRefused::Length);
    }
    if block[..8] != MAGIC[..] {
        return Err(BlockRefused::Magic);
    }
    let fields = header_fields(block)?;
    if !has_shape(fields) {
        return Err(BlockRefused::Shape);
    }
    if !are_zeros_from(block, 32) {
        return Err(BlockRefused::Padding);
    }
    Ok(header_in(fields))
}

// The fields of a header block, as they stand.
#[derive(Clone, Copy)]
struct HeaderFields {
    number: u64,
    d: u16,
    r: u16,
    m: u16,
    zero: u16,
    count: u32,
    entry: u32,
}

#[tactic(auto, unfolding(crate::specs::Header::fields_in))]
fn header_fields(block: &[u8]) -> Result<HeaderFields, BlockRefused>
    requires { length block.now ≡ 4096 }
    ensures { result ≡ Ok (fields_in block.now) }
{
    Ok(HeaderFields {
        number: get_u64(block, 8)?,
        d: get_u16(block, 16)?,
        r: get_u16(block, 18)?,
        m: get_u16(block, 20)?,
        zero: get_u16(block, 22)?,
        count: get_u32(block, 24)?,
        entry: get_u32(block, 28)?,
    })
}

fn has_shape(fields: HeaderFields) -> bool
    ensures { result ≡ is_shape fields }
{
    has_limits(fields.d, fields.r, fields.m)
        && fields.zero == 0
        && is_entry(fields.count, fields.entry)
}

// The sizes are within the limits of an index's parameters.
fn has_limits(d: u16, r: u16, m: u16) -> bool
    ensures { result ≡ are_limits d r m }
{
    1 <= m && m <= 64 && 1 <= d && d <= 1024 && d % m == 0 && 2 <= r && r <= 128
}

// The field of the entry is a row, or the number that stands for none where there is no row.
fn is_entry(count: u32, entry: u32) -> bool
    ensures { result ≡ may_enter count entry }
{
    if count == 0 {
        entry == u32::MAX
    } else {
        entry < count
    }
}

fn header_in(fields: HeaderFields) -> Header
    ensures { result ≡ header_with fields }
{
    Header {
        number: fields.number,
        d: fields.d,
        r: fields.r,
        m: fields.m,
        count: fields.count,
        start_row: if fields.count == 0 {
            None
        } else {
            Some(fields.entry)
        },
    }
}
