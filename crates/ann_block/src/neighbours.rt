ghost use Rattle.std.specs.Prelude.{◌≡◌, ◌≤◌, ◌+◌, ◌*◌, length, map, drop, OnOk, IfErr, None, Some};
ghost use Rattle.std.specs.List.{flat_map};
ghost use Rattle.ann_bytes.specs.LittleEndian.{number_of, bytes_of, with_field};
ghost use Rattle.ann_block.specs.Block.{first_broken};
ghost use Rattle.ann_block.specs.Node.{neighbour_rules, numbers_in};

use crate::refused::BlockRefused;
use ann_bytes::put_u32;

/// The number in four bytes.
#[inline(always)]
pub(crate) fn number(bytes: [u8; 4]) -> u32
    ensures { result ≡ number_of bytes }
{
    u32::from_le_bytes(bytes)
}

/// So many fields of four bytes from a place on.
#[inline(always)]
pub(crate) fn rows_at(block: &[u8], at: usize, count: usize) -> &[[u8; 4]]
    requires { at + 4 * count ≤ length block.now }
    ensures numbers { map number_of result.now ≡ numbers_in count (drop at block.now) }
    ensures count { length result.now ≡ count }
{
    block[at..at + 4 * count].as_chunks().0
}

/// Tests the neighbours of the point in a row, four bytes each.
#[inline]
pub(crate) fn test_neighbours(
    neighbours: &[[u8; 4]],
    row: u32,
    count: u32,
) -> Result<(), BlockRefused>
    ensures ok { OnOk result
        (first_broken (neighbour_rules row count (map number_of neighbours.now)) ≡ None) }
    ensures err { IfErr result (λ why.
        first_broken (neighbour_rules row count (map number_of neighbours.now)) ≡ Some why) }
{
    let mut ascending = true;
    let mut least = 0;
    for bytes in neighbours {
        let neighbour = number(*bytes);
        if neighbour == row || neighbour >= count {
            return Err(BlockRefused::Number);
        }
        ascending = ascending && neighbour >= least;
        least = neighbour + 1;
    }
    if ascending {
        Ok(())
    } else {
        Err(BlockRefused::Order)
    }
}

/// Writes the neighbours from a place on, four bytes each.
pub(crate) fn put_neighbours(block: &mut [u8], at: usize, neighbours: &[u32])
    requires { at + 4 * length neighbours.now ≤ length block.old }
    ensures written { block.new ≡ with_field block.old at (flat_map (bytes_of 4) neighbours.now) }
{
    for i in 0..neighbours.len() {
        put_u32(block, at + 4 * i, neighbours[i]);
    }
}
