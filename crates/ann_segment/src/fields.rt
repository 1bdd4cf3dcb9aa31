// Sizes and places in a segment.
ghost use Rattle.std.specs.Prelude.{◌≡◌, ◌≤◌, ◌+◌, ◌*◌, ◌<◌, ◌^◌, length};
ghost use Rattle.ann_segment.specs.Directory.{directory_blocks, pid_at};
ghost use Rattle.ann_segment.specs.Opening.{segment_length};

use ann_bytes::get_u32;
use ann_types::Pid;

/// The bytes of a block.
pub(crate) const BLOCK: usize = 4096;

/// How many blocks the directory of so many rows fills, with codes of m bytes.
#[inline]
pub(crate) fn directory_blocks(count: u32, m: u16) -> u64
    requires { m ≤ 64 }
    ensures value { result ≡ directory_blocks count m }
    ensures small { result < 2 ^ 27 }
    ensures room { (count * (4 + m) ≤ 4096 * result) × (4096 * result ≤ count * (4 + m) + 4095) }
{
    (u64::from(count) * (4 + u64::from(m))).div_ceil(4096)
}

/// The bytes of a segment of so many rows, with codes of m bytes.
#[tactic(auto, unfolding(crate::specs::Opening::segment_length))]
pub(crate) fn segment_length(count: u32, m: u16) -> u64
    requires { m ≤ 64 }
    ensures { result ≡ segment_length count m }
{
    4096 * (1 + directory_blocks(count, m) + u64::from(count))
}

/// The Pid in a row of a directory.
#[inline]
#[tactic(auto, unfolding(crate::specs::Directory::pid_at))]
pub(crate) fn pid_at(directory: &[u8], m: u16, row: u32) -> Pid
    requires size { m ≤ 64 }
    requires row { row * (4 + m) + 4 ≤ length directory.now }
    ensures { result ≡ pid_at m directory.now row }
{
    get_u32(directory, row as usize * (4 + usize::from(m))).unwrap_or(0)
}
