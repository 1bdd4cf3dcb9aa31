ghost use Rattle.std.specs.Prelude.{◌≡◌, ◌≤◌, ◌+◌, length, drop};
ghost use Rattle.ann_bytes.specs.LittleEndian.{with_field};
ghost use Rattle.ann_block.specs.Block.{is_zeros, zeros};

// Whether each byte is 0.
//
// The greatest byte is found without a branch, so the compiler takes sixteen bytes at a time.
#[inline]
fn are_zeros(bytes: &[u8]) -> bool
    ensures { result ≡ is_zeros bytes.now }
{
    let mut greatest = 0;
    for byte in bytes {
        greatest = (*byte).max(greatest);
    }
    greatest == 0
}

/// Whether each byte from a place on is 0.
#[inline]
#[tactic(auto, using(std::proofs::lemmas::List::take_rest))]
pub(crate) fn are_zeros_from(bytes: &[u8], at: usize) -> bool
    requires { at ≤ length bytes.now }
    ensures { result ≡ is_zeros (drop at bytes.now) }
{
    are_zeros(&bytes[at..])
}

/// Sets each byte to 0.
pub(crate) fn clear(bytes: &mut [u8])
    ensures { bytes.new ≡ zeros (length bytes.old) }
{
    bytes.fill(0);
}

/// Writes bytes over those from a place on.
pub(crate) fn put_bytes(bytes: &mut [u8], at: usize, new: &[u8])
    requires { at + length new.now ≤ length bytes.old }
    ensures { bytes.new ≡ with_field bytes.old at new.now }
{
    bytes[at..at + new.len()].copy_from_slice(new);
}
