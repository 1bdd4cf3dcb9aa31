// Reading a field.
ghost use Rattle.std.specs.Prelude.{◌≡◌, ◌↔◌, ◌+◌, ◌<◌, length, IfOk, IsErr};
ghost use Rattle.ann_bytes.specs.LittleEndian.{number_of, field};

use thiserror::Error;

/// Too few bytes remain at the place.
#[derive(Clone, Copy, Debug, PartialEq, Eq, Error)]
#[error("too few bytes for a field")]
pub struct Short;

/// The number in the two bytes from a place.
pub fn get_u16(bytes: &[u8], at: usize) -> Result<u16, Short>
    ensures value { IfOk result (λ value. value ≡ number_of (field bytes.now at 2)) }
    ensures short { IsErr result ↔ (length bytes.now < at + 2) }
{
    Ok(u16::from_le_bytes(bytes_at(bytes, at)?))
}

/// The number in the four bytes from a place.
pub fn get_u32(bytes: &[u8], at: usize) -> Result<u32, Short>
    ensures value { IfOk result (λ value. value ≡ number_of (field bytes.now at 4)) }
    ensures short { IsErr result ↔ (length bytes.now < at + 4) }
{
    Ok(u32::from_le_bytes(bytes_at(bytes, at)?))
}

/// The number in the eight bytes from a place.
pub fn get_u64(bytes: &[u8], at: usize) -> Result<u64, Short>
    ensures value { IfOk result (λ value. value ≡ number_of (field bytes.now at 8)) }
    ensures short { IsErr result ↔ (length bytes.now < at + 8) }
{
    Ok(u64::from_le_bytes(bytes_at(bytes, at)?))
}

// The bytes of a field.
fn bytes_at<const N: usize>(bytes: &[u8], at: usize) -> Result<[u8; N], Short>
    ensures value { IfOk result (λ value. value ≡ field bytes.now at N) }
    ensures short { IsErr result ↔ (length bytes.now < at + N) }
{
    if at > bytes.len() || bytes.len() - at < N {
        return Err(Short);
    }
    let mut value = [0; N];
    value.copy_from_slice(&bytes[at..at + N]);
    Ok(value)
}
