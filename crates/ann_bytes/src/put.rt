// Writing a field.
ghost use Rattle.std.specs.Prelude.{◌≡◌, ◌+◌, ◌≤◌, length};
ghost use Rattle.ann_bytes.specs.LittleEndian.{number_of, bytes_of, field, with_field};

/// Writes a number into the two bytes from a place.
pub fn put_u16(bytes: &mut [u8], at: usize, value: u16)
    requires { at + 2 ≤ length bytes.old }
    ensures written { bytes.new ≡ with_field bytes.old at (bytes_of 2 value) }
    // What was put is got again.
    ensures read_back { number_of (field bytes.new at 2) ≡ value }
{
    bytes[at..at + 2].copy_from_slice(&value.to_le_bytes());
}

/// Writes a number into the four bytes from a place.
pub fn put_u32(bytes: &mut [u8], at: usize, value: u32)
    requires { at + 4 ≤ length bytes.old }
    ensures written { bytes.new ≡ with_field bytes.old at (bytes_of 4 value) }
    // What was put is got again.
    ensures read_back { number_of (field bytes.new at 4) ≡ value }
{
    bytes[at..at + 4].copy_from_slice(&value.to_le_bytes());
}

/// Writes a number into the eight bytes from a place.
pub fn put_u64(bytes: &mut [u8], at: usize, value: u64)
    requires { at + 8 ≤ length bytes.old }
    ensures written { bytes.new ≡ with_field bytes.old at (bytes_of 8 value) }
    // What was put is got again.
    ensures read_back { number_of (field bytes.new at 8) ≡ value }
{
    bytes[at..at + 8].copy_from_slice(&value.to_le_bytes());
}
