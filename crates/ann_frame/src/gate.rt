// The byte of a gate, or of the made byte of a file.

/// What stands behind it counts.
pub const OPEN: u8 = 1;

/// What stands behind it doesn't count. Every other byte than `OPEN` says the same.
pub const SHUT: u8 = 0;
