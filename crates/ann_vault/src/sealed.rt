// What a seal tells.
ghost use Rattle.std.specs.Prelude.{List, ℕ};

/// A seal: bytes under a number, kept for as long as the seal is held.
///
/// A type of seal either tells what its seals are, or tells nothing. With it stands what the vaults and the eyes of such
/// seals tell.
pub trait Sealed: Drop {
    /// Whether seals of this type tell.
    ghost tells: { Type 0 };

    /// Under which number the bytes stand.
    ghost number: { Self → ℕ };

    /// The bytes that were sealed.
    ghost bytes: { Self → List ℕ };
}
