//! The kinds of entries, and what each has.

ghost use Rattle.std.specs.Prelude.{◌≡◌, ◌<◌, ◌≤◌, ◌^◌, MatchOption};
ghost use Rattle.ann_entry.specs.Kinds.{kind_byte, kind_size};

/// Bytes of the kind and of who made the entry.
pub(crate) const FRONT: usize = 5;

/// Bytes of the kind, of who made the entry, and of a tag or a segment's number.
pub(crate) const NAMED: usize = 13;

/// The kind of an entry.
#[derive(Clone, Copy, Debug, PartialEq, Eq)]
pub(crate) enum Kind {
    Insert,
    Delete,
    Begin,
    End,
    Replace,
}

impl Kind {
    /// The kind of this byte, or `None` exactly where it is none of 1 to 5.
    pub(crate) fn of(byte: u8) -> Option<Kind>
        ensures { MatchOption result ((1 ≤ byte) × (byte ≤ 5) → ⊥) (λ kind. kind_byte kind ≡ byte) }
    {
        match byte {
            1 => Some(Kind::Insert),
            2 => Some(Kind::Delete),
            3 => Some(Kind::Begin),
            4 => Some(Kind::End),
            5 => Some(Kind::Replace),
            _ => None,
        }
    }

    /// The byte of the kind.
    pub(crate) fn byte(self) -> u8
        ensures { result ≡ kind_byte self }
    {
        match self {
            Kind::Insert => 1,
            Kind::Delete => 2,
            Kind::Begin => 3,
            Kind::End => 4,
            Kind::Replace => 5,
        }
    }

    /// How many bytes an entry of the kind has, where vectors have so many components.
    pub(crate) fn size(self, components: usize) -> usize
        requires { components < 2 ^ 32 }
        ensures { result ≡ kind_size self components }
    {
        match self {
            Kind::Insert | Kind::Replace => NAMED + components,
            Kind::Delete | Kind::End => NAMED,
            Kind::Begin => FRONT,
        }
    }
}
