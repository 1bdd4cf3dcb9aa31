use ann_types::Tag;

/// Why a change is refused.
#[derive(Clone, Copy, Debug, PartialEq, Eq)]
pub enum Refusal {
    /// The vector has `got` components in place of `want`.
    Dimension { got: u32, want: u32 },
    /// All Pids are taken.
    Full,
    /// The tag of an insert is live.
    Present { tag: Tag },
    /// The tag of a delete or of a replace isn't live.
    Absent { tag: Tag },
}
