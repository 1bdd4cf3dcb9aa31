// The name of what is shown.
use ann_line::ListName;
use std::marker::Brand;

/// Names one list with the index whose entries it has, so that types speak of both. A session picks these for what was
/// opened.
pub trait ViewName: ListName {
    ghost use Rattle.ann_types.specs.Index.{Index};

    /// The parameters and the codebook.
    ghost index: { Index };

    /// Whether the place was sound when it was opened, and tells what it holds: each segment that the list names then
    /// holds the graph of the list.
    ghost sound: { Type 0 };
}

impl ViewName for Brand {
    ghost use Rattle.ann_shown.specs.Unnamed.{no_index};

    ghost index = { no_index };

    ghost sound = { ⊥ };
}
