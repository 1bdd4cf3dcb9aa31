// The name of a list.
use std::marker::Brand;

/// Names one list, so that types speak of it: where its history begins, and the list that it begins with. A session picks
/// these for the history that was opened and the list that opening the log gave.
pub trait ListName {
    ghost use Rattle.ann_types.specs.Lists.{BasedList};
    ghost use Rattle.ann_line.specs.History.{Origin};

    /// Where the history begins.
    ghost origin: { Origin };

    /// The list before the first entry that the keeper adds.
    ghost opening: { BasedList };
}

impl ListName for Brand {
    ghost use Rattle.ann_types.specs.Lists.{empty_list};
    ghost use Rattle.ann_line.specs.History.{no_origin};

    ghost origin = { no_origin };

    ghost opening = { empty_list };
}
