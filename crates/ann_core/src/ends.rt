// What a list of entries names.
ghost use Rattle.std.specs.Prelude.{◌≡◌};
ghost use Rattle.std.specs.List.{list_any};
ghost use Rattle.ann_laws.specs.Replays.{is_end};
ghost use Rattle.ann_core_laws.specs.State.{last_end};
ghost use Rattle.ann_core_laws.specs.Events.{is_begin};

use ann_types::Entry;

/// The segment of the last End, if there is one.
pub(crate) fn last_end_of(entries: &[Entry]) -> Option<u64>
    ensures { result ≡ last_end entries.now }
{
    let mut last = None;
    for entry in entries {
        if let Entry::End { segment, .. } = entry {
            last = Some(*segment);
        }
    }
    last
}

/// Whether an End is among some entries.
pub(crate) fn has_end(entries: &[Entry]) -> bool
    ensures { result ≡ list_any is_end entries.now }
{
    for entry in entries {
        if let Entry::End { .. } = entry {
            return true;
        }
    }
    false
}

/// Whether a Begin is among some entries.
pub(crate) fn has_begin(entries: &[Entry]) -> bool
    ensures { result ≡ list_any is_begin entries.now }
{
    for entry in entries {
        if let Entry::Begin { .. } = entry {
            return true;
        }
    }
    false
}
