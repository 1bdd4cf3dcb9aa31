// Which of two files is the log.
ghost use Rattle.std.specs.Prelude.{◌≡◌};
ghost use Rattle.ann_preamble.specs.Preamble.{said_by_found};
ghost use Rattle.ann_preamble.specs.Choice.{chosen};

use crate::preamble::Preamble;

/// One of the two files of a log.
#[derive(Clone, Copy, Debug, PartialEq, Eq)]
pub enum Side {
    /// The first file.
    First,
    /// The second file.
    Second,
}

/// The file that is the log, by the preambles that the two files have: the one with the greater generation, the first on
/// a tie.
pub fn choose(first: &Option<Preamble>, second: &Option<Preamble>) -> Option<Side>
    ensures { result ≡ chosen (said_by_found first.now) (said_by_found second.now) }
{
    match (first, second) {
        (None, None) => None,
        (None, Some(_)) => Some(Side::Second),
        (Some(_), None) => Some(Side::First),
        (Some(first), Some(second)) => {
            if first.generation < second.generation {
                Some(Side::Second)
            } else {
                Some(Side::First)
            }
        }
    }
}
