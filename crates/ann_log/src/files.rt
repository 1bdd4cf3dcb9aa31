ghost use Rattle.std.specs.Prelude.{◌≡◌};
ghost use Rattle.ann_log.specs.LogView.{files_in};

use ann_preamble::Side;

/// The two files of a log.
#[derive(Debug, Drop)]
pub struct Files<F> {
    /// The first file, which is the log on a tie.
    pub first: F,
    /// The second file.
    pub second: F,
}

// The files of which the one on this side is the log.
pub(crate) fn files_in<F>(side: Side, log: F, other: F) -> Files<F>
    ensures { result ≡ files_in side log other }
{
    match side {
        Side::First => Files {
            first: log,
            second: other,
        },
        Side::Second => Files {
            first: other,
            second: log,
        },
    }
}

// The file that is the log, and the other one.
pub(crate) fn parted<F>(side: Side, files: Files<F>) -> (F, F)
    ensures { files_in side result.0 result.1 ≡ files }
{
    let Files { first, second } = files;
    match side {
        Side::First => (first, second),
        Side::Second => (second, first),
    }
}
