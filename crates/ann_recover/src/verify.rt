// Reading the node blocks of a segment through.
ghost use Rattle.std.specs.Prelude.{◌≡◌, Some, length, OnOk, IfErr};
ghost use Rattle.ann_vault.specs.Counted.{CountsFault};
ghost use Rattle.ann_recover.specs.Verified.{AreRight, IsAllRight, IsWrong};

use crate::refused::RecoverWhy;
use ann_pq::Codebook;
use ann_segment::Segment;
use ann_types::Params;
use ann_vault::{Eye, Sealed};

/// Reads all node blocks of a segment: each is to be in the format, and the code of its vector the directory's. Without a
/// segment nothing is read.
///
/// # Errors
///
/// `BadSegment` with the first block at fault, or `Disk` where the eye failed.
pub(crate) fn verify<S: Sealed, E: Eye<Seal = S>>(
    segment: &Option<Segment<S>>,
    eye: &mut E,
    book: &Codebook,
    params: &Params,
) -> Result<(), RecoverWhy>
    ensures right { S.tells → OnOk result (IsAllRight S.bytes segment.now book.now params.now) }
    ensures wrong { IfErr result (IsWrong S.tells S.bytes segment.now book.now params.now) }
    ensures cause { CountsFault (λ why. why ≡ RecoverWhy.Disk) result (E.faults eye.old) (E.faults eye.new) }
{
    match segment {
        None => Ok(()),
        Some(segment) => verify_rows(segment, eye, book, params),
    }
}

// Reads all node blocks of a segment.
fn verify_rows<S: Sealed, E: Eye<Seal = S>>(
    segment: &Segment<S>,
    eye: &mut E,
    book: &Codebook,
    params: &Params,
) -> Result<(), RecoverWhy>
    ensures right { S.tells → OnOk result (AreRight
        segment.now book.now params.now (S.bytes segment.now.seal) (length segment.now.items)) }
    ensures wrong { IfErr result (IsWrong S.tells S.bytes (Some segment.now) book.now params.now) }
    ensures cause { CountsFault (λ why. why ≡ RecoverWhy.Disk) result (E.faults eye.old) (E.faults eye.new) }
{
    let mut page = [0; 4096];
    for row in 0..segment.count() {
        segment.verify(row, book, params, eye, &mut page)?;
    }
    Ok(())
}
