// A codebook's bytes from an input.
ghost use Rattle.std.specs.Prelude.{◌≡◌, Some, None, IfOk, IfErr};
ghost use Rattle.ann_log.specs.Causes.{HasCauses};
ghost use Rattle.ann_outside.specs.Told.{TellsStill};
ghost use Rattle.ann_pq.specs.Format.{fault};
ghost use Rattle.ann_init.specs.Input.{named_by, ReadsBook, IsUnread, IsFaulty};

use crate::input::read_bytes;
use crate::refused::{BookFault, InitWhy};
use ann_outside::Source;
use ann_pq::{Codebook, CodebookRefused};
use ann_types::Params;
use std::alloc::Global;

/// Tests whether bytes are a codebook of these parameters.
fn test(alloc: Global, params: &Params, bytes: &[u8]) -> Result<(), InitWhy>
    ensures { IsFaulty (fault params.now.d params.now.m bytes.now) result }
{
    match Codebook::read(alloc, bytes, params.d, params.m) {
        Ok(_) => Ok(()),
        Err(CodebookRefused::Length) => Err(InitWhy::BadBook(BookFault::Length)),
        Err(CodebookRefused::Magic) => Err(InitWhy::BadBook(BookFault::Magic)),
        Err(CodebookRefused::Shape) => Err(InitWhy::BadBook(BookFault::Shape)),
        Err(CodebookRefused::Memory) => Err(InitWhy::Memory),
    }
}

/// Reads an input that is a codebook of these parameters.
pub(crate) fn read_book<S: Source>(
    alloc: Global,
    input: &mut S,
    params: &Params,
) -> Result<Vec<u8>, InitWhy>
    ensures read { IfOk result (λ bytes.
        ReadsBook params.now (S.left input.old) (S.left input.new) bytes.items) }
    ensures unread { IfErr result (IsUnread params.now (S.left input.old) (S.left input.new)) }
    ensures told { TellsStill (S.left input.old) (S.left input.new) }
    ensures cause { HasCauses (S.faults input.old) (S.faults input.new) InitWhy.ReadFault result }
{
    let bytes = read_bytes(alloc, input)?;
    test(alloc, params, &bytes)?;
    Ok(bytes)
}
