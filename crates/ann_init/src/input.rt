// Reading the bytes of a codebook.
ghost use Rattle.std.specs.Prelude.{◌≤◌, ◌<◌, length, IfOk, IfErr};
ghost use Rattle.ann_fault.specs.Counts.{HasCause};
ghost use Rattle.ann_log.specs.Causes.{HasCauses};
ghost use Rattle.ann_outside.specs.Told.{TellsStill};
ghost use Rattle.ann_types.specs.declared.params.Params.{Params};
ghost use Rattle.ann_init.specs.Input.{ReadsPiece, IsRead, IsUnread};

use crate::refused::InitWhy;
use ann_outside::{Failed, Source};
use std::alloc::Global;

/// The most bytes that are read: one more than the greatest codebook has, whose length is then wrong.
const LIMIT: usize = 262_157;

/// How many bytes are read at once.
const PIECE: usize = 8192;

/// Reads at most `room` bytes into the front of the buffer, and gives their number: 0 exactly at the end of the input.
fn read_piece<S: Source>(input: &mut S, buffer: &mut [u8], room: usize) -> Result<usize, Failed>
    requires some { 0 < room }
    requires fits { room ≤ length buffer.old }
    ensures bound { IfOk result (λ n. n ≤ room) }
    ensures held { IfOk result (λ n. n ≤ length buffer.new) }
    ensures bytes { ReadsPiece (S.left input.old) (S.left input.new) buffer.new result }
    ensures told { TellsStill (S.left input.old) (S.left input.new) }
    ensures cause { HasCause (S.faults input.old) (S.faults input.new) result }
{
    input.read(&mut buffer[..room])
}

/// Reads an input to its end, or until there are 262,157 bytes.
pub(crate) fn read_bytes<S: Source>(alloc: Global, input: &mut S) -> Result<Vec<u8>, InitWhy>
    ensures read { IfOk result (λ bytes. IsRead (S.left input.old) (S.left input.new) bytes.items) }
    ensures unread { (p : Params) → IfErr result (IsUnread p (S.left input.old) (S.left input.new)) }
    ensures told { TellsStill (S.left input.old) (S.left input.new) }
    ensures cause { HasCauses (S.faults input.old) (S.faults input.new) InitWhy.ReadFault result }
{
    let mut bytes = Vec::new(alloc);
    let mut buffer = [0u8; PIECE];
    while bytes.len() < LIMIT {
        let room = PIECE.min(LIMIT - bytes.len());
        match read_piece(input, &mut buffer, room) {
            Err(Failed) => return Err(InitWhy::ReadFault),
            Ok(0) => return Ok(bytes),
            Ok(taken) => bytes.extend_from_slice(&buffer[..taken])?,
        }
    }
    Ok(bytes)
}
