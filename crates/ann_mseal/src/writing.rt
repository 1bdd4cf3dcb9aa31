// Node blocks are appended to a segment.
ghost use Rattle.std.specs.Prelude.{◌≡◌, ◌≤◌, ◌+◌, ◌*◌, ◌%◌, length, All, OnOk, IfErr};
ghost use Rattle.std.specs.List.{concat};
ghost use Rattle.ann_fault.specs.Counts.{HasCause};
ghost use Rattle.ann_segment.specs.Writer.{KeepsRest};
ghost use Rattle.ann_segment.specs.declared.refused.SegmentRefused.TheVariants.{Disk};
ghost use Rattle.ann_mseal.specs.Written.{HasAppended, HasRows, IsSameSegment};

use ann_mpatch::PieceBlocks;
use ann_segment::{SegmentRefused, SegmentWriter};
use ann_vault::Vault;

/// Appends node blocks of 4096 bytes each.
///
/// # Errors
///
/// `Disk`. The writer is then only good for being dropped.
fn write_blocks<V: Vault>(
    vault: &mut V,
    writer: &mut SegmentWriter<V::Draft>,
    blocks: &[u8],
) -> Result<(), SegmentRefused>
    requires whole { length blocks.now % 4096 ≡ 0 }
    requires more { 4096 * writer.old.written + length blocks.now ≤ 4096 * writer.old.header.count }
    requires current { V.Seal.tells → V.is_current vault.old writer.old.draft }
    ensures same { IsSameSegment writer.old writer.new }
    ensures rows { OnOk result (HasRows blocks.now writer.old writer.new) }
    ensures draft { V.Seal.tells → OnOk result (HasAppended V.is_current V.draft_number V.draft_bytes
        blocks.now vault.new writer.old.draft writer.new.draft) }
    ensures rest { V.Seal.tells → KeepsRest V.is_current V.draft_number V.held
        (V.draft_number writer.old.draft) vault.old vault.new }
    ensures refused { IfErr result (λ why. why ≡ Disk) }
    ensures cause { HasCause (V.faults vault.old) (V.faults vault.new) result }
{
    for i in 0..blocks.len() / 4096 {
        writer.node(vault, &blocks[4096 * i..4096 * i + 4096])?;
    }
    Ok(())
}

/// Appends the node blocks of pieces, one piece after the other.
///
/// # Errors
///
/// `Disk`. The writer is then only good for being dropped.
pub(crate) fn write_pieces<V: Vault>(
    vault: &mut V,
    writer: &mut SegmentWriter<V::Draft>,
    pieces: &[PieceBlocks],
) -> Result<(), SegmentRefused>
    requires whole { All (λ blocks. length blocks % 4096 ≡ 0) pieces.now }
    requires more { 4096 * writer.old.written + length (concat pieces.now)
        ≤ 4096 * writer.old.header.count }
    requires current { V.Seal.tells → V.is_current vault.old writer.old.draft }
    ensures same { IsSameSegment writer.old writer.new }
    ensures rows { OnOk result (HasRows (concat pieces.now) writer.old writer.new) }
    ensures draft { V.Seal.tells → OnOk result (HasAppended V.is_current V.draft_number V.draft_bytes
        (concat pieces.now) vault.new writer.old.draft writer.new.draft) }
    ensures rest { V.Seal.tells → KeepsRest V.is_current V.draft_number V.held
        (V.draft_number writer.old.draft) vault.old vault.new }
    ensures refused { IfErr result (λ why. why ≡ Disk) }
    ensures cause { HasCause (V.faults vault.old) (V.faults vault.new) result }
{
    for piece in pieces {
        write_blocks(vault, writer, piece.bytes())?;
    }
    Ok(())
}
