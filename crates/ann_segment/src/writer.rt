// Writing a segment into a draft of a vault.
ghost use Rattle.std.specs.Prelude.{◌≡◌, ◌⊎◌, ◌<◌, ◌+◌, ◌*◌, ◌++◌, ◌^◌, None, length, IfOk, IfErr, MatchResult};
ghost use Rattle.std.specs.FinMap as map;
ghost use Rattle.ann_fault.specs.Counts.{HasCause};
ghost use Rattle.ann_vault.specs.Counted.{CountsFault};
ghost use Rattle.ann_vault.specs.Drafts.{KeepsOthers};
ghost use Rattle.ann_vault.specs.Held.{MayBeSealed};
ghost use Rattle.ann_block.specs.Header.{IsHeader, header_bytes};
ghost use Rattle.ann_segment.specs.Directory.{blocks_of, filled};
ghost use Rattle.ann_segment.specs.Writer.{AreFront, HasBegun, HasFront, HasMore, HasRow, IsDraftOf, IsWritten, KeepsRest, SealsText, IsSealedFrom};
ghost use Rattle.ann_segment.specs.declared.refused.SegmentRefused.TheVariants.{Disk, Memory};

use crate::fields::BLOCK;
use crate::{Directory, Segment, SegmentRefused};
use ann_block::{Header, write_header};
use ann_vault::{Failed, Vault};
use std::marker::Model;

/// A segment that is being written, block by block, into a draft of a vault.
#[derive(Drop)]
pub struct SegmentWriter<D: Drop> {
    header: Header,
    directory: Vec<u8>,
    written: u32,
    draft: D,
}

impl<D: Drop> Model for SegmentWriter<D> {
    ghost use Rattle.std.specs.Prelude.{◌≡◌, ◌≤◌, ◌+◌, ◌*◌, length};
    ghost use Rattle.ann_block.specs.Header.{IsHeader};
    ghost use Rattle.ann_segment.specs.Directory.{items_in, AreRising};
    ghost use Rattle.ann_segment.specs.Writer.{WriterView};

    ghost Value = { WriterView D };

    ghost view = { λ w. record { header = w.header; items = items_in w.header.m w.header.count w.directory.items; written = w.written; draft = w.draft } };

    ghost invariant = { λ w. IsHeader w.header
        × (w.header.count * (4 + w.header.m) ≤ length w.directory.items)
        × AreRising (items_in w.header.m w.header.count w.directory.items) };
}

impl<D: Drop> SegmentWriter<D> {
    /// Begins a segment: writes its header block and its directory blocks.
    ///
    /// # Errors
    ///
    /// `Disk` or `Memory`. The draft is then gone.
    pub fn start<V: Vault<Draft = D>>(
        vault: &mut V,
        header: Header,
        directory: Directory,
    ) -> Result<SegmentWriter<D>, SegmentRefused>
        requires front { AreFront header directory }
        requires new { V.Seal.tells → map.get (V.held vault.old) header.number ≡ None }
        ensures begun { IfOk result (HasBegun header directory) }
        ensures front { V.Seal.tells → IfOk result (λ writer.
            HasFront V.is_current V.draft_number V.draft_bytes header directory vault.new writer.draft) }
        ensures rest { V.Seal.tells →
            KeepsRest V.is_current V.draft_number V.held header.number vault.old vault.new }
        ensures refused { IfErr result (λ why. (why ≡ Disk) ⊎ (why ≡ Memory)) }
        ensures cause { CountsFault (λ why. why ≡ Disk) result (V.faults vault.old) (V.faults vault.new) }
    {
        let bytes = directory.bytes()?;
        let mut draft = vault.create(header.number)?;
        write_front(vault, &mut draft, &header, &bytes)?;
        Ok(SegmentWriter {
            header,
            directory: bytes,
            written: 0,
            draft,
        })
    }

    /// Appends the node block of the next row: 4096 bytes.
    ///
    /// # Errors
    ///
    /// `Disk`. The writer is then only good for being dropped.
    pub fn node<V: Vault<Draft = D>>(
        &mut self,
        vault: &mut V,
        block: &[u8],
    ) -> Result<(), SegmentRefused>
        requires block { length block.now ≡ 4096 }
        requires more { self.old.written < self.old.header.count }
        requires current { V.Seal.tells → V.is_current vault.old self.old.draft }
        ensures row { HasRow result self.old self.new }
        ensures draft { V.Seal.tells → HasMore V.is_current V.draft_number V.draft_bytes
            block.now result vault.new self.old.draft self.new.draft }
        ensures rest { V.Seal.tells → KeepsRest V.is_current V.draft_number V.held
            (V.draft_number self.old.draft) vault.old vault.new }
        ensures refused { IfErr result (λ why. why ≡ Disk) }
        ensures cause { HasCause (V.faults vault.old) (V.faults vault.new) result }
    {
        vault.write(&mut self.draft, block)?;
        self.written += 1;
        Ok(())
    }

    /// Seals the segment, all of whose rows were written.
    ///
    /// # Errors
    ///
    /// `Disk`. The bytes may be sealed or not, and the draft is gone.
    pub fn finish<V: Vault<Draft = D>>(
        self,
        vault: &mut V,
    ) -> Result<Segment<V::Seal>, SegmentRefused>
        requires all { self.written ≡ self.header.count }
        // The vault is the same one: the draft is that of the number, and has the blocks that were written.
        requires draft { V.Seal.tells → IsDraftOf V.is_current V.draft_number V.draft_bytes self vault.old }
        ensures segment { IfOk result (IsWritten self) }
        ensures sealed { V.Seal.tells → MatchResult result
            (λ segment. IsSealedFrom V.Seal.number V.Seal.bytes
            self.header.number (V.draft_bytes self.draft) segment.seal (V.held vault.old) (V.held vault.new))
            (λ _. MayBeSealed
            self.header.number (V.draft_bytes self.draft) (V.held vault.old) (V.held vault.new)) }
        // Where the blocks are those of a graph, its text is sealed.
        ensures text { V.Seal.tells →
            IfOk result (λ segment. SealsText self (V.draft_bytes self.draft) (V.Seal.bytes segment.seal)) }
        ensures others { V.Seal.tells →
            KeepsOthers V.is_current vault.old vault.new V.draft_number self.header.number }
        ensures refused { IfErr result (λ why. why ≡ Disk) }
        ensures cause { HasCause (V.faults vault.old) (V.faults vault.new) result }
    {
        let seal = vault.seal(self.draft)?;
        Ok(Segment {
            number: self.header.number,
            m: self.header.m,
            count: self.header.count,
            start_row: self.header.start_row,
            directory: self.directory,
            seal,
        })
    }
}

// Writes the header block and the directory blocks.
fn write_front<V: Vault>(
    vault: &mut V,
    draft: &mut V::Draft,
    header: &Header,
    directory: &[u8],
) -> Result<(), Failed>
    requires header { IsHeader header.now }
    requires current { V.Seal.tells → V.is_current vault.old draft.old }
    ensures draft { V.Seal.tells → HasMore V.is_current V.draft_number V.draft_bytes
        (header_bytes header.now ++ filled directory.now) result vault.new draft.old draft.new }
    ensures rest { V.Seal.tells → KeepsRest V.is_current V.draft_number V.held
        (V.draft_number draft.old) vault.old vault.new }
    ensures cause { HasCause (V.faults vault.old) (V.faults vault.new) result }
{
    let mut block = [0; BLOCK];
    write_header(header, &mut block);
    vault.write(draft, &block)?;
    vault.write(draft, directory)?;
    let zeros = [0; BLOCK];
    vault.write(draft, &zeros[..padding(directory.len())])
}

// How many zeros fill up the last block of so many bytes.
fn padding(size: usize) -> usize
    requires { size < 2 ^ 63 }
    ensures value { size + result ≡ 4096 * blocks_of size }
    ensures less { result < 4096 }
{
    (BLOCK - size % BLOCK) % BLOCK
}
