// The kept segments.
ghost use Rattle.std.specs.Prelude.{◌≡◌, IfOk};
ghost use Rattle.std.specs.Option.{option_map};
ghost use Rattle.ann_vault.specs.Memory.{memory_held};
ghost use Rattle.ann_core.specs.Kept.{texts_of, text_in, is_kept_in, without_text, held_for};

use ann_vault::MemoryVault;
use std::alloc::{AllocError, Global};

/// The bytes of a sealed segment, under its number.
#[derive(Drop)]
pub(crate) struct Kept {
    pub(crate) number: u64,
    pub(crate) bytes: Vec<u8>,
}

/// The bytes that are kept under a number, if there are any.
pub(crate) fn bytes_of(kept: &[Kept], number: u64) -> Option<&[u8]>
    ensures { option_map (λ bytes. bytes.now) result ≡ text_in (texts_of kept.now) number }
{
    for one in kept {
        if one.number == number {
            return Some(&one.bytes);
        }
    }
    None
}

/// Whether a number is kept.
pub(crate) fn is_kept(kept: &[Kept], number: u64) -> bool
    ensures { result ≡ is_kept_in (texts_of kept.now) number }
{
    for one in kept {
        if one.number == number {
            return true;
        }
    }
    false
}

/// Takes a number away.
pub(crate) fn take_away(kept: &mut Vec<Kept>, number: u64)
    ensures { texts_of kept.new.items ≡ without_text (texts_of kept.old.items) number }
{
    let mut place = 0;
    while place < kept.len() {
        if kept[place].number == number {
            let _gone = kept.remove(place);
        } else {
            place += 1;
        }
    }
}

/// A vault that holds what is kept under a number, and nothing else. The only error is want of memory.
pub(crate) fn vault_with(
    alloc: Global,
    kept: &[Kept],
    number: Option<u64>,
) -> Result<MemoryVault, AllocError>
    ensures { IfOk result (λ vault. memory_held vault ≡ held_for (texts_of kept.now) number) }
{
    let mut vault = MemoryVault::new(alloc, &[])?;
    let Some(number) = number else {
        return Ok(vault);
    };
    let Some(bytes) = bytes_of(kept, number) else {
        return Ok(vault);
    };
    vault.preset(number, bytes)?;
    Ok(vault)
}
