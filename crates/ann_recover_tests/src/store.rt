//! What an index is kept in, in memory, and how it is opened again.

use ann_disk::MemoryFile;
use ann_log::Files;
use ann_recover::{Parts, RecoverRefused, RecoverWhy, Summary, inspect, recover};
use ann_vault::{MemoryEye, MemoryVault, Vault};
use std::alloc::{AllocError, Global};
use std::test::Fail;

/// What an index is kept in.
#[derive(Drop)]
pub(crate) struct Store {
    pub(crate) files: Files<MemoryFile>,
    pub(crate) vault: MemoryVault,
    pub(crate) eyes: Vec<MemoryEye>,
}

/// The parts of an index in memory that was opened.
pub(crate) type Opened = Parts<MemoryFile, MemoryVault, MemoryEye>;

/// How many entries an index has, how many live tags, and its last segment; or why it isn't opened.
pub(crate) type Told = Result<(u64, u64, Option<u64>), RecoverWhy>;

/// Which call fails of each file, of the vault and of the eye; 0 is none.
pub(crate) type Failing = (u64, u64, u64, u64);

/// No call fails.
pub(crate) const CALM: Failing = (0, 0, 0, 0);

/// A segment's number and its bytes.
pub(crate) type Sealed<'a> = (u64, &'a [u8]);

/// Seals bytes under a number that isn't sealed, which it looks for by a call of the vault.
pub(crate) fn seal(vault: &mut MemoryVault, (number, bytes): Sealed) -> Result<(), Fail> {
    if vault.open(number)?.is_some() {
        return Err("sealed twice".into());
    }
    vault.preset(number, bytes)?;
    Ok(())
}

/// A vault with these segments, for each of which it was called once. The call with this number fails.
pub(crate) fn vault(alloc: Global, sealed: &[Sealed], failing: u64) -> Result<MemoryVault, Fail> {
    let mut vault = MemoryVault::new(alloc, &[failing])?;
    for segment in sealed {
        seal(&mut vault, *segment)?;
    }
    Ok(vault)
}

/// An index whose first file has these bytes, and whose second file has none.
pub(crate) fn stored(
    alloc: Global,
    log: &[u8],
    sealed: &[Sealed],
    failing: Failing,
) -> Result<Store, Fail> {
    let (first, second, third, fourth) = failing;
    let files = Files {
        first: MemoryFile::new(alloc, log, &[first])?,
        second: MemoryFile::new(alloc, &[], &[second])?,
    };
    let vault = vault(alloc, sealed, third)?;
    let eye = MemoryEye::new(alloc, &[fourth])?;
    Ok(Store {
        files,
        vault,
        eyes: vec![in alloc; eye]?,
    })
}

// What is told of parts, where the view has all entries.
fn told_of(parts: &Opened) -> Result<Told, Fail> {
    if parts.view.at() != parts.log.count() {
        return Err("another length".into());
    }
    let segment = match parts.view.segment()? {
        Some(segment) => Some(segment.number()),
        None => None,
    };
    Ok(Ok((parts.log.count(), parts.tags.count(), segment)))
}

/// What the parts of an index leave.
pub(crate) fn closed(parts: Opened) -> Store {
    Store {
        files: parts.log.into_files(),
        vault: parts.vault,
        eyes: parts.eyes,
    }
}

/// Opens an index again.
pub(crate) fn open(
    alloc: Global,
    store: Store,
) -> Result<Result<Opened, (RecoverWhy, Store)>, Fail> {
    if store.eyes.is_empty() {
        return Err("no eye came back".into());
    }
    match recover(alloc, store.files, store.vault, store.eyes) {
        Ok(parts) => Ok(Ok(parts)),
        Err(refused) => {
            let RecoverRefused {
                why,
                files,
                vault,
                eyes,
            } = refused;
            Ok(Err((why, Store { files, vault, eyes })))
        }
    }
}

/// What is told of an index that is opened again and closed, and what that leaves.
pub(crate) fn reopened(alloc: Global, store: Store) -> Result<(Told, Store), Fail> {
    match open(alloc, store)? {
        Ok(parts) => Ok((told_of(&parts)?, closed(parts))),
        Err((why, store)) => Ok((Err(why), store)),
    }
}

/// What is told of an index that is looked into.
pub(crate) fn looked_into(alloc: Global, store: &mut Store) -> Result<Told, Fail> {
    let Some(eye) = store.eyes.first_mut() else {
        return Err("no eye".into());
    };
    match inspect(alloc, &mut store.files, &mut store.vault, eye) {
        Ok(summary) => {
            let Summary {
                entries,
                live,
                segment,
            } = summary;
            Ok(Ok((entries, live, segment)))
        }
        Err(why) => Ok(Err(why)),
    }
}

/// The numbers that a vault has sealed.
pub(crate) fn numbers(alloc: Global, vault: &mut MemoryVault) -> Result<Vec<u64>, Fail> {
    let mut numbers = Vec::new(alloc);
    vault.numbers(&mut numbers)?;
    Ok(numbers)
}

/// How many bytes the two files have.
pub(crate) fn sizes(store: &Store) -> (usize, usize) {
    (
        store.files.first.bytes().len(),
        store.files.second.bytes().len(),
    )
}
