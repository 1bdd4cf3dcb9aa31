//! The command `check`.

ghost use Rattle.std.specs.Prelude.{◌≡◌, IfOk, length, map, string_bytes};
ghost use Rattle.ann_commands.specs.Place.{IsWhole};
ghost use Rattle.ann_commands.specs.Words.{AreAlone};

use crate::store::{CALM, Sealed, Store, Told, looked_into, stored};
use ann_commands::{Place, is_run, is_truth, run_alone};
use ann_disk::MemoryFile;
use ann_log::Files;
use ann_recover::RecoverWhy;
use ann_script::{MemorySink, MemorySource};
use ann_vault::{MemoryEye, MemoryVault};
use std::alloc::{AllocError, Global};
use std::test::Fail;

// A place in memory.
type Memory = Place<MemoryFile, MemoryVault, MemoryEye>;

// The status and the line of a check that ends so.
fn ended(alloc: Global, told: &Told) -> Result<(u8, String), Fail> {
    match told {
        Ok((entries, live, Some(segment))) => Ok((
            0,
            format!(in alloc; "ok {entries} entries, {live} live, segment {segment}\n")?,
        )),
        Ok((entries, live, None)) => Ok((
            0,
            format!(in alloc; "ok {entries} entries, {live} live, segment none\n")?,
        )),
        Err(RecoverWhy::BadLog { entry }) => Ok((8, format!(in alloc; "bad log {entry}\n")?)),
        Err(RecoverWhy::BadSegment { block }) => Ok((
            8,
            format!(in alloc; "bad segment {block}\n")?,
        )),
        Err(RecoverWhy::Disk) => Ok((6, String::from_str(alloc, "store fault\n")?)),
        Err(RecoverWhy::NoIndex) => Ok((7, String::from_str(alloc, "no index\n")?)),
        Err(RecoverWhy::Memory) => Err("no memory".into()),
    }
}

// So many eyes.
fn eyes(alloc: Global, count: u32) -> Result<Vec<MemoryEye>, AllocError>
    ensures { IfOk result (λ eyes. length eyes.items ≡ count) }
{
    let mut eyes = Vec::new(alloc);
    for _ in 0..count {
        eyes.push(MemoryEye::new(alloc, &[])?)?;
    }
    Ok(eyes)
}

// The place of an index, with eyes of its own.
fn place(alloc: Global, files: Files<MemoryFile>, vault: MemoryVault) -> Result<Memory, AllocError>
    ensures { IfOk result IsWhole }
{
    let clients = eyes(alloc, 32)?;
    let workers = eyes(alloc, 16)?;
    Place::new(alloc, files.first, files.second, vault, clients, workers)
}

// Whether the command of these words ends so.
fn ends_so(
    alloc: Global,
    words: &[String],
    place: &mut Memory,
    status: u8,
    line: &str,
) -> Result<bool, AllocError>
    requires words { AreAlone (map string_bytes words.now) }
    requires place { IsWhole place.old }
{
    let mut input = MemorySource::new(alloc, &[], &[])?;
    let mut out = MemorySink::new(alloc, 100, &[])?;
    let ended = run_alone(alloc, words, &mut input, &mut out, place);
    Ok(ended == status && out.bytes() == line.as_bytes())
}

// Whether the command `check` ends so.
fn check_ends_so(
    alloc: Global,
    place: &mut Memory,
    status: u8,
    line: &str,
) -> Result<bool, AllocError>
    requires { IsWhole place.old }
{
    let words = vec![in alloc; String::from_str(alloc, "check")?]?;
    if is_run(&words).is_some() || is_truth(&words) {
        return Ok(false);
    }
    ends_so(alloc, &words, place, status, line)
}

/// Whether the command `check` tells this of an index.
pub(crate) fn checks(alloc: Global, store: Store, told: &Told) -> Result<bool, Fail> {
    let (status, line) = ended(alloc, told)?;
    let mut place = place(alloc, store.files, store.vault)?;
    Ok(check_ends_so(alloc, &mut place, status, &line)?)
}

// Whether this is told of an index by looking into it, and its first file still has these bytes, and its second none.
fn is_seen(alloc: Global, store: &mut Store, log: &[u8], told: &Told) -> Result<bool, Fail> {
    let seen = looked_into(alloc, store)?;
    let left = store.files.first.bytes() == log && store.files.second.bytes().is_empty();
    Ok(seen == *told && left)
}

/// Whether this is told of an index by looking into it, which leaves its log, and by the command `check`.
pub(crate) fn looks(
    alloc: Global,
    log: &[u8],
    sealed: &[Sealed],
    told: Told,
) -> Result<bool, Fail> {
    let mut store = stored(alloc, log, sealed, CALM)?;
    let seen = is_seen(alloc, &mut store, log, &told)?;
    Ok(checks(alloc, store, &told)? && seen)
}
