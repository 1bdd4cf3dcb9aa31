// Looking into the index of a place.
ghost use Rattle.std.specs.Prelude.{◌≡◌, ◌++◌, Ok, Err, IfOk, codes, decimal, string_bytes};
ghost use Rattle.ann_commands.specs.Checked.{devices, HasChecked, bad_log_text, bad_segment_text, summary_line, summary_text};
ghost use Rattle.ann_commands.specs.Owed.{IsSaid};
ghost use Rattle.ann_commands.specs.Place.{IsWhole};

use crate::owed::Owed;
use crate::place::Place;
use ann_disk::LogFile;
use ann_log::Files;
use ann_recover::{RecoverWhy, Summary, inspect};
use ann_vault::{Eye, Vault};
use std::alloc::{AllocError, Global};
use std::fmt::Write;

/// What `check` writes of an index whose list names a segment.
fn segment_line(alloc: Global, entries: u64, live: u64, segment: u64) -> Result<String, AllocError>
    ensures { IfOk result (λ text. string_bytes text
        ≡ summary_line entries live (decimal segment ++ codes "\n")) }
{
    let mut text = String::new(alloc);
    write!(
        text,
        "ok {entries} entries, {live} live, segment {segment}\n"
    )?;
    Ok(text)
}

/// What `check` writes of an index whose list names none.
fn plain_line(alloc: Global, entries: u64, live: u64) -> Result<String, AllocError>
    ensures { IfOk result (λ text. string_bytes text
        ≡ summary_line entries live (codes "none\n")) }
{
    let mut text = String::new(alloc);
    write!(text, "ok {entries} entries, {live} live, segment none\n")?;
    Ok(text)
}

/// What `check` writes of an index.
fn index_line(alloc: Global, summary: &Summary) -> Result<String, AllocError>
    ensures { IfOk result (λ text. string_bytes text ≡ summary_text summary.now) }
{
    match summary.segment {
        Some(segment) => segment_line(alloc, summary.entries, summary.live, segment),
        None => plain_line(alloc, summary.entries, summary.live),
    }
}

/// The text of a log at fault.
fn log_text(alloc: Global, entry: u64) -> Result<String, AllocError>
    ensures { IfOk result (λ text. string_bytes text ≡ bad_log_text entry) }
{
    let mut text = String::new(alloc);
    write!(text, "bad log {entry}\n")?;
    Ok(text)
}

/// The text of a segment at fault.
fn segment_text(alloc: Global, block: u64) -> Result<String, AllocError>
    ensures { IfOk result (λ text. string_bytes text ≡ bad_segment_text block) }
{
    let mut text = String::new(alloc);
    write!(text, "bad segment {block}\n")?;
    Ok(text)
}

/// What is owed for an index that was summed up.
fn said_of(alloc: Global, summary: &Summary) -> Owed
    ensures { IsSaid result (Ok summary.now) }
{
    match index_line(alloc, summary) {
        Ok(text) => Owed::Summed(text),
        Err(_) => Owed::Memory,
    }
}

/// What is owed for a log at fault.
fn bad_log(alloc: Global, entry: u64) -> Owed
    ensures { IsSaid result (Err (RecoverWhy.BadLog entry)) }
{
    match log_text(alloc, entry) {
        Ok(text) => Owed::Bad(text),
        Err(_) => Owed::Memory,
    }
}

/// What is owed for a segment at fault.
fn bad_segment(alloc: Global, block: u64) -> Owed
    ensures { IsSaid result (Err (RecoverWhy.BadSegment block)) }
{
    match segment_text(alloc, block) {
        Ok(text) => Owed::Bad(text),
        Err(_) => Owed::Memory,
    }
}

/// What is owed for an index that isn't summed up.
fn said_why(alloc: Global, why: RecoverWhy) -> Owed
    ensures { IsSaid result (Err why) }
{
    match why {
        RecoverWhy::BadLog { entry } => bad_log(alloc, entry),
        RecoverWhy::BadSegment { block } => bad_segment(alloc, block),
        RecoverWhy::NoIndex => Owed::NoIndex,
        RecoverWhy::Disk => Owed::StoreFault,
        RecoverWhy::Memory => Owed::Memory,
    }
}

/// What is owed for a check that ended so.
pub(crate) fn said(alloc: Global, ended: &Result<Summary, RecoverWhy>) -> Owed
    ensures { IsSaid result ended.now }
{
    match ended {
        Ok(summary) => said_of(alloc, summary),
        Err(why) => said_why(alloc, *why),
    }
}

/// Looks into the index of a place, and changes nothing.
pub(crate) fn check_index<F: LogFile, V: Vault, E: Eye<Seal = V::Seal>>(
    alloc: Global,
    place: &mut Place<F, V, E>,
) -> Result<Summary, RecoverWhy>
    requires { IsWhole place.old }
    ensures ended { HasChecked
        (devices F.LogFile V.Seal.tells V.Seal.bytes V.held V.faults E.faults)
        place.old place.new result }
    ensures whole { IsWhole place.new }
{
    let (Some(first), Some(second)) = (place.log.take(), place.second.take()) else {
        return Err(RecoverWhy::Memory);
    };
    let (Some(vault), Some(eyes)) = (place.vault.take(), place.worker_eyes.take()) else {
        return Err(RecoverWhy::Memory);
    };
    let mut files = Files { first, second };
    let mut vault = vault;
    let mut eyes = eyes;
    let result = inspect(alloc, &mut files, &mut vault, &mut eyes[0]);
    let Files { first, second } = files;
    place.log = Some(first);
    place.second = Some(second);
    place.vault = Some(vault);
    place.worker_eyes = Some(eyes);
    result
}
