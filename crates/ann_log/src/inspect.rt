// Looking into a log's files without a change.
ghost use Rattle.std.specs.Prelude.{◌≡◌, IfOk, IfErr};
ghost use Rattle.ann_log.specs.Causes.{HaveCauses};
ghost use Rattle.ann_log.specs.Found.{held_in, IsRefusedFor};
ghost use Rattle.ann_log.specs.Inspected.{IsInspected};
ghost use Rattle.ann_log.specs.LogView.{held_by};
ghost use Rattle.ann_log.specs.Told.{AreSame};

use crate::files::Files;
use crate::read::{Found, read_both};
use crate::refused::OpenWhy;
use ann_disk::LogFile;
use ann_frame::Entries;
use ann_pq::Codebook;
use ann_preamble::Base;
use ann_types::Params;
use std::alloc::Global;

/// What a log holds.
#[derive(Drop)]
pub struct Inspected {
    /// The parameters of the index.
    pub params: Params,
    /// The codebook of its codes.
    pub book: Codebook,
    /// What stood before the entries.
    pub base: Base,
    /// The entries, from the base's position on.
    pub entries: Entries,
}

/// What the log in these files holds. It answers as `Log::open`, and neither cuts nor syncs.
pub fn inspect_log<F: LogFile>(alloc: Global, files: &mut Files<F>) -> Result<Inspected, OpenWhy>
    ensures found { IfOk result (IsInspected F.LogFile files.old) }
    ensures refused { IfErr result (IsRefusedFor F.LogFile files.old) }
    ensures same { AreSame F.LogFile files.old files.new }
    ensures cause { HaveCauses F.LogFile files.old files.new OpenWhy.Disk result }
{
    let found = read_both(alloc, files)?;
    Ok(of_found(found))
}

// What the log holds that was found.
fn of_found(found: Found) -> Inspected
    ensures { held_by result ≡ held_in found }
{
    let Found {
        preamble,
        frames,
        ..
    } = found;
    Inspected {
        params: preamble.params,
        book: preamble.book,
        base: preamble.base,
        entries: frames.entries,
    }
}
