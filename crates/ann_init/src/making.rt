// Making an empty index.
ghost use Rattle.std.specs.Prelude.{◌≡◌, OnOk, IfErr, None};
ghost use Rattle.ann_log.specs.Causes.{HasCauses, HaveCauses};
ghost use Rattle.ann_outside.specs.Told.{TellsStill};
ghost use Rattle.ann_pq.specs.Format.{fault};
ghost use Rattle.ann_init.specs.Ends.{said_by, IsMadeOf, HasMade, IsRefusedFor, IsUnmadeFor};

use crate::book::read_book;
use crate::refused::InitWhy;
use ann_disk::LogFile;
use ann_log::{Files, Log, MakeRefused, MakeWhy};
use ann_outside::Source;
use ann_types::Params;
use std::alloc::Global;

/// How making an index ended, with the files that were handed in.
#[derive(Drop)]
pub struct InitEnd<F> {
    /// Whether it was made, or why not.
    pub result: Result<(), InitWhy>,
    /// The files.
    pub files: Files<F>,
}

/// Why no index is made, where the log refused it.
fn why_of(why: MakeWhy) -> InitWhy
    ensures { result ≡ said_by why }
{
    match why {
        MakeWhy::IndexThere => InitWhy::IndexThere,
        MakeWhy::Disk => InitWhy::StoreFault,
        MakeWhy::Memory => InitWhy::Memory,
    }
}

/// Makes an empty index of a codebook's bytes.
fn make<F: LogFile>(alloc: Global, files: Files<F>, params: &Params, book: &[u8]) -> InitEnd<F>
    requires { fault params.now.d params.now.m book.now ≡ None }
    ensures made { OnOk result.result (IsMadeOf F.LogFile params.now book.now files result.files) }
    ensures refused { IfErr result.result
        (IsUnmadeFor F.LogFile params.now book.now files result.files) }
    ensures stores { HaveCauses F.LogFile files result.files InitWhy.StoreFault result.result }
{
    match Log::make(alloc, files, params, book) {
        Ok(log) => InitEnd {
            result: Ok(()),
            files: log.into_files(),
        },
        Err(MakeRefused { why, files }) => InitEnd {
            result: Err(why_of(why)),
            files,
        },
    }
}

/// Makes an empty index with these parameters in two files, of the codebook that is read from an input.
///
/// The input is read to its end, or until there are 262,157 bytes, which are one more than the greatest codebook has. The
/// files come back: an input at fault leaves them alone, and an index that is there is left as it is.
pub fn init<S: Source, F: LogFile>(
    alloc: Global,
    input: &mut S,
    files: Files<F>,
    params: &Params,
) -> InitEnd<F>
    // An empty index was made of a codebook, all of it on the disk, and a crash meanwhile leaves none or that one.
    ensures made { OnOk result.result (HasMade F.LogFile params.now
        (S.left input.old) (S.left input.new) files result.files) }
    // Each refusal has its cause, and the first of several comes.
    ensures refused { IfErr result.result (IsRefusedFor F.LogFile params.now
        (S.left input.old) (S.left input.new) files result.files) }
    ensures told { TellsStill (S.left input.old) (S.left input.new) }
    // A read failed exactly where it says so, and so did a call of the files.
    ensures reads { HasCauses (S.faults input.old) (S.faults input.new) InitWhy.ReadFault result.result }
    ensures stores { HaveCauses F.LogFile files result.files InitWhy.StoreFault result.result }
{
    match read_book(alloc, input, params) {
        Ok(book) => make(alloc, files, params, &book),
        Err(why) => InitEnd {
            result: Err(why),
            files,
        },
    }
}
