// Making a log where no index is.
ghost use Rattle.std.specs.Prelude.{◌≡◌, ◌⊎◌, true, None, take, OnOk, OnErr, IfOk, IfErr};
ghost use Rattle.std.specs.Option.{is_some};
ghost use Rattle.ann_pq.specs.Format.{fault, codebook};
ghost use Rattle.ann_preamble.specs.Base.{is_base};
ghost use Rattle.ann_preamble.specs.Preamble.{preamble_of, no_base};
ghost use Rattle.ann_log.specs.Causes.{HasCauses, HaveCauses, HaveCause};
ghost use Rattle.ann_log.specs.LogView.{HasRoom, IsSaid, files_of, held_of};
ghost use Rattle.ann_log.specs.Making.{base_alone, held_with, HoldsNothing, IsNothingOr, IsFresh, HaveNone, IsThere, HasGathered, AreWritten, LeavesMade, IsMade, IsNotMade};
ghost use Rattle.ann_log.specs.Text.{StandsFor, said_in};
ghost use Rattle.ann_log.specs.Told.{IsSame, AreSame, MayLeave};

use crate::files::Files;
use crate::log::Log;
use crate::refused::{MakeRefused, MakeWhy};
use crate::room::Room;
use crate::write::write_log;
use ann_disk::{Failed, LogFile, cut_any};
use ann_pq::Codebook;
use ann_preamble::{Base, Preamble, Side};
use ann_types::Params;
use std::alloc::Global;

/// The most bytes that a preamble has, for vectors of 1024 components.
const LONGEST: u64 = 262_218;

/// Nothing stood before the entries.
const EMPTY: Base = Base {
    position: 0,
    next: 0,
    segment: 0,
};

impl<F: LogFile> Log<F> {
    /// Makes a log without entries where no index is, with these parameters and the codebook of these bytes.
    ///
    /// # Errors
    ///
    /// `IndexThere` where one of the files has a valid preamble, `Disk` where a call of a file failed, and `Memory` for want
    /// of memory. The files come back: an index that is there is untouched, and after `Disk` the files are as before, or,
    /// where there was no index, they hold none or an empty one.
    pub fn make(
        alloc: Global,
        files: Files<F>,
        params: &Params,
        book: &[u8],
    ) -> Result<Log<F>, MakeRefused<F>>
        requires { fault params.now.d params.now.m book.now ≡ None }
        // Where a crash before the call leaves no index or an empty one, a crash at any moment of it does.
        ensures made { IfOk result (λ log.
            IsMade F.LogFile files params.now (codebook params.now.d params.now.m book.now) no_base
            HoldsNothing log) }
        ensures refused { IfErr result (λ refused.
            IsNotMade F.LogFile files (base_alone params.now book.now no_base)
            HoldsNothing refused.files refused.why) }
    {
        Log::make_based(alloc, files, params, book, &EMPTY)
    }

    /// Makes a log without entries, as `make`, whose entries come behind this base.
    ///
    /// # Errors
    ///
    /// As for `make`, with the base alone in the place of an empty index.
    pub fn make_based(
        alloc: Global,
        files: Files<F>,
        params: &Params,
        book: &[u8],
        base: &Base,
    ) -> Result<Log<F>, MakeRefused<F>>
        requires book { fault params.now.d params.now.m book.now ≡ None }
        requires base { is_base base.now ≡ true }
        // Where a crash before the call leaves no index or an empty one, a crash at any moment of it leaves no index, an
        // empty one where a crash before might have left one, or the base alone.
        ensures made { IfOk result (λ log.
            IsMade F.LogFile files params.now (codebook params.now.d params.now.m book.now) base.now
            (IsNothingOr (F.unsynced files.first) (F.unsynced files.second)
            (base_alone params.now book.now base.now)) log) }
        ensures refused { IfErr result (λ refused.
            IsNotMade F.LogFile files (base_alone params.now book.now base.now)
            (IsNothingOr (F.unsynced files.first) (F.unsynced files.second)
            (base_alone params.now book.now base.now))
            refused.files refused.why) }
    {
        let mut files = files;
        let (book, mut room) = match gather(alloc, &mut files, params, book) {
            Ok(parts) => parts,
            Err(why) => return Err(MakeRefused { why, files }),
        };
        match write_both(&mut files, &mut room, params, &book, base) {
            Ok(gate) => Ok(Log::fresh(files, room, *params, book, *base, gate)),
            Err(Failed) => Err(MakeRefused {
                why: MakeWhy::Disk,
                files,
            }),
        }
    }

    // The log in these files, of which the first was written.
    fn fresh(
        files: Files<F>,
        room: Room,
        params: Params,
        book: Codebook,
        base: Base,
        gate: u64,
    ) -> Log<F>
        requires said { IsSaid (said_in params book base 1) }
        requires room { HasRoom params.d room.frame.items room.preamble.items }
        requires written { AreWritten F.LogFile (held_with params book base) files gate }
        ensures files { (files_of result ≡ files) × (result.log ≡ files.first)
            × (result.other ≡ files.second) }
        ensures held { F.tells → held_of result ≡ held_with params book base }
        ensures constant { IsFresh params book base result }
        ensures after { MayLeave F.LogFile (files_of result) (StandsFor (held_of result)) }
    {
        let Files { first, second } = files;
        Log {
            log: first,
            other: second,
            side: Side::First,
            params,
            book,
            base,
            generation: 1,
            gate,
            count: 0,
            closed: false,
            room,
        }
    }
}

// What a log has besides its files: a codebook and room for writing. Nothing is written.
fn gather<F: LogFile>(
    alloc: Global,
    files: &mut Files<F>,
    params: &Params,
    book: &[u8],
) -> Result<(Codebook, Room), MakeWhy>
    requires { fault params.now.d params.now.m book.now ≡ None }
    ensures gathered { IfOk result (λ parts.
        HasGathered F.LogFile params.now book.now files.old parts.0 parts.1) }
    ensures there { IfErr result (IsThere F.LogFile files.old) }
    ensures same { AreSame F.LogFile files.old files.new }
    ensures cause { HaveCauses F.LogFile files.old files.new MakeWhy.Disk result }
{
    refuse_index(alloc, files)?;
    own_parts(alloc, params, book)
}

// Refuses files of which one begins with a preamble.
fn refuse_index<F: LogFile>(alloc: Global, files: &mut Files<F>) -> Result<(), MakeWhy>
    ensures none { OnOk result (HaveNone F.LogFile files.old) }
    ensures there { IfErr result (IsThere F.LogFile files.old) }
    ensures same { AreSame F.LogFile files.old files.new }
    ensures cause { HaveCauses F.LogFile files.old files.new MakeWhy.Disk result }
{
    if is_made(alloc, &mut files.first)? {
        return Err(MakeWhy::IndexThere);
    }
    if is_made(alloc, &mut files.second)? {
        return Err(MakeWhy::IndexThere);
    }
    Ok(())
}

// Whether a file begins with a preamble.
fn is_made<F: LogFile>(alloc: Global, file: &mut F) -> Result<bool, MakeWhy>
    ensures made { F.tells → IfOk result (λ made. made ≡ is_some (preamble_of (F.seen file.old))) }
    ensures same { IsSame F.LogFile file.old file.new }
    ensures why { IfErr result (λ why. (why ≡ MakeWhy.Disk) ⊎ (why ≡ MakeWhy.Memory)) }
    ensures cause { HasCauses (F.faults file.old) (F.faults file.new) MakeWhy.Disk result }
{
    let bytes = read_front(alloc, file)?;
    Ok(Preamble::read(alloc, &bytes)?.is_some())
}

// Reads the first bytes of a file, so many that a preamble is among them.
fn read_front<F: LogFile>(alloc: Global, file: &mut F) -> Result<Vec<u8>, MakeWhy>
    ensures bytes { F.tells → IfOk result (λ bytes. bytes.items ≡ take 262218 (F.seen file.old)) }
    ensures same { IsSame F.LogFile file.old file.new }
    ensures why { IfErr result (λ why. (why ≡ MakeWhy.Disk) ⊎ (why ≡ MakeWhy.Memory)) }
    ensures cause { HasCauses (F.faults file.old) (F.faults file.new) MakeWhy.Disk result }
{
    let length = file.length()?;
    let mut bytes = Vec::new(alloc);
    bytes.resize(length.min(LONGEST) as usize, 0)?;
    file.read_at(0, &mut bytes)?;
    Ok(bytes)
}

// A codebook and room for writing.
fn own_parts(alloc: Global, params: &Params, book: &[u8]) -> Result<(Codebook, Room), MakeWhy>
    requires { fault params.now.d params.now.m book.now ≡ None }
    ensures book { IfOk result (λ parts. parts.0 ≡ codebook params.now.d params.now.m book.now) }
    ensures room { IfOk result (λ parts. HasRoom params.now.d parts.1.frame.items parts.1.preamble.items) }
    ensures why { IfErr result (λ why. why ≡ MakeWhy.Memory) }
{
    let Ok(book) = Codebook::read(alloc, book, params.d, params.m) else {
        return Err(MakeWhy::Memory);
    };
    Ok((book, Room::new(alloc, params.d)?))
}

// Cuts the second file to nothing, and writes the first one anew.
fn write_both<F: LogFile>(
    files: &mut Files<F>,
    room: &mut Room,
    params: &Params,
    book: &Codebook,
    base: &Base,
) -> Result<u64, Failed>
    requires none { HaveNone F.LogFile files.old }
    requires room { HasRoom params.now.d room.old.frame.items room.old.preamble.items }
    requires said { IsSaid (said_in params.now book.now base.now 1) }
    ensures room { HasRoom params.now.d room.new.frame.items room.new.preamble.items }
    ensures written { IfOk result (AreWritten F.LogFile (held_with params.now book.now base.now) files.new) }
    ensures left { LeavesMade F.LogFile (held_with params.now book.now base.now) files.old files.new }
    ensures cause { HaveCause F.LogFile files.old files.new result }
{
    cut_any(&mut files.second, 0)?;
    write_log(&mut files.first, room, params, book, base, 1, &[])
}
