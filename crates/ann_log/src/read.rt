// Reading the bytes of a log's two files.
ghost use Rattle.std.specs.Prelude.{◌≡◌, ◌⊎◌, IfOk, IfErr};
ghost use Rattle.ann_preamble.specs.Preamble.{preamble_of, said_by, said_by_found};
ghost use Rattle.ann_log.specs.Causes.{HasCauses, HaveCauses};
ghost use Rattle.ann_log.specs.Found.{IsFound, IsFoundIn, IsUsable, IsRefused, IsInReach, HasFound, IsRefusedFor, refusal_of};
ghost use Rattle.ann_log.specs.Text.{log_text, text_with};
ghost use Rattle.ann_log.specs.Told.{IsSame, AreSame};

use crate::files::Files;
use crate::refused::OpenWhy;
use ann_disk::LogFile;
use ann_frame::{Frames, FramesRefused, read_frames};
use ann_preamble::{Preamble, Side, choose};
use std::alloc::Global;

/// What reading found.
#[derive(Drop)]
pub(crate) struct Found {
    /// The preamble of the file that is the log.
    pub(crate) preamble: Preamble,
    /// Which file that is.
    pub(crate) side: Side,
    /// Its entries, and the place of its first gate that isn't open.
    pub(crate) frames: Frames,
    /// The place where its bytes end.
    pub(crate) end: u64,
}

/// Reads both files.
pub(crate) fn read_both<F: LogFile>(alloc: Global, files: &mut Files<F>) -> Result<Found, OpenWhy>
    ensures found { IfOk result (HasFound F.LogFile files.old) }
    ensures refused { IfErr result (IsRefusedFor F.LogFile files.old) }
    ensures same { AreSame F.LogFile files.old files.new }
    ensures cause { HaveCauses F.LogFile files.old files.new OpenWhy.Disk result }
{
    let first = read_all(alloc, &mut files.first)?;
    let second = read_all(alloc, &mut files.second)?;
    read_log(alloc, &first, &second)
}

// Reads all of a file.
fn read_all<F: LogFile>(alloc: Global, file: &mut F) -> Result<Vec<u8>, OpenWhy>
    ensures bytes { F.tells → IfOk result (λ bytes. bytes.items ≡ F.seen file.old) }
    ensures same { IsSame F.LogFile file.old file.new }
    ensures why { IfErr result (λ why. (why ≡ OpenWhy.Disk) ⊎ (why ≡ OpenWhy.Memory)) }
    ensures cause { HasCauses (F.faults file.old) (F.faults file.new) OpenWhy.Disk result }
{
    let length = file.length()?;
    let mut bytes = Vec::new(alloc);
    bytes.resize(length as usize, 0)?;
    file.read_at(0, &mut bytes)?;
    Ok(bytes)
}

// Reads what two files stand for. A refusal is want of memory or what the bytes say.
fn read_log(alloc: Global, first: &[u8], second: &[u8]) -> Result<Found, OpenWhy>
    ensures found { IfOk result (IsFound first.now second.now) }
    ensures usable { IfOk result IsUsable }
    ensures refused { IfErr result (IsRefused (log_text first.now second.now)) }
    ensures no_fault { IfErr result (λ why. why ≡ OpenWhy.Disk → ⊥) }
{
    let one = Preamble::read(alloc, first)?;
    let two = Preamble::read(alloc, second)?;
    match choose(&one, &two) {
        None => Err(OpenWhy::NoIndex),
        Some(Side::First) => read_file_text(alloc, one, Side::First, first),
        Some(Side::Second) => read_file_text(alloc, two, Side::Second, second),
    }
}

// Reads what the file on a side stands for, which begins with this preamble.
fn read_file_text(
    alloc: Global,
    preamble: Option<Preamble>,
    side: Side,
    bytes: &[u8],
) -> Result<Found, OpenWhy>
    requires { said_by_found preamble ≡ preamble_of bytes.now }
    ensures side { IfOk result (λ found. found.side ≡ side) }
    ensures found { IfOk result
        (λ found. IsFoundIn bytes.now (said_by found.preamble) found.frames found.end) }
    ensures usable { IfOk result IsUsable }
    ensures refused { IfErr result (IsRefused (text_with (preamble_of bytes.now) bytes.now)) }
    ensures no_fault { IfErr result (λ why. why ≡ OpenWhy.Disk → ⊥) }
{
    let Some(preamble) = preamble else {
        return Err(OpenWhy::NoIndex);
    };
    let end = bytes.len() as u64;
    let gate = preamble.gate() as usize;
    match read_frames(alloc, bytes, gate, preamble.params.d) {
        Ok(frames) => Ok(Found {
            preamble,
            side,
            frames,
            end,
        }),
        Err(refused) => Err(refusal(preamble.base.position, refused)),
    }
}

// Why a log on a base at this position isn't opened whose frames are refused.
fn refusal(position: u64, refused: FramesRefused) -> OpenWhy
    requires { IsInReach position refused }
    ensures { result ≡ refusal_of position refused }
{
    match refused {
        FramesRefused::Bad { entry } => OpenWhy::BadLog {
            entry: position + entry,
        },
        FramesRefused::Memory => OpenWhy::Memory,
    }
}
