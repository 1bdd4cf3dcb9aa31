// An eye over the current folder.
ghost use Rattle.std.specs.Prelude.{◌≡◌};

use crate::{Eye, Failed, FolderSeal};
use ann_fault::Faults;
use std::fs::File;
use std::io;
use std::os::unix::fs::FileExt;

/// Reads the segments of the current folder by their open files.
#[derive(Drop)]
pub struct FolderEye {
    faults: Faults,
    reads: u64,
}

fn read_at(file: &File, at: u64, buf: &mut [u8]) -> io::Result<()> {
    let rest = file.metadata()?.len().checked_sub(at);
    if rest.is_none_or(|rest| rest < buf.len() as u64) {
        return Err(io::ErrorKind::UnexpectedEof.into());
    }
    file.read_exact_at(buf, at)
}

impl FolderEye {
    /// An eye that has read nothing.
    pub fn new() -> FolderEye
        ensures faults { ⟦<FolderEye as Eye>⟧.faults result ≡ 0 }
        ensures reads { ⟦<FolderEye as Eye>⟧.reads result ≡ 0 }
    {
        FolderEye {
            faults: Faults::none(),
            reads: 0,
        }
    }

    /// How many calls have failed. The count stays at 2^64 - 1.
    pub fn faults(&self) -> u64
        ensures { result ≡ ⟦<FolderEye as Eye>⟧.faults self.now }
    {
        self.faults.count
    }

    /// How many reads have gone well. The count stays at 2^64 - 1.
    pub fn reads(&self) -> u64
        ensures { result ≡ ⟦<FolderEye as Eye>⟧.reads self.now }
    {
        self.reads
    }
}

impl Eye for FolderEye {
    type Seal = FolderSeal;

    ghost faults = { λ eye. eye.faults.count };

    ghost reads = { λ eye. eye.reads };

    fn length(&mut self, of: &FolderSeal) -> Result<u64, Failed> {
        self.faults
            .counted(of.file().metadata().map(|metadata| metadata.len()))
    }

    fn read(&mut self, of: &FolderSeal, at: u64, buf: &mut [u8]) -> Result<(), Failed> {
        self.faults.counted(read_at(of.file(), at, buf))?;
        self.reads = self.reads.saturating_add(1);
        Ok(())
    }
}
