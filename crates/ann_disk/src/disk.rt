// A log's file on the system's disk.
ghost use Rattle.std.specs.Prelude.{◌≡◌, ◌+◌, ◌<◌, ◌^◌, [], length, OnOk};
ghost use Rattle.ann_disk.specs.Image.{clean};

use crate::{Failed, LogFile};
use ann_fault::Faults;
use std::fs::{File, Files, OpenOptions};
use std::io;
use std::os::unix::fs::FileExt;

/// A file of the system, by its name. Its first call opens it, and makes it where it is missing; so does each later
/// call as long as none has opened it. It tells nothing of what it holds.
#[derive(Drop)]
pub struct DiskFile<R: Files<File = File> + Drop> {
    file: Named<R>,
    faults: Faults,
}

// A name, and the open file once a call has opened it.
#[derive(Drop)]
struct Named<R: Files<File = File> + Drop> {
    files: R,
    name: &'static str,
    file: Option<File>,
}

impl<R: Files<File = File> + Drop> Named<R> {
    fn open(&mut self) -> io::Result<&File> {
        let file = match self.file.take() {
            Some(file) => file,
            None => OpenOptions::new()
                .read(true)
                .write(true)
                .create(true)
                .open(&self.files, self.name)?,
        };
        Ok(self.file.insert(file))
    }
}

// The file's length, where this place lies in it or at its end. Of the places that the system doesn't know, some stand
// behind the end of any file.
fn reach(file: &File, place: u64) -> io::Result<u64> {
    let length = file.metadata()?.len();
    if place > length {
        return Err(io::ErrorKind::InvalidInput.into());
    }
    Ok(length)
}

fn read(file: &File, at: u64, buf: &mut [u8]) -> io::Result<()> {
    let length = reach(file, at)?;
    if buf.len() as u64 > length.saturating_sub(at) {
        return Err(io::ErrorKind::UnexpectedEof.into());
    }
    file.read_exact_at(buf, at)
}

fn write(file: &File, at: u64, bytes: &[u8]) -> io::Result<()>
    ensures { OnOk result (at + length bytes.now < 2 ^ 64) }
{
    reach(file, at)?;
    if at.checked_add(bytes.len() as u64).is_none() {
        return Err(io::ErrorKind::InvalidInput.into());
    }
    file.write_all_at(bytes, at)
}

fn cut(file: &File, to: u64) -> io::Result<()> {
    reach(file, to)?;
    file.set_len(to)
}

impl<R: Files<File = File> + Drop> DiskFile<R> {
    /// The file of this name. Nothing is opened yet.
    pub fn new(files: R, name: &'static str) -> DiskFile<R>
        ensures { ⟦<DiskFile<R> as LogFile>⟧.faults result ≡ 0 }
    {
        DiskFile {
            file: Named {
                files,
                name,
                file: None,
            },
            faults: Faults::none(),
        }
    }

    /// How many calls have failed. The count stays at 2^64 - 1.
    pub fn faults(&self) -> u64
        ensures { result ≡ ⟦<DiskFile<R> as LogFile>⟧.faults self.now }
    {
        self.faults.count
    }
}

impl<R: Files<File = File> + Drop> LogFile for DiskFile<R> {
    ghost tells = { ⊥ };

    ghost seen = { λ _. [] };

    ghost unsynced = { λ _. clean [] };

    ghost past = { λ _. [] };

    ghost faults = { λ file. file.faults.count };

    ghost reads_an_image = { λ file told. absurd told };

    fn length(&mut self) -> Result<u64, Failed> {
        let answer = self.file.open().and_then(|file| reach(file, 0));
        self.faults.counted(answer)
    }

    fn read_at(&mut self, at: u64, buf: &mut [u8]) -> Result<(), Failed> {
        let answer = self.file.open().and_then(|file| read(file, at, buf));
        self.faults.counted(answer)
    }

    fn write_at(&mut self, at: u64, bytes: &[u8]) -> Result<(), Failed> {
        let answer = self.file.open().and_then(|file| write(file, at, bytes));
        self.faults.counted(answer)
    }

    fn cut(&mut self, to: u64) -> Result<(), Failed> {
        let answer = self.file.open().and_then(|file| cut(file, to));
        self.faults.counted(answer)
    }

    fn sync(&mut self) -> Result<(), Failed> {
        let answer = self.file.open().and_then(|file| file.sync_all());
        self.faults.counted(answer)
    }
}
