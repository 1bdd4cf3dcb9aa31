// The current folder as a vault.
ghost use Rattle.std.specs.Prelude.{◌≡◌, []};
ghost use Rattle.std.specs.FinMap as map;

use crate::{Failed, NumbersRefused, Sealed, Vault};
use ann_fault::Faults;
use arrayvec::ArrayString;
use std::alloc::AllocError;
use std::fmt::Write as _;
use std::fs::{self, File, Files, OpenOptions};
use std::io::{self, Write};

/// A segment of the current folder, by its open file. It tells nothing.
#[derive(Drop)]
pub struct FolderSeal {
    number: u64,
    file: File,
}

/// A segment that is being written.
#[derive(Drop)]
pub struct FolderDraft {
    number: u64,
    file: File,
    is_broken: bool,
}

/// The current folder as a vault: the bytes of a number stand in `NUMBER.seg`, and while they are written in
/// `NUMBER.part`. It tells nothing.
#[derive(Drop)]
pub struct FolderVault<R: Files<File = File> + AllocGlobal + Clone + Drop> {
    files: R,
    faults: Faults,
}

const SEALED: &str = ".seg";

const DRAFTED: &str = ".part";

// A number has at most 20 digits.
type Name = ArrayString<32>;

fn name_of(number: u64, ending: &str) -> io::Result<Name> {
    let mut name = Name::new();
    match write!(name, "{number}{ending}") {
        Ok(()) => Ok(name),
        Err(_) => Err(io::ErrorKind::InvalidFilename.into()),
    }
}

// The number of a sealed file's name: a name that another number's digits would spell isn't one.
fn number_of(name: &str) -> Option<u64> {
    let number = name.strip_suffix(SEALED)?.parse().ok()?;
    match name_of(number, SEALED) {
        Ok(own) if own.as_str() == name => Some(number),
        _ => None,
    }
}

impl Sealed for FolderSeal {
    ghost tells = { ⊥ };

    ghost number = { λ seal. seal.number };

    ghost bytes = { λ _. [] };
}

impl FolderSeal {
    pub(crate) fn file(&self) -> &File {
        &self.file
    }
}

fn append(draft: &mut FolderDraft, bytes: &[u8]) -> io::Result<()> {
    let answer = draft.file.write_all(bytes);
    draft.is_broken = draft.is_broken || answer.is_err();
    answer
}

// The current folder keeps the names that it has now.
fn sync_folder(files: &impl Files<File = File>) -> io::Result<()> {
    File::open(files, ".")?.sync_all()
}

fn create(files: &impl Files<File = File>, number: u64) -> io::Result<FolderDraft> {
    let file = OpenOptions::new()
        .read(true)
        .write(true)
        .create(true)
        .truncate(true)
        .open(files, name_of(number, DRAFTED)?.as_str())?;
    Ok(FolderDraft {
        number,
        file,
        is_broken: false,
    })
}

fn seal(files: &impl Files<File = File>, draft: FolderDraft) -> io::Result<FolderSeal> {
    if draft.is_broken {
        return Err(io::ErrorKind::InvalidInput.into());
    }
    let number = draft.number;
    draft.file.sync_all()?;
    let (part, whole) = (name_of(number, DRAFTED)?, name_of(number, SEALED)?);
    fs::rename(files, part.as_str(), whole.as_str())?;
    sync_folder(files)?;
    Ok(FolderSeal {
        number,
        file: draft.file,
    })
}

fn open(files: &impl Files<File = File>, number: u64) -> io::Result<Option<FolderSeal>> {
    let name = name_of(number, SEALED)?;
    let file = match File::open(files, name.as_str()) {
        Ok(file) => file,
        Err(error) if error.kind() == io::ErrorKind::NotFound => return Ok(None),
        Err(error) => return Err(error),
    };
    if !file.metadata()?.is_file() {
        return Err(io::ErrorKind::InvalidInput.into());
    }
    Ok(Some(FolderSeal { number, file }))
}

fn remove(files: &impl Files<File = File>, seal: FolderSeal) -> io::Result<()> {
    fs::remove_file(files, name_of(seal.number, SEALED)?.as_str())?;
    sync_folder(files)
}

fn numbers<R: Files<File = File> + AllocGlobal + Clone + Drop>(files: &R) -> io::Result<Vec<u64>> {
    let mut numbers = Vec::new(files.alloc());
    for entry in fs::read_dir(files, ".")? {
        match entry {
            Ok(entry) => {
                if let Some(number) = number_of(entry.file_name())
                    && entry.file_type()?.is_file()
                {
                    numbers.push(number)?;
                }
            }
            // A name that is no text is no segment's.
            Err(error) if error.kind() == io::ErrorKind::InvalidFilename => {}
            Err(error) => return Err(error),
        }
    }
    numbers.sort_unstable();
    Ok(numbers)
}

impl<R: Files<File = File> + AllocGlobal + Clone + Drop> FolderVault<R> {
    /// The current folder.
    pub fn new(files: R) -> FolderVault<R>
        ensures { ⟦<FolderVault<R> as Vault>⟧.faults result ≡ 0 }
    {
        FolderVault {
            files,
            faults: Faults::none(),
        }
    }

    /// How many calls have failed. The count stays at 2^64 - 1.
    pub fn faults(&self) -> u64
        ensures { result ≡ ⟦<FolderVault<R> as Vault>⟧.faults self.now }
    {
        self.faults.count
    }
}

impl<R: Files<File = File> + AllocGlobal + Clone + Drop> Vault for FolderVault<R> {
    type Seal = FolderSeal;

    type Draft = FolderDraft;

    ghost held = { λ _. map.empty };

    ghost draft_number = { λ draft. draft.number };

    ghost draft_bytes = { λ _. [] };

    ghost is_current = { λ _ _. Unit {0} };

    ghost faults = { λ vault. vault.faults.count };

    fn create(&mut self, number: u64) -> Result<FolderDraft, Failed> {
        self.faults.counted(create(&self.files, number))
    }

    fn write(&mut self, draft: &mut FolderDraft, bytes: &[u8]) -> Result<(), Failed> {
        self.faults.counted(append(draft, bytes))
    }

    fn seal(&mut self, draft: FolderDraft) -> Result<FolderSeal, Failed> {
        self.faults.counted(seal(&self.files, draft))
    }

    fn open(&mut self, number: u64) -> Result<Option<FolderSeal>, Failed> {
        self.faults.counted(open(&self.files, number))
    }

    fn remove(&mut self, seal: FolderSeal) -> Result<(), Failed> {
        self.faults.counted(remove(&self.files, seal))
    }

    fn numbers(&mut self, list: &mut Vec<u64>) -> Result<(), NumbersRefused> {
        match numbers(&self.files) {
            Ok(numbers) => {
                *list = numbers;
                Ok(())
            }
            Err(error) if error.kind() == io::ErrorKind::OutOfMemory => {
                Err(NumbersRefused::Memory(AllocError))
            }
            Err(_) => {
                let _ = self.faults.fail();
                Err(NumbersRefused::Failed)
            }
        }
    }
}
