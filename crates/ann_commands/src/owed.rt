ghost use Rattle.std.specs.Prelude.{◌≡◌};
ghost use Rattle.ann_commands.specs.Owed.{owed_status, owed_text};
ghost use Rattle.ann_commands.specs.Status.{init_status as status_in, init_text as text_in};

use ann_init::{BookFault, InitWhy};
use ann_script::Transcript;

/// The exit status of `init`.
fn init_status(ended: &Result<(), InitWhy>) -> u8
    ensures { result ≡ status_in ended.now }
{
    match ended {
        Ok(()) => 0,
        Err(InitWhy::ReadFault) => 4,
        Err(InitWhy::StoreFault) => 6,
        Err(InitWhy::Memory) => 9,
        Err(InitWhy::IndexThere) => 10,
        Err(InitWhy::BadBook(_)) => 11,
    }
}

/// What `init` writes.
fn init_text(ended: &Result<(), InitWhy>) -> &[u8]
    ensures { result.now ≡ text_in ended.now }
{
    match ended {
        Ok(()) => b"made\n",
        Err(InitWhy::ReadFault) => b"read fault\n",
        Err(InitWhy::StoreFault) => b"store fault\n",
        Err(InitWhy::Memory) => b"memory\n",
        Err(InitWhy::IndexThere) => b"index exists\n",
        Err(InitWhy::BadBook(BookFault::Length)) => b"bad codebook length\n",
        Err(InitWhy::BadBook(BookFault::Magic)) => b"bad codebook magic\n",
        Err(InitWhy::BadBook(BookFault::Shape)) => b"bad codebook shape\n",
    }
}

/// What the program owes its output at the end of a command.
#[derive(Drop)]
pub(crate) enum Owed {
    /// The transcript of a script.
    Transcribed(Transcript),
    /// The words are at fault.
    Usage,
    /// A line of the script is at fault, as this text says.
    Line(String),
    /// The input failed.
    ReadFault,
    /// No memory was left.
    Memory,
    /// An empty index was made, or why not.
    Init(Result<(), InitWhy>),
    /// An index was checked, and this is what it says of itself.
    Summed(String),
    /// No index is there.
    NoIndex,
    /// The log or a segment is at fault, as this text says.
    Bad(String),
    /// A call of the place failed while an index was checked.
    StoreFault,
}

impl Owed {
    /// The exit status.
    pub(crate) fn status(&self) -> u8
        ensures { result ≡ owed_status self.now }
    {
        match self {
            Owed::Transcribed(_) => 0,
            Owed::Usage => 2,
            Owed::Line(_) => 3,
            Owed::ReadFault => 4,
            Owed::Memory => 9,
            Owed::Init(ended) => init_status(ended),
            Owed::Summed(_) => 0,
            Owed::NoIndex => 7,
            Owed::Bad(_) => 8,
            Owed::StoreFault => 6,
        }
    }

    /// The bytes to be written.
    pub(crate) fn bytes(&self) -> &[u8]
        ensures { result.now ≡ owed_text self.now }
    {
        match self {
            Owed::Transcribed(transcript) => transcript.bytes(),
            Owed::Usage => b"usage\n",
            Owed::Line(text) => text.as_bytes(),
            Owed::ReadFault => b"read fault\n",
            Owed::Memory => b"memory\n",
            Owed::Init(ended) => init_text(ended),
            Owed::Summed(text) => text.as_bytes(),
            Owed::NoIndex => b"no index\n",
            Owed::Bad(text) => text.as_bytes(),
            Owed::StoreFault => b"store fault\n",
        }
    }
}
