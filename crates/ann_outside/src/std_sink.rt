ghost use Rattle.std.specs.Prelude.{◌≡◌, None};

use crate::sink::Sink;
use ann_fault::{Failed, Faults};
use std::io::Write;
use std::rt::Stdout;

/// The output that is the process's standard output. It tells nothing of the bytes.
#[derive(Drop)]
pub struct StdSink {
    stdout: Stdout,
    faults: Faults,
}

impl StdSink {
    /// Standard output, without a fault so far.
    pub fn new(stdout: Stdout) -> StdSink
        ensures { ⟦<StdSink as Sink>⟧.faults result ≡ 0 }
    {
        StdSink {
            stdout,
            faults: Faults::none(),
        }
    }
}

impl Sink for StdSink {
    ghost taken = { λ _. None };

    ghost faults = { λ s. s.faults.count };

    fn write(&mut self, piece: &[u8]) -> Result<usize, Failed> {
        match self.stdout.write(piece) {
            Ok(count) if count > 0 || piece.is_empty() => Ok(count),
            _ => Err(self.faults.fail()),
        }
    }
}
