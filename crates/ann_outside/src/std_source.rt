ghost use Rattle.std.specs.Prelude.{◌≡◌, None};

use crate::source::Source;
use ann_fault::{Failed, Faults};
use std::io::Read;
use std::rt::Stdin;

/// The input that is the process's standard input. It tells nothing of the bytes.
#[derive(Drop)]
pub struct StdSource {
    stdin: Stdin,
    faults: Faults,
}

impl StdSource {
    /// Standard input, without a fault so far.
    pub fn new(stdin: Stdin) -> StdSource
        ensures { ⟦<StdSource as Source>⟧.faults result ≡ 0 }
    {
        StdSource {
            stdin,
            faults: Faults::none(),
        }
    }
}

impl Source for StdSource {
    ghost left = { λ _. None };

    ghost faults = { λ s. s.faults.count };

    fn read(&mut self, buf: &mut [u8]) -> Result<usize, Failed> {
        match self.stdin.read(buf) {
            Ok(count) => Ok(count),
            Err(_) => Err(self.faults.fail()),
        }
    }
}
