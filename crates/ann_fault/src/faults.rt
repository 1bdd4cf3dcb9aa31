// The count of faults of a device.
ghost use Rattle.std.specs.Prelude.{◌≡◌, ◌↔◌, Ok, IsErr, IsOk, MatchResult};
ghost use Rattle.ann_fault.specs.Counts.{HasCause, next_count};

use thiserror::Error;

/// A call of a device failed, and its count of faults rose or stands at its last value.
#[derive(Clone, Copy, Debug, PartialEq, Eq, Error)]
#[error("the device failed")]
pub struct Failed;

/// How often a call of a device has failed. The count stays at `2^64 - 1`.
#[derive(Drop)]
pub struct Faults {
    pub count: u64,
}

impl Faults {
    /// No fault so far.
    pub fn none() -> Faults
        ensures { result.count ≡ 0 }
    {
        Faults { count: 0 }
    }

    /// Counts a fault, and gives the answer of the call that failed.
    pub fn fail(&mut self) -> Failed
        ensures counted { self.new.count ≡ next_count self.old.count }
    {
        self.count = self.count.saturating_add(1);
        Failed
    }

    /// Counts a fault where a call failed, and gives its answer.
    pub fn counted<T: Drop, E: Drop>(&mut self, answer: Result<T, E>) -> Result<T, Failed>
        ensures answer { MatchResult answer (λ value. result ≡ Ok value) (λ _. IsErr result) }
        ensures ok { IsOk result ↔ IsOk answer }
        ensures cause { HasCause self.old.count self.new.count result }
    {
        match answer {
            Ok(value) => Ok(value),
            Err(_) => Err(self.fail()),
        }
    }
}
