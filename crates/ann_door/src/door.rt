// A door, and entering through it.
ghost use Rattle.std.specs.Prelude.{◌≡◌, ℕ, MatchResult};
ghost use Rattle.crossbeam_utils.specs.Register.{Turns};
ghost use Rattle.left_right.specs.Sides.{view};
ghost use Rattle.ann_fault.specs.Counts.{HasCause};

use crossbeam_utils::rule::{Outcome, Protocol};
use left_right::reader::{Reader, Reading};
use std::alloc::Allocator;
use std::marker::Model;

/// Counts the entries that were refused. The count stays at 2^64 - 1.
#[derive(Drop)]
pub struct Door {
    refused: u64,
}

impl Model for Door {
    ghost Value = { ℕ };

    ghost view = { λ door. door.refused };
}

impl Door {
    /// A door at which nobody was refused.
    pub fn new() -> Door
        ensures { result ≡ 0 }
    {
        Door { refused: 0 }
    }

    /// How many entries were refused.
    pub fn refused(&self) -> u64
        ensures { result ≡ self.now }
    {
        self.refused
    }

    /// Takes the value that was published last, as `Reader::enter_as` does.
    ///
    /// # Errors
    ///
    /// The reader comes back, and the count rises by one.
    pub fn enter<T: Drop, V, P: Protocol<T, V>, A: Allocator, M: Outcome<T, V>>(
        &mut self,
        reader: Reader<T, V, P, A>,
    ) -> Result<Reading<T, V, P, A>, Reader<T, V, P, A>>
        requires { Turns P.holds reader.place.id (view reader.place) (λ x. x) M.then }
        ensures entered { MatchResult result
            (λ r. (r.place.id ≡ reader.place.id)
            × M.then (view reader.place) r.part.value r.part.value (view r.place))
            (λ r. (r.place.id ≡ reader.place.id) × (view r.place ≡ view reader.place)) }
        ensures counted { HasCause self.old self.new result }
    {
        match reader.enter_as::<M>() {
            Ok(reading) => Ok(reading),
            Err(reader) => {
                self.refused = self.refused.saturating_add(1);
                Err(reader)
            }
        }
    }
}
