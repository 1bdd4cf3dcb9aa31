// A client's place in what is published.
ghost use Rattle.std.specs.Prelude.{◌≡◌, MatchResult};
ghost use Rattle.ann_types.specs.Lists.{BeginsWith};
ghost use Rattle.ann_fault.specs.Counts.{HasCause};

use crate::name::ViewName;
use crate::rule::{Rises, Sees};
use crate::shown::Shown;
use ann_door::Door;
use ann_line::Front;
use ann_vault::Sealed;
use left_right::reader::{Reader, Reading};
use std::marker::Model;

/// A place from which what is published can be entered.
///
/// Contracts see it as the list that it knows: whatever it enters begins with that list.
#[derive(Drop)]
pub struct Place<N: ViewName, S: Sealed> {
    pub(crate) reader: Reader<Shown<N, S>, Front<N>, Rises<N>>,
}

impl<N: ViewName, S: Sealed> Model for Place<N, S> {
    ghost use Rattle.ann_types.specs.Lists.{BasedList};
    ghost use Rattle.left_right.specs.Sides.{view as seat_view};

    ghost Value = { BasedList };

    ghost view = { λ p. seat_view p.reader.place };
}

impl<N: ViewName, S: Sealed> Place<N, S> {
    /// Enters what is published, by a door. It waits for nobody.
    ///
    /// # Errors
    ///
    /// The place comes back, and the door's count rises.
    pub fn enter(self, door: &mut Door) -> Result<Sight<N, S>, Place<N, S>>
        ensures entered { MatchResult result (λ sight. BeginsWith sight self) (λ place. place ≡ self) }
        ensures counted { HasCause door.old door.new result }
    {
        match door.enter::<_, _, _, _, Sees<N>>(self.reader) {
            Ok(reading) => Ok(Sight { reading }),
            Err(reader) => Err(Place { reader }),
        }
    }
}

/// What is published, as a place has entered it. The writer can't change it until the place leaves, so it is held only
/// while memory is read. It is not `Drop`: end it by `leave`.
///
/// Contracts see it as the list that is shown, which its place knows.
pub struct Sight<N: ViewName, S: Sealed> {
    reading: Reading<Shown<N, S>, Front<N>, Rises<N>>,
}

impl<N: ViewName, S: Sealed> Model for Sight<N, S> {
    ghost use Rattle.std.specs.Prelude.{◌≡◌};
    ghost use Rattle.ann_types.specs.Lists.{BasedList};
    ghost use Rattle.left_right.specs.Sides.{view as seat_view};

    ghost Value = { BasedList };

    ghost view = { λ s. s.reading.part.value };

    ghost invariant = { λ s. seat_view s.reading.place ≡ s.reading.part.value };
}

impl<N: ViewName, S: Sealed> Sight<N, S> {
    /// What is shown.
    pub fn shown(&self) -> &Shown<N, S>
        ensures { result.now ≡ self.now }
    {
        self.reading.get()
    }

    /// The place again, which knows what was shown.
    pub fn leave(self) -> Place<N, S>
        ensures { result ≡ self }
    {
        let Sight { reading } = self;
        Place {
            reader: reading.leave(),
        }
    }
}
