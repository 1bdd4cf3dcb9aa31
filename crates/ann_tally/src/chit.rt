// A client's side of a tally.
ghost use Rattle.std.specs.Prelude.{◌≡◌};

use crate::numbers::Numbers;
use crate::rule::Hand;
use atomic_table::Seat;
use std::marker::Model;

/// A client's side of a [`Tally`](crate::Tally). Its numbers are those that the tally has for the client.
///
/// A clause sees which tally it is of, the client, and the numbers.
#[derive(Drop)]
pub struct Chit {
    // Away only while the chit meets its tally.
    pub(crate) seat: Option<Seat<(), Hand>>,
    pub(crate) client: u32,
    pub(crate) numbers: Numbers,
}

impl Model for Chit {
    ghost use Rattle.ann_tally.specs.Chit.{Slip, slip_of, HasHalf};

    ghost Value = { Slip };

    ghost view = { λ c. slip_of c.seat c.client c.numbers };

    ghost invariant = { λ c. HasHalf c.seat c.client c.numbers };
}

impl Chit {
    /// The client whose chit it is.
    pub fn client(&self) -> u32
        ensures { result ≡ self.now.client }
    {
        self.client
    }

    /// The client's numbers.
    pub fn numbers(&self) -> Numbers
        ensures { result ≡ self.now.numbers }
    {
        self.numbers
    }
}
