// The word, and the claimers that draw from it.
ghost use Rattle.std.specs.Prelude.{◌≡◌, ◌<◌, ◌≤◌, ◌++◌, [], ◌∷◌, true, false, length, replicate, IfOk, OnSome, IfSome, IfNone, All};
ghost use Rattle.ann_claim.specs.Claims.{lot_of, newcomer_of, least_above, all_drawn, IsEachOnce};
ghost use Rattle.ann_claim.specs.Rule.{hand};

use crate::rule::{Draw, Drawing, Hand, Limits, OneShare, Settle};
use atomic_table::{Seat, Table};
use std::alloc::{AllocError, Global};
use std::marker::Model;

type Source = Table<(), Hand, Limits, Drawing, Global>;

/// The numbers from 0 to a limit, to be drawn once each. It may be shared by threads.
///
/// A clause sees which object it is, how many numbers are drawn from it and how many claimers it has.
#[derive(Drop)]
pub struct Claims {
    table: Source,
    numbers: u32,
}

impl Model for Claims {
    ghost use Rattle.std.specs.Prelude.{◌≡◌, ◌<◌};
    ghost use Rattle.ann_claim.specs.Claims.{Lot};

    ghost Value = { Lot };

    ghost view = { λ c. record { table_id = c.table.shared.table_id; numbers = c.numbers; seats = c.table.shared.key.seats } };

    ghost invariant = { λ c. (c.table.shared.table_id.words ≡ 1) × (c.table.shared.key.numbers ≡ c.numbers) × (0 < c.table.shared.key.seats) };
}

/// The right to draw from one [`Claims`].
///
/// A clause sees whose it is, the list of the numbers that it has drawn, and whether it has answered `None`. The list
/// takes no memory: it is there for the proof alone.
#[derive(Drop)]
pub struct Claimer {
    seat: Seat<(), Hand>,
    ended: bool,
}

impl Model for Claimer {
    ghost use Rattle.std.specs.Prelude.{◌≡◌, [], if◌then◌else◌};
    ghost use Rattle.ann_claim.specs.Claims.{Drawer};

    ghost Value = { Drawer };

    ghost view = { λ c. record { lot = record { table_id = c.seat.table_id; numbers = c.seat.me.0.numbers; seats = c.seat.me.0.seats }; drawn = c.seat.me.0.drawn; ended = c.ended } };

    // The count of the seat changes only at a step that finds no number, so `None` is never answered unasked.
    ghost invariant = { λ c. (c.seat.me.1 ≡ []) × (c.seat.me.0.shares ≡ 1) × (c.seat.me.0.ended ≡ (if c.ended then 1 else 0)) };
}

// A claimer for each of the shares.
fn deal(
    alloc: Global,
    table: &Source,
    mut first: Seat<(), Hand>,
    seats: u32,
) -> Result<Vec<Claimer>, AllocError>
    requires own { (first.table_id ≡ table.now.shared.table_id) × (0 < table.now.shared.table_id.words) }
    requires whole { (first.me ≡ (hand first.me.0.numbers seats [] 0 seats, [])) × (0 < seats) }
    ensures { IfOk result (λ r.
        r.items ≡ replicate seats (newcomer_of (lot_of first.table_id first.me.0.numbers seats))) }
{
    let mut claimers = Vec::with_capacity(alloc, seats as usize)?;
    for _made in 1..seats {
        let seat = table.shared.split_seat::<OneShare>(&mut first);
        claimers.push_reserved(Claimer { seat, ended: false });
    }
    claimers.push_reserved(Claimer {
        seat: first,
        ended: false,
    });
    Ok(claimers)
}

impl Claims {
    /// The numbers from 0 to `numbers` - 1, and a claimer for each of the `seats`, which may go to a thread each.
    ///
    /// # Errors
    ///
    /// Only where there is no memory.
    pub fn new(
        alloc: Global,
        numbers: u32,
        seats: u32,
    ) -> Result<(Claims, Vec<Claimer>), AllocError>
        requires { (0 < seats) × (seats ≤ 16) }
        ensures numbers { IfOk result (λ made. made.0.numbers ≡ numbers) }
        ensures seats { IfOk result (λ made. made.0.seats ≡ seats) }
        ensures claimers { IfOk result (λ made. made.1.items ≡ replicate seats (newcomer_of made.0)) }
    {
        let limits = Limits { numbers, seats };
        let (table, first) = Source::of_words(alloc, &[0], &limits)?;
        let claimers = deal(alloc, &table, first, seats)?;
        Ok((Claims { table, numbers }, claimers))
    }

    /// Draws a number that no other draw gives: one `fetch_add`. `None` where every number is drawn, and from then
    /// on this claimer draws no more.
    ///
    /// A claimer's numbers rise, so a loop that draws until `None` ends: the numbers that are not yet below
    /// `least_above` of its list grow fewer.
    pub fn draw(&self, claimer: &mut Claimer) -> Option<u32>
        requires own { claimer.old.lot ≡ self.now }

        // A number is below the limit and above all that this claimer has drawn, and joins its list.
        ensures below { IfSome result (λ number. number < self.now.numbers) }
        ensures rises { IfSome result (λ number. least_above claimer.old.drawn ≤ number) }
        ensures drawn { IfSome result (λ number.
            claimer.new ≡ record claimer.old { drawn = claimer.old.drawn ++ number ∷ [] }) }

        // After `None` there is only `None`.
        ensures going { OnSome result (claimer.old.ended ≡ false) }
        ensures ended { IfNone result (claimer.new ≡ record claimer.old { ended = true }) }
    {
        if claimer.ended {
            return None;
        }
        let found = self.table.shared.fetch_add::<Draw>(&mut claimer.seat, 0, 1);
        if found < u64::from(self.numbers) {
            Some(found as u32)
        } else {
            claimer.ended = true;
            None
        }
    }

    /// Ends the drawing: every claimer comes back, each after its `None`. What they have drawn, taken together, is
    /// each number below the limit, once.
    pub fn close(self, claimers: Vec<Claimer>)
        requires all { length claimers.items ≡ self.seats }
        requires own { All (λ claimer. claimer.lot ≡ self) claimers.items }
        requires ended { All (λ claimer. claimer.ended ≡ true) claimers.items }
        ensures { IsEachOnce self.numbers (all_drawn claimers.items) }
    {
        let mut rest = claimers;
        let Some(last) = rest.pop() else {
            unreachable!()
        };
        let Claimer { mut seat, ended: _ } = last;
        while let Some(next) = rest.pop() {
            let Claimer {
                seat: other,
                ended: _,
            } = next;
            self.table.shared.join_seat::<OneShare>(&mut seat, other);
        }
        self.table.shared.load::<Settle>(&mut seat, 0);
    }
}
