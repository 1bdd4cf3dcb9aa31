// The writer of what is published.
ghost use Rattle.std.specs.Prelude.{◌≡◌, ◌<◌, ◌^◌, ◌++◌, ◌∷◌, [], IfOk, MatchResult};
ghost use Rattle.ann_types.specs.Lists.{BeginsWith};
ghost use Rattle.ann_shown.specs.Publishing.{Publishing, last_of};

use crate::name::ViewName;
use crate::place::Place;
use crate::rule::{Longer, Rises, Sees, Twice};
use crate::shown::Shown;
use crate::step::Step;
use ann_line::Front;
use ann_pen::Pen;
use ann_vault::Sealed;
use std::alloc::{AllocError, Global};
use std::marker::Model;
use std::sync::Wait;

/// Publishes the lists that steps lead to.
///
/// Contracts see it as the list that is published, and the lists that the waiting steps lead to, in order.
#[derive(Drop)]
pub struct Publisher<N: ViewName, S: Sealed, R: Wait + Drop> {
    pen: Pen<Shown<N, S>, Step<N, S>, Front<N>, Rises<N>, R>,
}

impl<N: ViewName, S: Sealed, R: Wait + Drop> Model for Publisher<N, S, R> {
    ghost use Rattle.std.specs.Prelude.{◌≡◌};
    ghost use Rattle.ann_types.specs.Lists.{BeginsWith};
    ghost use Rattle.ann_shown.specs.Publishing.{Publishing};

    ghost Value = { Publishing };

    ghost view = { λ p. record { shown = p.pen.value; waiting = p.pen.waiting } };

    // It knows what is published.
    ghost invariant = { λ p. (p.pen.knows ≡ p.pen.value) × BeginsWith p.pen.value N.opening };
}

impl<N: ViewName, S: Sealed, R: Wait + Drop> Publisher<N, S, R> {
    /// Publishes the opening list, in two copies, with so many places for readers. The only error is want of memory; the
    /// handle and both copies are then gone.
    pub fn new(
        rt: R,
        alloc: Global,
        first: Shown<N, S>,
        second: Shown<N, S>,
        readers: usize,
    ) -> Result<Publisher<N, S, R>, AllocError>
        requires readers { (0 < readers) × (readers < 2 ^ 32) }
        requires opening { (first ≡ N.opening) × (second ≡ N.opening) }
        ensures { IfOk result (λ made. made ≡ record { shown = N.opening; waiting = [] }) }
    {
        Ok(Publisher {
            pen: Pen::new(rt, alloc, first, second, readers)?,
        })
    }

    /// A place that knows the opening list. The only error is want of memory or of a place.
    pub fn place(&self) -> Result<Place<N, S>, AllocError>
        ensures { IfOk result (λ place. place ≡ N.opening) }
    {
        Ok(Place {
            reader: self.pen.reader()?,
        })
    }

    /// A place that knows what is published now. The only error is want of memory or of a place.
    pub fn told_place(&mut self) -> Result<Place<N, S>, AllocError>
        ensures same { self.new ≡ self.old }
        ensures told { IfOk result (λ place. place ≡ self.old.shown) }
    {
        Ok(Place {
            reader: self.pen.told_reader::<Twice, Longer>()?,
        })
    }

    /// Lets a step wait to be published. It comes back where there is no memory.
    pub fn append(&mut self, step: Step<N, S>) -> Result<(), Step<N, S>>
        ensures { MatchResult result
            (λ _. self.new ≡ record self.old { waiting = self.old.waiting ++ step ∷ [] })
            (λ back. (back ≡ step) × (self.new ≡ self.old)) }
    {
        self.pen.append(step)
    }

    /// Publishes the list that the last of the waiting steps leads to. The only error is want of memory, and all is then as
    /// before.
    pub fn publish(&mut self) -> Result<(), AllocError>
        requires { BeginsWith (last_of self.old.shown self.old.waiting) self.old.shown }
        ensures { MatchResult result
            (λ _. self.new ≡ record { shown = last_of self.old.shown self.old.waiting; waiting = [] })
            (λ _. self.new ≡ self.old) }
    {
        self.pen.publish_as::<Sees<N>>()
    }

    /// Ends the publishing, once no reader reads, and gives what was published last.
    pub fn take(self) -> Box<Shown<N, S>>
        ensures { result.value ≡ self.shown }
    {
        let Publisher { pen } = self;
        pen.take()
    }
}
