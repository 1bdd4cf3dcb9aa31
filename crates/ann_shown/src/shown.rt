// What is published.
ghost use Rattle.std.specs.Prelude.{◌≡◌, ◌+◌, ◌<◌, ◌^◌, ◌==◌};
ghost use Rattle.ann_types.specs.Lists.{length_of};
ghost use Rattle.ann_shown.specs.States.{IsStateOf};

use crate::name::ViewName;
use crate::step::Step;
use ann_line::Front;
use ann_vault::Sealed;
use ann_view::View;
use left_right::Absorb;
use std::alloc::AllocError;
use std::marker::Model;

/// A view, and the front of the list whose state it is.
///
/// Contracts see it as that list.
#[derive(Drop)]
pub struct Shown<N: ViewName, S: Sealed> {
    view: View<S>,
    front: Front<N>,
}

impl<N: ViewName, S: Sealed> Model for Shown<N, S> {
    ghost use Rattle.ann_types.specs.Lists.{BasedList};
    ghost use Rattle.ann_shown.specs.States.{IsStateOf};

    ghost Value = { BasedList };

    ghost view = { λ s. s.front };

    ghost invariant = { λ s. IsStateOf S.bytes N.index N.sound s.view s.front };
}

impl<N: ViewName, S: Sealed> Shown<N, S> {
    /// A view that is the state of a list.
    pub fn new(view: View<S>, front: Front<N>) -> Shown<N, S>
        requires { IsStateOf S.bytes N.index N.sound view front }
        ensures { result ≡ front }
    {
        Shown { view, front }
    }

    /// The view, which is the state of the list.
    pub fn view(&self) -> &View<S>
        ensures { IsStateOf S.bytes N.index N.sound result.now self.now }
    {
        &self.view
    }

    /// The front of the list.
    pub fn front(&self) -> &Front<N>
        ensures { result.now ≡ self.now }
    {
        &self.front
    }

    // Whether a step leads to a list that is one entry longer.
    fn is_next(&self, step: &Step<N, S>) -> bool
        ensures next { result ≡ (length_of step.now == length_of self.now + 1) }
        ensures room { length_of step.now < 2 ^ 64 }
    {
        self.front.at().checked_add(1) == Some(step.front().at())
    }
}

impl<N: ViewName, S: Sealed> Absorb<Step<N, S>> for Shown<N, S> {
    type State = Front<N>;

    ghost state = { λ s. s };

    ghost applied = { λ _ step. step };

    // A step that isn't the next one is refused, which no call of a publisher's comes to.
    fn absorb_first(&mut self, step: &Step<N, S>, _other: &Shown<N, S>) -> Result<(), AllocError> {
        if !self.is_next(step) {
            return Err(AllocError);
        }
        self.front.begins(step.front());
        self.view.apply(step.op())?;
        self.front = step.front().again();
        Ok(())
    }
}
