// From one list to the next.
ghost use Rattle.std.specs.Prelude.{◌≡◌};
ghost use Rattle.ann_shown.specs.States.{Leads};

use crate::name::ViewName;
use ann_line::Front;
use ann_vault::Sealed;
use ann_view::Op;
use std::marker::Model;

/// An operation of a view, with the front of the list that it leads to: the list before it, with one entry more.
///
/// Contracts see it as the list that it leads to.
#[derive(Drop)]
pub struct Step<N: ViewName, S: Sealed> {
    op: Op<S>,
    front: Front<N>,
}

impl<N: ViewName, S: Sealed> Model for Step<N, S> {
    ghost use Rattle.ann_types.specs.Lists.{BasedList};
    ghost use Rattle.ann_shown.specs.States.{Leads};

    ghost Value = { BasedList };

    ghost view = { λ s. s.front };

    ghost invariant = { λ s. Leads S.bytes N.index N.sound s.op s.front };
}

impl<N: ViewName, S: Sealed> Step<N, S> {
    /// The step of an operation to a list. The list is legal, the operation is that of its last entry, and the segment of an
    /// End is older than the merge's Begin and holds, where the place was sound, the graph that the merge makes.
    pub fn new(op: Op<S>, front: Front<N>) -> Step<N, S>
        requires { Leads S.bytes N.index N.sound op front }
        ensures { result ≡ front }
    {
        Step { op, front }
    }

    // The operation, which leads to the list.
    pub(crate) fn op(&self) -> &Op<S>
        ensures { Leads S.bytes N.index N.sound result.now self.now }
    {
        &self.op
    }

    // The front of the list.
    pub(crate) fn front(&self) -> &Front<N>
        ensures { result.now ≡ self.now }
    {
        &self.front
    }
}
