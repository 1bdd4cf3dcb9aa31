// The rule of what is published, and what its steps tell.
use crate::name::ViewName;
use crate::shown::Shown;
use ann_line::{Front, ListName};
use ann_vault::Sealed;
use atomic_table::{Join, Split};
use crossbeam_utils::rule::{Outcome, Protocol};
use std::marker::PhantomData;

/// The published list begins with the opening one and with each list that somebody knows. What one knows is such a list; no
/// value of it is made.
pub struct Rises<N> {
    of: PhantomData<N>,
}

impl<N: ViewName, S: Sealed> Protocol<Shown<N, S>, Front<N>> for Rises<N> {
    ghost use Rattle.ann_shown.specs.Rising.{Risen};

    ghost holds = { λ x. Risen N.opening x };

    ghost first = { N.opening };
}

/// A step that sees what is published: the list that one knew begins it, and one knows it then.
pub struct Sees<N> {
    of: PhantomData<N>,
}

impl<N: ViewName, S: Sealed> Outcome<Shown<N, S>, Front<N>> for Sees<N> {
    ghost use Rattle.std.specs.Prelude.{◌≡◌};
    ghost use Rattle.ann_types.specs.Lists.{BeginsWith};

    ghost then = { λ v x y w. BeginsWith x v × (w ≡ y) };
}

/// The writer keeps what it knows, and tells it.
pub struct Twice;

impl<N: ListName> Split<Front<N>> for Twice {
    ghost left = { λ v. v };

    ghost right = { λ v. v };
}

/// A reader takes in what it is told.
pub struct Longer;

impl<N: ListName> Join<Front<N>> for Longer {
    ghost use Rattle.ann_shown.specs.Rising.{longer};

    ghost both = { longer };

    ghost spent = { N.opening };
}
