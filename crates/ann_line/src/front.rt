// A front of a list.
ghost use Rattle.std.specs.Prelude.{◌≡◌, ◌≤◌};
ghost use Rattle.ann_types.specs.Lists.{BeginsWith, length_of};

use crate::history::Reached;
use crate::name::ListName;
use std::marker::{Model, PhantomData};

/// A beginning of the list with this name. It is a length at run time.
///
/// Contracts see it as that list of entries on a base.
#[derive(Drop)]
pub struct Front<N: ListName> {
    pub(crate) at: u64,
    pub(crate) seen: Reached,
    pub(crate) of: PhantomData<N>,
}

impl<N: ListName> Model for Front<N> {
    ghost use Rattle.std.specs.Prelude.{◌≡◌};
    ghost use Rattle.ann_types.specs.Lists.{BasedList, length_of};
    ghost use Rattle.ann_line.specs.History.{listed};

    ghost Value = { BasedList };

    ghost view = { λ f. listed N.opening N.origin.root f.seen.log };

    ghost invariant = { λ f. (f.at ≡ length_of (listed N.opening N.origin.root f.seen.log))
        × (f.seen.book ≡ N.origin.book) };
}

impl<N: ListName> Front<N> {
    /// The length of the list. The list begins with the opening one.
    pub fn at(&self) -> u64
        ensures length { result ≡ length_of self.now }
        ensures begins { BeginsWith self.now N.opening }
    {
        self.at
    }

    /// A copy.
    pub fn again(&self) -> Front<N>
        ensures { result ≡ self.now }
    {
        Front {
            at: self.at,
            seen: self.seen.again(),
            of: PhantomData,
        }
    }

    /// Of two fronts the longer begins with the shorter. It does nothing.
    pub fn begins(&self, other: &Front<N>)
        requires { length_of self.now ≤ length_of other.now }
        ensures { BeginsWith other.now self.now }
    {
        let mut both = self.seen.again();
        both.learn(&other.seen);
    }
}
