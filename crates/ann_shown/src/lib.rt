//! What a server's searches read: a view with the front of the list that it stands for, and its rule.
//!
//! A [`Shown`] is always the state of its front: that is the type's promise, so whoever reads one finds the graphs and the
//! deleted points of one list, and its segment. A [`Step`] leads from one list to the next, and a [`Publisher`] publishes
//! what the waiting steps lead to. Under the rule [`Rises`] the published list only grows, and what each reader knows begins
//! it: a reader that enters sees at least what it knew, and a reader that is told knows what was published.
#![tactic(auto)]

mod name;
mod place;
mod publisher;
mod rule;
mod shown;
mod step;

pub use name::ViewName;
pub use place::{Place, Sight};
pub use publisher::Publisher;
pub use rule::{Longer, Rises, Sees, Twice};
pub use shown::Shown;
pub use step::Step;
