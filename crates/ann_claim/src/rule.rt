// The rule of the word that numbers are drawn from, and what each step on it tells its caller.
use atomic_table::{Join, Play, Split, TableRule};
use std::collections::LinkedList;

/// What the word is told when it is made.
#[derive(Drop)]
pub struct Limits {
    pub numbers: u32,
    pub seats: u32,
}

// What a seat knows: the limits, the numbers that it has drawn, how many claimers in it were told that no number is
// left, and its shares. A new table's one seat has a share for each claimer; who holds all shares holds all numbers.
// No value of this type is ever made.
pub struct Hand {
    pub numbers: u32,
    pub seats: u32,
    pub drawn: LinkedList<u32>,
    pub ended: u32,
    pub shares: u32,
}

pub struct Drawing;

impl TableRule<(), Hand, Limits> for Drawing {
    ghost use Rattle.ann_claim.specs.Rule.{Fair, dealer};

    ghost holds = { Fair };

    ghost first = { dealer };
}

// A number joins the seat's list, or the seat's claimer ends.
pub(crate) struct Draw;

impl Play<(), Hand> for Draw {
    ghost use Rattle.ann_claim.specs.Rule.{Drew};

    ghost then = { Drew };
}

// A seat with all shares learns that it has all numbers.
pub(crate) struct Settle;

impl Play<(), Hand> for Settle {
    ghost use Rattle.ann_claim.specs.Rule.{Settled};

    ghost then = { Settled };
}

// One share goes to a new seat; a seat that is joined brings all that it has.
pub(crate) struct OneShare;

impl Split<Hand> for OneShare {
    ghost use Rattle.ann_claim.specs.Rule.{one_less, newcomer};

    ghost left = { one_less };

    ghost right = { newcomer };
}

impl Join<Hand> for OneShare {
    ghost use Rattle.ann_claim.specs.Rule.{together, spent};

    ghost both = { together };

    ghost spent = { spent };
}
