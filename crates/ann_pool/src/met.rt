ghost use Rattle.std.specs.Prelude.{◌≡◌, ℕ, List, [], true, IfOk, ◌⊎◌};
ghost use Rattle.ann_types.specs.Order.{has};

use std::alloc::{AllocError, Global};
use std::marker::Model;

/// How many places there are.
const PLACES: u32 = 4096;

/// How many numbers share one place: a place has the number's quotient below this, and a tag above it.
const SHARED: u32 = 1_048_576;

/// The last tag that fits above a quotient.
const LAST_TAG: u32 = 4095;

/// Some of the numbers that were met in this walk.
///
/// A number has one place, and the next one with the same place takes it, so that noting and looking up is one step.
/// A place also has the tag of the walk that noted it, so that a new walk begins by a new tag and writes no place.
#[derive(Drop)]
pub(crate) struct Met {
    tag: u32,
    places: Vec<u32>,
}

impl Model for Met {
    ghost use Rattle.std.specs.Prelude.{◌≡◌, ◌≤◌, ℕ, List, length};
    ghost use Rattle.ann_pool.specs.Places.{numbers_in, AreTagged};

    ghost Value = { List ℕ };

    ghost view = { λ m. numbers_in m.tag m.places.items };

    ghost invariant = { λ m. (length m.places.items ≡ 4096) × (1 ≤ m.tag) × (m.tag ≤ 4095) × AreTagged m.tag m.places.items };
}

impl Met {
    pub fn new(alloc: Global) -> Result<Met, AllocError>
        ensures { IfOk result (λ met. met ≡ []) }
    {
        Ok(Met {
            tag: 1,
            places: vec![in alloc; 0; PLACES as usize]?,
        })
    }

    pub fn clear(&mut self)
        ensures { self.new ≡ [] }
    {
        if self.tag < LAST_TAG {
            self.tag += 1;
        } else {
            self.places.fill(0);
            self.tag = 1;
        }
    }

    pub fn note(&mut self, number: u32)
        ensures { (z : ℕ) → has self.new z ≡ true → (has self.old z ≡ true) ⊎ (z ≡ number) }
    {
        self.places[(number % PLACES) as usize] = self.tag * SHARED + number / PLACES;
    }

    pub fn has(&self, number: u32) -> bool
        ensures { result ≡ true → has self.now number ≡ true }
    {
        self.places[(number % PLACES) as usize] == self.tag * SHARED + number / PLACES
    }
}
