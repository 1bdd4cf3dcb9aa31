ghost use Rattle.std.specs.Prelude.{◌≡◌, List, [], ◌∷◌, ◌++◌, OnOk, OnErr};

use ann_types::Hit;
use std::alloc::{AllocError, Global};
use std::marker::Model;

/// The hits of a search, nearest first.
#[derive(Debug, Drop)]
pub struct HitList {
    hits: Vec<Hit>,
}

impl Model for HitList {
    ghost use Rattle.std.specs.Prelude.{List};
    ghost use Rattle.ann_types.specs.declared.hit.Hit.{Hit};

    ghost Value = { List Hit };

    ghost view = { λ l. l.hits.items };
}

impl HitList {
    /// The empty list.
    pub fn new(alloc: Global) -> HitList
        ensures { result ≡ [] }
    {
        HitList {
            hits: Vec::new(alloc),
        }
    }

    /// Adds a hit behind the others.
    ///
    /// The only error is want of memory, and the list is then as before.
    pub fn push(&mut self, hit: Hit) -> Result<(), AllocError>
        ensures ok { OnOk result (self.new ≡ self.old ++ hit ∷ []) }
        ensures err { OnErr result (self.new ≡ self.old) }
    {
        self.hits.push(hit)?;
        Ok(())
    }

    /// The hits, in order.
    pub fn items(&self) -> &[Hit]
        ensures { result.now ≡ self.now }
    {
        &self.hits
    }
}
