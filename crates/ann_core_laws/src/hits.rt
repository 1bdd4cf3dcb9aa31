ghost use Rattle.std.specs.Prelude.{◌≡◌};

use ann_types::Hit;
use std::marker::Model;

/// The hits of a reply, the nearest first. Contracts see the list.
#[derive(Debug, Drop)]
pub struct Hits {
    hits: Vec<Hit>,
}

impl Model for Hits {
    ghost use Rattle.std.specs.Prelude.{List};
    ghost use Rattle.ann_types.specs.declared.hit.Hit.{Hit};

    ghost Value = { List Hit };

    ghost view = { λ h. h.hits.items };
}

impl Hits {
    /// Hits that are there already. It takes no memory.
    pub fn from_vec(hits: Vec<Hit>) -> Hits
        ensures { result ≡ hits.items }
    {
        Hits { hits }
    }

    /// The hits, in order.
    pub fn items(&self) -> &[Hit]
        ensures { result.now ≡ self.now }
    {
        &self.hits
    }
}
