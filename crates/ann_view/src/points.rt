ghost use Rattle.std.specs.Prelude.{◌≡◌, ◌++◌, ◌∷◌, [], OnOk, OnErr};

use ann_types::NewPoint;
use std::alloc::{AllocError, Global};
use std::marker::Model;

/// Points with their Pids, tags and vectors, in the order in which they were added. Contracts see the list.
#[derive(Drop)]
pub struct PointList {
    points: Vec<NewPoint>,
}

impl Model for PointList {
    ghost use Rattle.std.specs.Prelude.{List};
    ghost use Rattle.ann_types.specs.declared.new_point.NewPoint.{NewPoint};

    ghost Value = { List NewPoint };

    ghost view = { λ l. l.points.items };
}

impl PointList {
    /// No points.
    pub fn new(alloc: Global) -> PointList
        ensures { result ≡ [] }
    {
        PointList {
            points: Vec::new(alloc),
        }
    }

    /// Adds a point. The only error is want of memory; the list is then as it was.
    pub fn push(&mut self, point: NewPoint) -> Result<(), AllocError>
        ensures pushed { OnOk result (self.new ≡ self.old ++ point ∷ []) }
        ensures kept { OnErr result (self.new ≡ self.old) }
    {
        self.points.push(point)?;
        Ok(())
    }

    /// The points.
    pub fn items(&self) -> &[NewPoint]
        ensures { result.now ≡ self.now }
    {
        &self.points
    }

    /// Drops all points.
    pub(crate) fn clear(&mut self)
        ensures { self.new ≡ [] }
    {
        self.points.clear();
    }
}
