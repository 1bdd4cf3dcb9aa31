// What of a state decides which entries may follow.
ghost use Rattle.std.specs.Prelude.{◌≡◌, ◌<◌, ◌^◌, ◌*◌, ◌+◌, ◌==◌};
ghost use Rattle.ann_laws.specs.Outlines.{outline_start, outline_frozen, outline_grown, outline_deleted, outline_begun, outline_switched, outline_works, names_opening};
ghost use Rattle.ann_reopen.specs.Shape.{drawn, opening_in};

use ann_types::Params;

/// An open merge.
#[derive(Clone, Copy)]
pub(crate) struct OpenMerge {
    /// The position of its Begin.
    pub(crate) position: u64,
    /// How many frozen graphs it takes.
    pub(crate) frozen: u64,
    /// No point was deleted since.
    pub(crate) clean: bool,
}

/// The outline of a state.
#[derive(Clone, Copy)]
pub(crate) struct Shape {
    /// The number of points in the graph that takes new points.
    pub(crate) rw: u64,
    /// The number of frozen graphs.
    pub(crate) ros: u64,
    /// No point is deleted.
    pub(crate) clean: bool,
    /// The open merge, if there is one.
    pub(crate) merge: Option<OpenMerge>,
}

impl Shape {
    /// The outline of a list without entries.
    pub(crate) fn new() -> Shape
        ensures { drawn result ≡ outline_start }
    {
        Shape {
            rw: 0,
            ros: 0,
            clean: true,
            merge: None,
        }
    }

    /// The graph that takes new points freezes.
    fn frozen(self) -> Shape
        requires { self.ros < 2 ^ 63 }
        ensures { drawn result ≡ outline_frozen (drawn self) }
    {
        Shape {
            rw: 0,
            ros: self.ros + 1,
            clean: self.clean,
            merge: self.merge,
        }
    }

    /// One more point.
    pub(crate) fn grown(self, params: &Params) -> Shape
        requires points { self.rw < 2 ^ 63 }
        requires graphs { self.ros < 2 ^ 63 }
        ensures { drawn result ≡ outline_grown params.now (drawn self) }
    {
        if self.rw + 1 == u64::from(params.freeze_at) {
            self.frozen()
        } else {
            Shape {
                rw: self.rw + 1,
                ros: self.ros,
                clean: self.clean,
                merge: self.merge,
            }
        }
    }

    /// A point is deleted.
    pub(crate) fn deleted(self) -> Shape
        ensures { drawn result ≡ outline_deleted (drawn self) }
    {
        let merge = match self.merge {
            None => None,
            Some(merge) => Some(OpenMerge {
                position: merge.position,
                frozen: merge.frozen,
                clean: false,
            }),
        };
        Shape {
            rw: self.rw,
            ros: self.ros,
            clean: false,
            merge,
        }
    }

    /// A merge begins at this position.
    pub(crate) fn begun(self, position: u64) -> Shape
        requires { self.ros < 2 ^ 63 }
        ensures { drawn result ≡ outline_begun (drawn self) position }
    {
        let shape = if self.rw == 0 { self } else { self.frozen() };
        Shape {
            rw: shape.rw,
            ros: shape.ros,
            clean: shape.clean,
            merge: Some(OpenMerge {
                position,
                frozen: shape.ros,
                clean: true,
            }),
        }
    }

    /// The open merge ends; without one nothing changes.
    pub(crate) fn ended(self) -> Shape
        ensures { drawn result ≡ outline_switched (drawn self) (opening_in self.merge) }
    {
        match self.merge {
            None => self,
            Some(merge) => Shape {
                rw: self.rw,
                ros: self.ros.saturating_sub(merge.frozen),
                clean: merge.clean,
                merge: None,
            },
        }
    }

    /// There is something to merge.
    pub(crate) fn works(&self) -> bool
        ensures { result ≡ outline_works (drawn self.now) }
    {
        self.rw != 0 || self.ros != 0 || !self.clean
    }

    /// A merge is open, and its segment has this number.
    pub(crate) fn names(&self, segment: u64) -> bool
        ensures { result ≡ names_opening segment (opening_in self.now.merge) }
    {
        match self.merge {
            None => false,
            Some(merge) => is_segment_of(merge.position, segment),
        }
    }
}

/// The segment of a merge has a number by the position of its Begin: one more than twice that.
fn is_segment_of(position: u64, segment: u64) -> bool
    ensures { result ≡ (segment == 2 * position + 1) }
{
    segment % 2 == 1 && segment / 2 == position
}
