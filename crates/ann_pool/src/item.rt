/// A point that a walk met: how far it is from the query, its number, and whether the walk has visited it.
#[derive(Clone, Copy, Debug, PartialEq, Eq)]
pub struct Item {
    /// The squared distance to the query.
    pub distance: u32,
    /// The row of the point; it decides between equal distances.
    pub number: u32,
    /// Whether its neighbours were met.
    pub visited: bool,
}
