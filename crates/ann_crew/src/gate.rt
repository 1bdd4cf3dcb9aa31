/// A place that a merge or a client passes.
#[derive(Clone, Copy, Debug, PartialEq, Eq)]
pub enum Spot {
    /// Before a phase: 1 for Delete, 2 for Insert, 3 for Patch.
    Phase { phase: u8 },
    /// Before a piece of a phase.
    Piece { phase: u8, number: u32 },
    /// After each reply of a client, by its number and that of its command.
    Answered { client: u32, command: u32 },
}

/// Is told of each spot as it is passed, and may hold a thread there. A program's gate does nothing; a test's shows that
/// threads run side by side.
pub trait Gate {
    /// Goes through.
    fn pass(&self, spot: Spot);
}

/// The gate that does nothing.
#[derive(Clone, Copy, Debug, Default)]
pub struct NoGate;

impl Gate for NoGate {
    fn pass(&self, _spot: Spot) {}
}
