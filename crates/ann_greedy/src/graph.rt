ghost use Rattle.std.specs.Prelude.{◌≡◌, ◌≢◌, ◌≤◌, ◌<◌, ◌↔◌, length, IfSome, IsNone, All};
ghost use Rattle.ann_greedy.specs.Rows.{Rows};

/// A graph that a walk reads, by rows.
///
/// Rows stand in order of Pid, so a tie by row is a tie by Pid. All vectors have one length, of at most 1024. The
/// entry is `None` exactly where there are no rows.
pub trait Graph {
    ghost rows: { Self → Rows };

    /// How many rows there are.
    fn count(&self) -> u32
        ensures { result ≡ (rows self.now).count };

    /// The row that walks begin at.
    fn entry(&self) -> Option<u32>
        ensures start { result ≡ (rows self.now).start }
        ensures inside { IfSome result (λ row. row < (rows self.now).count) }
        ensures none { IsNone result ↔ ((rows self.now).count ≡ 0) };

    /// The vector of a row.
    fn vector(&self, row: u32) -> &[u8]
        requires { row < (rows self.now).count }
        ensures vector { result.now ≡ (rows self.now).vector row }
        ensures width { length result.now ≡ (rows self.now).width }
        ensures short { length result.now ≤ 1024 };

    /// The neighbours of a row, which are other rows.
    fn neighbours(&self, row: u32) -> &[u32]
        requires { row < (rows self.now).count }
        ensures links { result.now ≡ (rows self.now).links row }
        ensures inside { All (λ other. other < (rows self.now).count) result.now }
        ensures others { All (λ other. other ≢ row) result.now };
}
