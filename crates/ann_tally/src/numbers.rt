// What is counted of a client.

/// What is counted of one client.
#[derive(Clone, Copy, Debug, Default, PartialEq, Eq)]
pub struct Numbers {
    /// Its entries since opening.
    pub entries: u64,
    /// Its calls that met a fault of the log.
    pub log_faults: u64,
    /// 0, or one past the list's length at its last call that met a fault of the log or a log that had stopped.
    pub stop: u64,
    /// Its merges that were given back after a fault of a disk.
    pub merge_faults: u64,
    /// The sum of all clients' merge faults when it last began a merge.
    pub floor: u64,
    /// 0, or one past the position of the Begin whose merge it has out.
    pub job: u64,
}
