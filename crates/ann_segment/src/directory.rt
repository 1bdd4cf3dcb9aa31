// The directory of a segment that is to be written.
ghost use Rattle.std.specs.Prelude.{◌≡◌, ◌++◌, ◌∷◌, [], OnOk, OnErr, IfOk};
ghost use Rattle.ann_segment.specs.Directory.{directory_bytes, item_bytes, AreSmall};

use ann_types::Pid;
use std::alloc::{AllocError, Global};
use std::marker::Model;

// A row of the directory.
#[derive(Drop)]
struct Row {
    pid: Pid,
    code: Vec<u8>,
}

impl Row {
    // Puts the bytes of the row behind others.
    fn append(&self, bytes: &mut Vec<u8>) -> Result<(), AllocError>
        ensures { OnOk result (bytes.new.items
            ≡ bytes.old.items ++ item_bytes (self.now.pid, self.now.code.items)) }
    {
        bytes.extend_from_slice(&self.pid.to_le_bytes())?;
        bytes.extend_from_slice(&self.code)?;
        Ok(())
    }
}

/// The Pid and the code of each point, by row.
#[derive(Drop)]
pub struct Directory {
    rows: Vec<Row>,
}

impl Model for Directory {
    ghost use Rattle.std.specs.Prelude.{List, map};
    ghost use Rattle.ann_segment.specs.Directory.{Item, AreSmall};

    ghost Value = { List Item };

    ghost view = { λ d. map (λ row. (row.pid, row.code.items)) d.rows.items };

    ghost invariant = { λ d. AreSmall (map (λ row. (row.pid, row.code.items)) d.rows.items) };
}

impl Directory {
    /// A directory without rows. It takes no memory.
    pub fn new(alloc: Global) -> Directory
        ensures { result ≡ [] }
    {
        Directory {
            rows: Vec::new(alloc),
        }
    }

    /// Adds the next row. The only error is want of memory, and the directory is then as it was.
    pub fn push(&mut self, pid: Pid, code: &[u8]) -> Result<(), AllocError>
        ensures added { OnOk result (self.new ≡ self.old ++ (pid, code.now) ∷ []) }
        ensures kept { OnErr result (self.new ≡ self.old) }
    {
        let code = code.to_vec(*self.rows.allocator())?;
        self.rows.push(Row { pid, code })?;
        Ok(())
    }

    /// The bytes of the rows, one after the other.
    pub(crate) fn bytes(&self) -> Result<Vec<u8>, AllocError>
        ensures bytes { IfOk result (λ bytes. bytes.items ≡ directory_bytes self.now) }
        ensures small { AreSmall self.now }
    {
        let mut bytes = Vec::new(*self.rows.allocator());
        for row in &self.rows {
            row.append(&mut bytes)?;
        }
        Ok(bytes)
    }
}
