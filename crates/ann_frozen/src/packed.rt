ghost use Rattle.std.specs.Prelude.{◌≡◌, ◌≤◌, ◌<◌, ◌+◌, ◌++◌, ◌∷◌, [], length, IfOk, OnOk, OnErr, vec_len, vec_capacity};
ghost use Rattle.ann_table.specs.Node.{new_node, node_at, row_pid};

use crate::label::Label;
use ann_types::{Pid, Tag};
use std::alloc::{AllocError, Global};
use std::marker::Model;

/// Rows side by side: the vectors in one piece of memory, the neighbours in another, both without unused places.
#[derive(Drop)]
pub(crate) struct Packed {
    width: u16,
    labels: Vec<Label>,
    bytes: Vec<u8>,
    numbers: Vec<u32>,
}

impl Model for Packed {
    ghost use Rattle.ann_frozen.specs.Packed.{Packs, rows_in, ArePacked};

    ghost Value = { Packs };

    ghost view = { λ p. record { width = p.width; nodes = rows_in p.width p.labels.items p.bytes.items p.numbers.items } };

    ghost invariant = { λ p. ArePacked p.width p.labels.items p.bytes.items p.numbers.items };
}

/// Adds bytes at the end, for which there is room.
fn extend_within(bytes: &mut Vec<u8>, more: &[u8])
    requires { vec_len bytes.old + length more.now ≤ vec_capacity bytes.old }
    ensures items { bytes.new.items ≡ bytes.old.items ++ more.now }
    ensures length { vec_len bytes.new ≡ vec_len bytes.old + length more.now }
{
    let _ = bytes.extend_from_slice(more);
}

impl Packed {
    /// No rows, with room for `count` rows of vectors of `width` components and for `neighbours` neighbours of all
    /// rows together. The only error is want of memory.
    pub(crate) fn new(
        alloc: Global,
        width: u16,
        count: u32,
        neighbours: usize,
    ) -> Result<Packed, AllocError>
        ensures { IfOk result (λ packed. packed ≡ record { width = width; nodes = [] }) }
    {
        Ok(Packed {
            width,
            labels: Vec::with_capacity(alloc, count as usize)?,
            bytes: Vec::with_capacity(alloc, count as usize * usize::from(width))?,
            numbers: Vec::with_capacity(alloc, neighbours)?,
        })
    }

    /// Adds a row behind all others. The only error is want of memory; all rows are then as they were.
    pub(crate) fn push(
        &mut self,
        pid: Pid,
        tag: Tag,
        vector: &[u8],
        neighbours: &[u32],
    ) -> Result<(), AllocError>
        requires vector { length vector.now ≡ self.old.width }
        requires few { length neighbours.now ≤ 128 }
        ensures width { self.new.width ≡ self.old.width }
        ensures nodes { let node = new_node pid tag vector.now neighbours.now in
            OnOk result (self.new.nodes ≡ self.old.nodes ++ node ∷ []) }
        ensures kept { OnErr result (self.new.nodes ≡ self.old.nodes) }
    {
        self.labels.reserve(1)?;
        self.bytes.reserve(vector.len())?;
        let start = self.numbers.len();
        let count = neighbours.len() as u8;
        self.numbers.extend_from_slice(neighbours)?;
        extend_within(&mut self.bytes, vector);
        self.labels.push_reserved(Label {
            tag,
            start,
            pid,
            count,
        });
        Ok(())
    }

    /// How many rows there are.
    #[inline]
    pub(crate) fn len(&self) -> usize
        ensures { result ≡ length self.now.nodes }
    {
        self.labels.len()
    }

    /// The Pid of a row.
    #[inline]
    pub(crate) fn pid(&self, row: u32) -> Pid
        requires { row < length self.now.nodes }
        ensures { result ≡ row_pid self.now.nodes row }
    {
        self.labels[row as usize].pid
    }

    /// The tag of a row.
    #[inline]
    pub(crate) fn tag(&self, row: u32) -> Tag
        requires { row < length self.now.nodes }
        ensures { result ≡ (node_at self.now.nodes row).tag }
    {
        self.labels[row as usize].tag
    }

    /// The vector of a row.
    #[inline]
    pub(crate) fn vector(&self, row: u32) -> &[u8]
        requires { row < length self.now.nodes }
        ensures { result.now ≡ (node_at self.now.nodes row).vector }
    {
        let width = usize::from(self.width);
        let start = row as usize * width;
        &self.bytes[start..start + width]
    }

    /// The neighbours of a row.
    #[inline]
    pub(crate) fn neighbours(&self, row: u32) -> &[u32]
        requires { row < length self.now.nodes }
        ensures { result.now ≡ (node_at self.now.nodes row).links }
    {
        let label = self.labels[row as usize];
        let end = label.start + usize::from(label.count);
        &self.numbers[label.start..end]
    }
}
