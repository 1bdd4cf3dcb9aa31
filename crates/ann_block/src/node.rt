ghost use Rattle.std.specs.Prelude.{◌≡◌, ◌≤◌, ◌<◌, ℕ, length, IfOk, IfErr, None, Some, Ok, slice_index, ◌+◌, ◌*◌, ◌==◌, ◌&&◌, drop};
ghost use Rattle.std.specs.List.Sorted.{IsStrictlyIncreasing};
ghost use Rattle.ann_types.specs.declared.params.Params.{Params as Parameters};
ghost use Rattle.ann_block.specs.Node.{NodeFields, IsNodeOf, node_bytes, node_of, judge_node, head_in};
ghost use Rattle.ann_block.specs.Block.{is_zeros};

use crate::bytes::{are_zeros_from, clear, put_bytes};
use crate::neighbours::{number, put_neighbours, rows_at, test_neighbours};
use crate::refused::BlockRefused;
use ann_bytes::{get_u16, get_u32, get_u64, put_u16, put_u32, put_u64};
use ann_types::{Params, Pid, Tag};
use std::marker::Model;

/// What a node block says of its point, borrowed from the block. Contracts see the tag, the vector and the neighbours.
#[derive(Drop)]
pub struct Node<'a> {
    tag: Tag,
    components: &'a [u8],
    rows: &'a [[u8; 4]],
}

impl<'a> Model for Node<'a> {
    ghost use Rattle.std.specs.Prelude.{map, length, ◌≤◌};
    ghost use Rattle.ann_bytes.specs.LittleEndian.{number_of};
    ghost use Rattle.ann_block.specs.Node.{NodeFields};

    ghost Value = { NodeFields };

    ghost view = { λ n. record { tag = n.tag; vector = n.components.now; neighbours = map number_of n.rows.now } };

    ghost invariant = { λ n. length n.rows.now ≤ 128 };
}

impl<'a> Node<'a> {
    /// The client's name for the point.
    pub fn tag(&self) -> Tag
        ensures { result ≡ self.now.tag }
    {
        self.tag
    }

    /// The components of the point's vector.
    pub fn vector(&self) -> &'a [u8]
        ensures { result.now ≡ self.now.vector }
    {
        self.components
    }

    /// How many neighbours the point has.
    pub fn degree(&self) -> usize
        ensures { result ≡ length self.now.neighbours }
    {
        self.rows.len()
    }

    /// The row of a neighbour. They stand in ascending order.
    pub fn neighbour(&self, i: usize) -> u32
        requires { i < length self.now.neighbours }
        ensures { result ≡ slice_index self.now.neighbours i }
    {
        let rows = self.rows;
        number(rows[i])
    }
}

/// Writes the node block of a point: its Pid, its tag, its vector and the rows of its neighbours.
pub fn write_node(pid: Pid, tag: Tag, vector: &[u8], neighbours: &[u32], block: &mut [u8])
    requires vector { length vector.now ≤ 1024 }
    requires degree { length neighbours.now ≤ 128 }
    requires ascending { IsStrictlyIncreasing neighbours.now }
    requires block { length block.old ≡ 4096 }
    ensures written { block.new ≡ node_bytes pid tag vector.now neighbours.now }
    // What was written is read again.
    ensures accepted { (row count : ℕ) (params : Parameters) → IsNodeOf row count params
        (record { tag = tag; vector = vector.now; neighbours = neighbours.now })
        → judge_node block.new pid row count params ≡ None }
    ensures read_back { node_of (length vector.now) block.new
        ≡ record { tag = tag; vector = vector.now; neighbours = neighbours.now } }
{
    clear(block);
    put_u32(block, 0, pid);
    put_u16(block, 4, neighbours.len() as u16);
    put_u16(block, 6, 0);
    put_u64(block, 8, tag);
    put_bytes(block, 16, vector);
    put_neighbours(block, 16 + vector.len(), neighbours);
}

/// Reads the node block of the point with this Pid, which stands in a row of `count`, or says which rule it breaks
/// first: `Length`, `Number`, `Degree`, `Number` again for a neighbour, `Order` or `Padding`.
pub fn read_node<'a>(
    block: &'a [u8],
    pid: Pid,
    row: u32,
    count: u32,
    params: &Params,
) -> Result<Node<'a>, BlockRefused>
    ensures read { IfOk result (λ node.
        (judge_node block.now pid row count params.now ≡ None) × (node ≡ node_of params.now.d block.now)) }
    ensures refused { IfErr result (λ why. judge_node block.now pid row count params.now ≡ Some why) }
    // What is read is in the format.
    ensures grammar { IfOk result (λ node. block.now ≡ node_bytes pid node.tag node.vector node.neighbours) }
    ensures sound { IfOk result (IsNodeOf row count params.now) }
{
    judged_node(block, pid, row, count, params)
}

// Reads a node block by the tests alone.
#[inline]
#[tactic(auto, unfolding(crate::specs::Node::judge_node, crate::specs::Node::node_of))]
fn judged_node<'a>(
    block: &'a [u8],
    pid: Pid,
    row: u32,
    count: u32,
    params: &Params,
) -> Result<Node<'a>, BlockRefused>
    ensures read { IfOk result (λ node.
        (judge_node block.now pid row count params.now ≡ None) × (node ≡ node_of params.now.d block.now)) }
    ensures refused { IfErr result (λ why. judge_node block.now pid row count params.now ≡ Some why) }
{
    if block.len() != 4096 {
        return Err(BlockRefused::Length);
    }
    let head = node_head(block)?;
    if head.pid != pid {
        return Err(BlockRefused::Number);
    }
    if head.degree > params.r {
        return Err(BlockRefused::Degree);
    }
    let start = 16 + usize::from(params.d);
    let rows = rows_at(block, start, usize::from(head.degree));
    test_neighbours(rows, row, count)?;
    if !has_zeros(block, head, start) {
        return Err(BlockRefused::Padding);
    }
    Ok(Node {
        tag: head.tag,
        components: &block[16..start],
        rows,
    })
}

// The fields before the vector, as they stand.
#[derive(Clone, Copy)]
struct NodeHead {
    pid: Pid,
    degree: u16,
    zero: u16,
    tag: Tag,
}

#[inline]
#[tactic(auto, unfolding(crate::specs::Node::head_in))]
fn node_head(block: &[u8]) -> Result<NodeHead, BlockRefused>
    requires { length block.now ≡ 4096 }
    ensures { result ≡ Ok (head_in block.now) }
{
    Ok(NodeHead {
        pid: get_u32(block, 0)?,
        degree: get_u16(block, 4)?,
        zero: get_u16(block, 6)?,
        tag: get_u64(block, 8)?,
    })
}

// Whether the bytes are 0 that have to be: those before the tag, and those behind the neighbours, which begin at `start`.
#[inline]
fn has_zeros(block: &[u8], head: NodeHead, start: usize) -> bool
    requires { start + 4 * head.degree ≤ length block.now }
    ensures { result ≡ ((head.zero == 0) && is_zeros (drop (start + 4 * head.degree) block.now)) }
{
    head.zero == 0 && are_zeros_from(block, start + 4 * usize::from(head.degree))
}
