ghost use Rattle.std.specs.Prelude.{◌≡◌, ◌≤◌, ◌<◌, [], length, map, All, IfOk, OnOk};
ghost use Rattle.std.specs.List.Sorted.{IsStrictlyIncreasing};
ghost use Rattle.ann_types.specs.Index.{Index};
ghost use Rattle.ann_types.specs.Legal.{pid_end};
ghost use Rattle.ann_types.specs.Merge.{put_decoded, base_size};
ghost use Rattle.ann_table.specs.Node.{graph_of};
ghost use Rattle.ann_minsert.specs.Made.{vectors_in, links_in, IsMade};

use crate::decode::decode_own;
use crate::graph::Base;
use ann_greedy::Graph;
use ann_insert::{PutScratch, put};
use ann_mdelete::{Decoded, Lists};
use ann_pq::Codebook;
use ann_table::Table;
use ann_types::{NewPoint, Params};
use std::alloc::{AllocError, Global};

/// Puts points into a table, each with its decoded vector.
fn put_all(
    alloc: Global,
    table: &mut Table,
    points: &[NewPoint],
    book: &Codebook,
) -> Result<(), AllocError>
    requires empty { table.old.nodes ≡ [] }
    requires book { table.old.params.d ≡ book.now.d }
    requires rising { IsStrictlyIncreasing (map (λ x. x.pid) points.now) }
    requires small { All (λ x. x.pid < pid_end) points.now }
    requires vectors { All (λ x. length x.vector ≡ book.now.d) points.now }
    ensures params { table.new.params ≡ table.old.params }
    ensures graph { let index : Index = record { params = table.old.params; book = book.now.book } in
        OnOk result (graph_of table.new.nodes ≡ put_decoded index points.now) }
{
    let mut scratch = PutScratch::new(alloc)?;
    let mut code = Vec::new(alloc);
    let mut own = Vec::new(alloc);
    for point in points {
        decode_own(book, point.vector.bytes(), &mut code, &mut own)?;
        put(table, &mut scratch, point.pid, point.tag, &own)?;
    }
    Ok(())
}

/// Copies the vectors and the neighbours of a table's rows.
fn copy_rows(table: &Table, decoded: &mut Decoded, lists: &mut Lists) -> Result<(), AllocError>
    requires no_vectors { decoded.old ≡ [] }
    requires no_lists { lists.old ≡ [] }
    ensures vectors { OnOk result (decoded.new ≡ vectors_in table.now.nodes) }
    ensures lists { OnOk result (lists.new ≡ links_in table.now.nodes) }
{
    table.known();
    for row in 0..Graph::count(table) {
        decoded.push_vector(table.vector(row))?;
        lists.push(table.neighbours(row))?;
    }
    Ok(())
}

/// The base where no point survives: the graph that the first new points make by inserts of their decoded vectors,
/// entered at the one that is nearest to the mean of all.
///
/// The points are at most 1000, in ascending order of Pid, each with d components. The only error is want of memory.
pub fn base(
    alloc: Global,
    points: &[NewPoint],
    book: &Codebook,
    params: &Params,
) -> Result<Base, AllocError>
    requires book { params.now.d ≡ book.now.d }
    requires most { length points.now ≤ base_size }
    requires rising { IsStrictlyIncreasing (map (λ x. x.pid) points.now) }
    requires small { All (λ x. x.pid < pid_end) points.now }
    requires vectors { All (λ x. length x.vector ≡ book.now.d) points.now }

    // It stands for the base of the definition, by decoded vectors.
    ensures { IfOk result (IsMade params.now book.now.book points.now) }
{
    let mut table = Table::new(alloc, params);
    put_all(alloc, &mut table, points, book)?;
    table.known();
    let mut decoded = Decoded::new(alloc);
    let mut lists = Lists::new(alloc);
    copy_rows(&table, &mut decoded, &mut lists)?;
    let base = Base::of(alloc, lists, decoded)?;
    Ok(base)
}
