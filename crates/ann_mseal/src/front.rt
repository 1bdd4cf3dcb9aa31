// The header and the directory of the merged rows.
ghost use Rattle.std.specs.Prelude.{◌≡◌, ◌<◌, ◌++◌, ◌∷◌, ℕ, [], length, map, All, OnOk, IfOk};
ghost use Rattle.std.specs.Option.{option_map};
ghost use Rattle.std.specs.Arc.{arc_value};
ghost use Rattle.ann_segment.specs.Directory.{item_of};
ghost use Rattle.ann_mlaws.specs.Rows.{HasCodes, old_items};
ghost use Rattle.ann_mpatch.specs.Plan.{IsPlan, row_count, segment_in};
ghost use Rattle.ann_mseal.specs.Merged.{merged_header, merged_items, new_item};

use ann_block::Header;
use ann_mpatch::PatchPlan;
use ann_pq::Codebook;
use ann_segment::{Directory, Segment};
use ann_types::NewPoint;
use ann_vault::Sealed;
use std::alloc::{AllocError, Global};
use std::sync::Arc;

/// The header of the merged segment of this number, where walks begin at the row of an entry.
pub(crate) fn header_of<S: Sealed>(plan: &PatchPlan<S>, entry: Option<u32>, number: u64) -> Header
    ensures { result ≡ merged_header plan.now entry number }
{
    Header {
        number,
        d: plan.params.d,
        r: plan.params.r,
        m: plan.params.m,
        count: plan.decoded.len(),
        start_row: entry,
    }
}

/// Adds the Pid and the code of each survivor as they stand in its segment. The only error is want of memory.
fn add_rows<S: Sealed>(
    segment: &Segment<S>,
    survivors: &[u32],
    directory: &mut Directory,
) -> Result<(), AllocError>
    requires rows { All (λ row. row < length segment.now.items) survivors.now }
    ensures added { OnOk result
        (directory.new ≡ directory.old ++ map (item_of segment.now.items) survivors.now) }
    ensures codes { OnOk result
        (All (λ row. length (item_of segment.now.items row).1 ≡ segment.now.m) survivors.now) }
{
    for row in survivors {
        directory.push(segment.pid(*row), segment.code(*row))?;
    }
    Ok(())
}

/// Adds those of the survivors of a segment, if there is one. The only error is want of memory.
fn add_survivors<S: Sealed>(
    segment: &Option<Arc<Segment<S>>>,
    survivors: &[u32],
    directory: &mut Directory,
) -> Result<(), AllocError>
    requires rows { All (λ row. row < row_count (option_map arc_value segment.now)) survivors.now }
    ensures added { OnOk result (directory.new
        ≡ directory.old ++ map (item_of (old_items (option_map arc_value segment.now))) survivors.now) }
    ensures codes { (m : ℕ) → HasCodes (option_map arc_value segment.now) m → OnOk result (All (λ row.
        length (item_of (old_items (option_map arc_value segment.now)) row).1 ≡ m) survivors.now) }
{
    match segment {
        Some(segment) => add_rows(segment, survivors, directory),
        None => Ok(()),
    }
}

/// Adds the Pid and the code of a new point. The only error is want of memory.
fn add_point(book: &Codebook, point: &NewPoint, directory: &mut Directory) -> Result<(), AllocError>
    requires vector { length point.now.vector ≡ book.now.d }
    ensures added { OnOk result (directory.new ≡ directory.old ++ new_item book.now.book point.now ∷ []) }
{
    book.known();
    let mut code = [0; 64];
    let code = &mut code[..usize::from(book.m())];
    book.code(point.vector.bytes(), code);
    directory.push(point.pid, code)
}

/// Adds those of each new point. The only error is want of memory.
fn add_points(
    book: &Codebook,
    points: &[NewPoint],
    directory: &mut Directory,
) -> Result<(), AllocError>
    requires vectors { All (λ x. length x.vector ≡ book.now.d) points.now }
    ensures added { OnOk result
        (directory.new ≡ directory.old ++ map (new_item book.now.book) points.now) }
{
    for point in points {
        add_point(book, point, directory)?;
    }
    Ok(())
}

/// The Pid and the code of each merged row. The only error is want of memory.
pub(crate) fn directory_of<S: Sealed>(
    alloc: Global,
    plan: &PatchPlan<S>,
    book: &Codebook,
) -> Result<Directory, AllocError>
    requires plan { IsPlan plan.now }
    requires components { book.now.d ≡ plan.now.params.d }
    requires parts { book.now.m ≡ plan.now.params.m }
    requires codes { HasCodes (segment_in plan.now) plan.now.params.m }
    ensures items { IfOk result (λ directory. directory ≡ merged_items book.now.book plan.now) }
    ensures codes { OnOk result
        (All (λ item. length item.1 ≡ plan.now.params.m) (merged_items book.now.book plan.now)) }
{
    book.known();
    let mut directory = Directory::new(alloc);
    add_survivors(&plan.segment, &plan.survivors, &mut directory)?;
    add_points(book, &plan.points, &mut directory)?;
    Ok(directory)
}
