ghost use Rattle.std.specs.Prelude.{◌≡◌, ◌<◌, ◌+◌, ◌^◌, ◌++◌, ℕ, [], length, get_or, map, sum, take, All, IfOk};
ghost use Rattle.std.specs.List.{range_with_len};
ghost use Rattle.std.specs.List.Sorted.{IsStrictlyIncreasing};
ghost use Rattle.ann_mplan.specs.Back.{AreFilled, AreInto, deltas_of, linking, once, place_of, sizes_of};

use ann_mdelete::Lists;
use std::alloc::{AllocError, Global};

/// Adds one to the number of each row of a list.
fn count_each(sizes: &mut [usize], list: &[u32])
    requires rising { IsStrictlyIncreasing list.now }
    requires inside { All (λ row. row < length sizes.old) list.now }
    requires small { (row : ℕ) → get_or sizes.old row 0 < 2 ^ 32 }
    ensures { (row : ℕ) → row < length sizes.old →
        get_or sizes.new row 0 ≡ get_or sizes.old row 0 + length (once list.now 0 row) }
{
    for row in list {
        sizes[*row as usize] += 1;
    }
}

/// How many later rows have each row of the base among their neighbours. The only error is want of memory.
fn sizes(alloc: Global, links: &Lists, base_rows: u32) -> Result<Vec<usize>, AllocError>
    requires into { AreInto base_rows links.now }
    requires few { base_rows + length links.now < 2 ^ 32 }
    ensures { IfOk result (λ sizes. sizes.items ≡ sizes_of base_rows links.now) }
{
    let mut sizes = vec![in alloc; 0; base_rows as usize]?;
    for i in 0..links.len() as u32 {
        count_each(&mut sizes, links.get(i));
    }
    Ok(sizes)
}

/// Leaves for each row the sum of the sizes before it, and gives the sum of all.
fn places(sizes: &mut [usize]) -> usize
    requires { sum sizes.old < 2 ^ 64 }
    ensures places { sizes.new ≡ map (λ row. sum (take row sizes.old)) (range_with_len 0 (length sizes.old)) }
    ensures total { result ≡ sum sizes.old }
{
    let mut place = 0;
    for row in 0..sizes.len() {
        let size = sizes[row];
        sizes[row] = place;
        place += size;
    }
    place
}

/// Where the later rows of each row of the base begin, side by side, and how many they are in all. The only error is want
/// of memory.
fn starts(alloc: Global, links: &Lists, base_rows: u32) -> Result<(Vec<usize>, usize), AllocError>
    requires into { AreInto base_rows links.now }
    requires few { base_rows + length links.now < 2 ^ 32 }
    ensures places { IfOk result (λ starts.
        starts.0.items ≡ map (place_of base_rows links.now) (range_with_len 0 base_rows)) }
    ensures total { IfOk result (λ starts. starts.1 ≡ place_of base_rows links.now base_rows) }
{
    let mut starts = sizes(alloc, links, base_rows)?;
    let total = places(&mut starts);
    Ok((starts, total))
}

/// Puts a later row behind those of each row of its list.
fn fill_each(ends: &mut [usize], numbers: &mut [u32], links: &Lists, base_rows: u32, i: u32)
    requires into { AreInto base_rows links.now }
    requires few { base_rows + length links.now < 2 ^ 32 }
    requires row { i < length links.now }
    requires filled { AreFilled base_rows links.now (linking base_rows links.now i) ends.old numbers.old }
    ensures { AreFilled base_rows links.now (linking base_rows links.now (i + 1)) ends.new numbers.new }
{
    for row in links.get(i) {
        let end = ends[*row as usize];
        numbers[end] = base_rows + i;
        ends[*row as usize] = end + 1;
    }
}

/// Puts each later row behind those of each row of its list.
fn fill(ends: &mut [usize], numbers: &mut [u32], links: &Lists, base_rows: u32)
    requires into { AreInto base_rows links.now }
    requires few { base_rows + length links.now < 2 ^ 32 }
    requires filled { AreFilled base_rows links.now (linking base_rows links.now 0) ends.old numbers.old }
    ensures { let all = linking base_rows links.now (length links.now) in
        AreFilled base_rows links.now all ends.new numbers.new }
{
    for i in 0..links.len() as u32 {
        fill_each(ends, numbers, links, base_rows, i);
    }
}

/// For each row of the base the later rows that have it among their neighbours, in ascending order: those that the Patch
/// phase links it back to (StreamingMerge of FreshDiskANN, section 5.3). List i of `links` is that of row `base_rows + i`.
///
/// It counts, places and fills, so it takes as long as there are rows and neighbours. The only error is want of memory.
pub fn invert(alloc: Global, links: &Lists, base_rows: u32) -> Result<Lists, AllocError>
    requires into { AreInto base_rows links.now }
    requires few { base_rows + length links.now < 2 ^ 32 }
    ensures { IfOk result (λ deltas. deltas ≡ deltas_of base_rows links.now) }
{
    let (mut ends, total) = starts(alloc, links, base_rows)?;
    let mut numbers = vec![in alloc; 0; total]?;
    fill(&mut ends, &mut numbers, links, base_rows);
    Ok(Lists::from_parts(ends, numbers))
}
