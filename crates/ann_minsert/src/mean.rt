ghost use Rattle.std.specs.Prelude.{◌≡◌, ◌≤◌, ◌<◌, ◌+◌, ◌*◌, ◌/◌, ℕ, [], length, get_or, All, MatchOption};
ghost use Rattle.ann_types.specs.Merge.{mean as mean_of};
ghost use Rattle.ann_minsert.specs.Mean.{IsCentral, AreSums, IsFirst, far_of};

use ann_lanes::squared;
use ann_mdelete::Decoded;

/// The most components of a vector.
const MOST: usize = 1024;

/// Adds the components of a vector to sums.
fn add_components(sums: &mut [u64], vector: &[u8])
    requires long { length vector.now ≤ length sums.old }
    requires small { (i : ℕ) → i < length vector.now → get_or sums.old i 0 ≤ 1095216660480 }
    ensures length { length sums.new ≡ length sums.old }
    ensures sums { (i : ℕ) → i < length vector.now →
        get_or sums.new i 0 ≡ get_or sums.old i 0 + get_or vector.now i 0 }
    ensures small { (i : ℕ) → i < length vector.now → get_or sums.new i 0 ≤ get_or sums.old i 0 + 255 }
{
    for i in 0..vector.len() {
        sums[i] += u64::from(vector[i]);
    }
}

/// Adds up the components of all vectors.
fn add_all(decoded: &Decoded, d: usize, sums: &mut [u64])
    requires width { All (λ vector. length vector ≡ d) decoded.now }
    requires long { d ≤ length sums.old }
    requires none { (i : ℕ) → get_or sums.old i 0 ≡ 0 }
    ensures sums { AreSums d decoded.now sums.new }
    ensures length { length sums.new ≡ length sums.old }
{
    decoded.known();
    for row in 0..decoded.len() {
        add_components(sums, decoded.vector(row));
    }
}

/// The floor of the mean in each component.
fn floor_each(sums: &[u64], count: u32, mean: &mut [u8])
    requires some { 0 < count }
    requires long { length mean.old ≤ length sums.now }
    requires small { (i : ℕ) → i < length mean.old → get_or sums.now i 0 ≤ 255 * count }
    ensures length { length mean.new ≡ length mean.old }
    ensures mean { (i : ℕ) → i < length mean.old → get_or mean.new i 0 ≡ get_or sums.now i 0 / count }
{
    for i in 0..mean.len() {
        mean[i] = (sums[i] / u64::from(count)) as u8;
    }
}

/// Leaves in `mean` the floor of the mean of each component.
fn fill_mean(decoded: &Decoded, mean: &mut [u8])
    requires some { 0 < length decoded.now }
    requires width { All (λ vector. length vector ≡ length mean.old) decoded.now }
    requires short { length mean.old ≤ 1024 }
    ensures { mean.new ≡ mean_of (length mean.old) decoded.now }
{
    let mut sums = [0; MOST];
    add_all(decoded, mean.len(), &mut sums);
    floor_each(&sums, decoded.len(), mean);
}

/// The row whose vector is nearest to another, the first on a tie.
fn nearest_row(decoded: &Decoded, query: &[u8]) -> u32
    requires some { 0 < length decoded.now }
    requires width { All (λ vector. length vector ≡ length query.now) decoded.now }
    requires short { length query.now ≤ 1024 }
    ensures { IsFirst (far_of decoded.now query.now) (length decoded.now) result }
{
    let mut nearest = 0;
    let mut lowest = squared(query, decoded.vector(0));
    for row in 1..decoded.len() {
        let distance = squared(query, decoded.vector(row));
        if distance < lowest {
            lowest = distance;
            nearest = row;
        }
    }
    nearest
}

/// The row whose decoded vector is nearest to the mean of all, the first on a tie: the entry of a long-term graph.
///
/// The mean has in each component the floor of the mean of the components. It is left in `mean`, which has as many
/// components as the vectors. `None` exactly where there are no rows, and `mean` is then as before. Takes no memory.
pub fn mean_entry(decoded: &Decoded, mean: &mut [u8]) -> Option<u32>
    requires { All (λ vector. length vector ≡ length mean.old) decoded.now }

    // It is the entry that the definition chooses, whichever points these are the rows of.
    ensures central { IsCentral (length mean.old) decoded.now result }

    // There is one exactly where there are rows.
    ensures inside { MatchOption result (decoded.now ≡ []) (λ row. row < length decoded.now) }

    // The mean is the definition's.
    ensures mean { MatchOption result (mean.new ≡ mean.old)
        (λ row. mean.new ≡ mean_of (length mean.old) decoded.now) }
{
    decoded.known();
    if decoded.len() == 0 {
        return None;
    }
    fill_mean(decoded, mean);
    Some(nearest_row(decoded, mean))
}
