ghost use Rattle.std.specs.Prelude.{◌≡◌, ◌≤◌, ◌<◌, ◌∷◌, [], All, length, take};
ghost use Rattle.ann_beam.specs.Candidates.{AreCandidates, HasMet, HasChosen};

use ann_block::Node;
use ann_lanes::touched;
use ann_pool::Pool;
use ann_pq::Tables;
use ann_segment::Segment;
use ann_vault::Sealed;

/// Offers a row at its guided distance, unless the pool knows that it was met before.
pub(crate) fn offer<S: Sealed>(segment: &Segment<S>, tables: &Tables, guided: &mut Pool, row: u32)
    requires row { row < length segment.now.items }
    requires code { segment.now.m ≡ length tables.now }
    requires candidates { AreCandidates tables.now segment.now.items guided.old }
    ensures { HasMet tables.now segment.now.items (row ∷ []) guided.old guided.new }
{
    if guided.has_met(row) {
        return;
    }
    guided.offer(tables.distance(segment.code(row)), row);
}

/// Reads a little of the code of each neighbour that the pool doesn't know, so that these come from memory side by side.
fn touch_all<S: Sealed>(segment: &Segment<S>, guided: &Pool, node: &Node) -> u8
    requires { All (λ row. row < length segment.now.items) node.now.neighbours }
{
    let mut byte = 0;
    for i in 0..node.degree() {
        let row = node.neighbour(i);
        if !guided.has_met(row) {
            byte ^= touched(segment.code(row));
        }
    }
    byte
}

/// Meets the neighbours of a visited node.
pub(crate) fn meet<S: Sealed>(segment: &Segment<S>, tables: &Tables, guided: &mut Pool, node: &Node)
    requires inside { All (λ row. row < length segment.now.items) node.now.neighbours }
    requires code { segment.now.m ≡ length tables.now }
    requires candidates { AreCandidates tables.now segment.now.items guided.old }
    ensures { HasMet tables.now segment.now.items node.now.neighbours guided.old guided.new }
{
    guided.keep_warm(touch_all(segment, guided, node));
    for i in 0..node.degree() {
        offer(segment, tables, guided, node.neighbour(i));
    }
}

/// Chooses the points of a round: marks the first `w` unvisited rows, or fewer where there are fewer, and gives how many
/// there are. They stand at the front of `rows`.
pub(crate) fn choose(guided: &mut Pool, w: usize, rows: &mut [u32]) -> usize
    requires room { w ≤ length rows.old }
    ensures size { length rows.new ≡ length rows.old }
    ensures few { (result ≤ w) × (result ≤ length rows.new) }
    ensures chosen { HasChosen w (take result rows.new) guided.old guided.new }
{
    let mut count = 0;
    while count < w {
        let Some(item) = guided.next_unvisited() else {
            break;
        };
        rows[count] = item.number;
        count += 1;
    }
    count
}
