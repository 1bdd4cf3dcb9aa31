ghost use Rattle.std.specs.Prelude.{◌≡◌, Some};
ghost use Rattle.ann_beam.specs.Quest.{Fits, quest_of};
ghost use Rattle.ann_beam.specs.Desk.{result_of, standing};
ghost use Rattle.ann_beam.specs.Found.{IsSearched};

use crate::course::Course;
use crate::{Desk, SearchRefused};
use ann_dead::Deleted;
use ann_pq::Codebook;
use ann_segment::Segment;
use ann_types::{Ask, Params};
use ann_vault::{Eye, Sealed};

/// Adds the points of a segment that a beam visits, without the deleted ones, to the desk's result by exact distances
/// (BeamSearch of DiskANN, section 3.3, and its reranking, section 3.5).
///
/// It goes by guided distances, visits w points a round, and reads the block of each once. The query has d components,
/// and the codebook and the segment are those of an index with these parameters. It takes no memory.
///
/// # Errors
///
/// `Disk` where a read failed, and `BadSegment` with a block that was read and is outside the format; it stands on the
/// desk's page. The desk's candidates and its result may then hold anything; the result's limit stays.
pub fn beam<S: Sealed, E: Eye<Seal = S>, D: Deleted>(
    segment: &Segment<S>,
    book: &Codebook,
    eye: &mut E,
    desk: &mut Desk,
    ask: &Ask,
    params: &Params,
    dead: &D,
) -> Result<(), SearchRefused>
    requires { Fits (quest_of (Some segment.now) params.now book.now (D.pids dead.now) ask.now) }
    ensures searched { IsSearched S.tells S.bytes
        (quest_of (Some segment.now) params.now book.now (D.pids dead.now) ask.now)
        (standing desk.old (E.reads eye.old) (E.faults eye.old))
        (standing desk.new (E.reads eye.new) (E.faults eye.new)) result }
    ensures limit { (result_of desk.new).limit ≡ (result_of desk.old).limit }
{
    book.known();
    segment.known();
    let query = ask.vector.bytes();
    desk.tables.fill(book, query);
    desk.guided.clear(ask.l);
    let course = Course {
        segment,
        params,
        query,
        dead,
    };
    match segment.entry() {
        Some(entry) => course.make_rounds(eye, desk, entry),
        None => Ok(()),
    }
}
