ghost use Rattle.std.specs.Prelude.{◌≡◌, ◌≤◌, ◌∷◌, [], length};
ghost use Rattle.ann_types.specs.Distance.{distance};
ghost use Rattle.ann_beam.specs.Ranking.{with_all};
ghost use Rattle.ann_beam.specs.Visits.{alive};

use crate::ranking::Ranking;
use ann_block::Node;
use ann_dead::Deleted;
use ann_lanes::squared;
use ann_types::Pid;

/// Ranks a visited point by its exact distance, unless it is deleted.
pub(crate) fn rank<D: Deleted>(ranking: &mut Ranking, dead: &D, pid: Pid, query: &[u8], node: &Node)
    requires width { length query.now ≡ length node.now.vector }
    requires short { length query.now ≤ 1024 }
    ensures limit { ranking.new.limit ≡ ranking.old.limit }
    ensures points { ranking.new.points ≡ with_all ranking.old.limit (alive (D.pids dead.now)
        (record { pid = pid; tag = node.now.tag; distance = distance query.now node.now.vector } ∷ []))
        ranking.old.points }
{
    if dead.contains(pid) {
        return;
    }
    ranking.add(pid, node.tag(), squared(query, node.vector()));
}
