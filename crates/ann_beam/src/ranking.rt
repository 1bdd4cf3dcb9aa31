ghost use Rattle.std.specs.Prelude.{◌≡◌, ◌≤◌, ◌↔◌, [], IsTrue, length, map, IfOk, vec_len, vec_capacity};
ghost use Rattle.ann_beam.specs.Ranking.{IsBeyond, IsPlaceOf, IsRanked, StaysAt, hit_of, joined, nearer, with_ranked};

use ann_types::{Hit, Pid, Tag};
use std::alloc::{AllocError, Global};
use std::marker::Model;

/// The most points of a ranking.
const ROOM: usize = 1000;

/// The nearest points that were found, in order of distance and Pid, up to a limit.
///
/// It has room for 1000 points from the start, and takes no memory after that. The hits stand side by side, so that they
/// are told as they are; their Pids stand beside them, in the same order.
#[derive(Drop)]
pub struct Ranking {
    limit: u16,
    pids: Vec<Pid>,
    hits: Vec<Hit>,
}

impl Model for Ranking {
    ghost use Rattle.std.specs.Prelude.{◌≡◌, ◌≤◌, ◌<◌, vec_len, vec_capacity};
    ghost use Rattle.ann_beam.specs.Ranking.{RankingView, IsRanked, joined};

    ghost Value = { RankingView };

    ghost view = { λ r. record { limit = r.limit; points = joined r.pids.items r.hits.items } };

    ghost invariant = { λ r. (1 ≤ r.limit)
        × (r.limit ≤ 1000)
        × (vec_len r.pids ≡ vec_len r.hits)
        × (vec_len r.hits ≤ r.limit)
        × (1000 < vec_capacity r.pids)
        × (1000 < vec_capacity r.hits)
        × IsRanked (joined r.pids.items r.hits.items) };
}

/// Whether a point stands before another one.
fn is_before(distance: u32, pid: Pid, other: &Hit, other_pid: Pid) -> bool
    ensures { result ≡ nearer (record { pid = pid; tag = 0; distance = distance })
        (record { pid = other_pid; tag = other.now.tag; distance = other.now.distance }) }
{
    distance < other.distance || (distance == other.distance && pid < other_pid)
}

/// The place behind the last point that a new one doesn't stand before. It is looked for from the end, where most new
/// points belong.
fn place_of(pids: &[Pid], hits: &[Hit], pid: Pid, hit: Hit) -> usize
    requires both { length pids.now ≡ length hits.now }
    requires order { IsRanked (joined pids.now hits.now) }
    ensures inside { result ≤ length hits.now }
    ensures place { IsPlaceOf (record { pid = pid; tag = hit.tag; distance = hit.distance })
        (joined pids.now hits.now) result }
{
    let mut place = hits.len();
    while place > 0 && is_before(hit.distance, pid, &hits[place - 1], pids[place - 1]) {
        place -= 1;
    }
    place
}

impl Ranking {
    /// A ranking without points, of limit 1000. The only error is want of memory.
    pub fn with_room(alloc: Global) -> Result<Ranking, AllocError>
        ensures { IfOk result (λ ranking. ranking ≡ record { limit = 1000; points = [] }) }
    {
        Ok(Ranking {
            limit: 1000,
            pids: Vec::with_capacity(alloc, ROOM + 1)?,
            hits: Vec::with_capacity(alloc, ROOM + 1)?,
        })
    }

    /// Drops all points, and sets how many there may be: 1 to 1000.
    pub fn clear(&mut self, limit: u16)
        requires { (1 ≤ limit) × (limit ≤ 1000) }
        ensures { self.new ≡ record { limit = limit; points = [] } }
    {
        self.limit = limit;
        self.pids.clear();
        self.hits.clear();
    }

    /// Adds a point: the points are then the least of them and the new one, as many as the limit allows.
    pub fn add(&mut self, pid: Pid, tag: Tag, distance: u32)
        ensures limit { self.new.limit ≡ self.old.limit }
        ensures points { self.new.points ≡ with_ranked self.old.limit
            (record { pid = pid; tag = tag; distance = distance }) self.old.points }
    {
        let hit = Hit { tag, distance };
        let place = place_of(&self.pids, &self.hits, pid, hit);
        let _ = self.pids.insert(place, pid);
        let _ = self.hits.insert(place, hit);
        self.pids.truncate(usize::from(self.limit));
        self.hits.truncate(usize::from(self.limit));
    }

    /// Whether there are as many points as there may be and all are nearer than this, so that a point this far away
    /// would change nothing.
    pub fn is_beyond(&self, distance: u32) -> bool
        ensures beyond { IsTrue result ↔ IsBeyond distance self.now }
        ensures stays { IsTrue result → StaysAt distance self.now }
    {
        let count = self.hits.len();
        count == usize::from(self.limit) && self.hits[count - 1].distance < distance
    }

    /// The points as a search tells them, the nearest first.
    pub fn hits(&self) -> &[Hit]
        ensures hits { result.now ≡ map hit_of self.now.points }
        ensures few { length self.now.points ≤ self.now.limit }
    {
        &self.hits
    }

    /// How many points there may be.
    pub fn limit(&self) -> u16
        ensures limit { result ≡ self.now.limit }
        ensures inside { (1 ≤ result) × (result ≤ 1000) }
    {
        self.limit
    }
}
