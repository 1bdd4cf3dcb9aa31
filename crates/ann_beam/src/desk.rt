ghost use Rattle.std.specs.Prelude.{◌≡◌, ◌≤◌, ◌↔◌, [], IsTrue, length, map, IfOk};
ghost use Rattle.ann_beam.specs.Ranking.{IsBeyond, StaysAt, hit_of, with_ranked};

use crate::ranking::Ranking;
use ann_pool::Pool;
use ann_pq::Tables;
use ann_types::{Hit, Params, Pid, Tag};
use std::alloc::{AllocError, Global};

/// All that a search works with, made once, so that no search takes memory.
#[derive(Drop)]
pub struct Desk {
    /// The candidates of walks through graphs in memory.
    pub pool: Pool,
    /// The candidates of a beam, by guided distances.
    pub(crate) guided: Pool,
    /// The tables that give guided distances.
    pub(crate) tables: Tables,
    /// The block that is read.
    pub(crate) page: [u8; 4096],
    /// The nearest points found so far.
    pub(crate) ranking: Ranking,
}

/// The pools of a desk, without items.
fn pools(alloc: Global) -> Result<(Pool, Pool), AllocError>
    ensures { IfOk result (λ pools. pools.0 ≡ record { limit = 1000; items = []; met = [] }) }
{
    Ok((Pool::with_room(alloc)?, Pool::with_room(alloc)?))
}

/// The tables and the ranking of a desk, without points.
fn tables_and_ranking(alloc: Global) -> Result<(Tables, Ranking), AllocError>
    ensures { IfOk result (λ both. both.1 ≡ record { limit = 1000; points = [] }) }
{
    Ok((Tables::with_room(alloc)?, Ranking::with_room(alloc)?))
}

impl Desk {
    ghost use Rattle.ann_beam.specs.Desk.{page_of, result_of};

    /// A desk for searches of an index with any parameters. The only error is want of memory.
    pub fn new(alloc: Global, _params: &Params) -> Result<Desk, AllocError>
        ensures pool { IfOk result (λ desk. desk.pool ≡ record { limit = 1000; items = []; met = [] }) }
        ensures result { IfOk result (λ desk. result_of desk ≡ record { limit = 1000; points = [] }) }
    {
        let (pool, guided) = pools(alloc)?;
        let (tables, ranking) = tables_and_ranking(alloc)?;
        Ok(Desk {
            pool,
            guided,
            tables,
            page: [0; 4096],
            ranking,
        })
    }

    /// Empties the result, and sets how many points it may have: 1 to 1000.
    pub fn restart(&mut self, k: u16)
        requires { (1 ≤ k) × (k ≤ 1000) }
        ensures result { result_of self.new ≡ record { limit = k; points = [] } }
        ensures pool { self.new.pool ≡ self.old.pool }
        ensures page { page_of self.new ≡ page_of self.old }
    {
        self.ranking.clear(k);
    }

    /// Adds a point to the result, which then has the least of its points and this one, as many as its limit allows.
    pub fn add(&mut self, pid: Pid, tag: Tag, distance: u32)
        ensures limit { (result_of self.new).limit ≡ (result_of self.old).limit }
        ensures points { (result_of self.new).points ≡ with_ranked (result_of self.old).limit
            (record { pid = pid; tag = tag; distance = distance }) (result_of self.old).points }
        ensures pool { self.new.pool ≡ self.old.pool }
        ensures page { page_of self.new ≡ page_of self.old }
    {
        self.ranking.add(pid, tag, distance);
    }

    /// Whether the result has as many points as it may and all are nearer than this, so that a point this far away would
    /// change nothing.
    pub fn is_beyond(&self, distance: u32) -> bool
        ensures beyond { IsTrue result ↔ IsBeyond distance (result_of self.now) }
        ensures stays { IsTrue result → StaysAt distance (result_of self.now) }
    {
        self.ranking.is_beyond(distance)
    }

    /// The result, in order of distance and Pid.
    pub fn hits(&self) -> &[Hit]
        ensures hits { result.now ≡ map hit_of (result_of self.now).points }
        ensures few { length (result_of self.now).points ≤ (result_of self.now).limit }
    {
        self.ranking.hits()
    }

    /// The page: 4096 bytes. After `BadSegment` the block at fault stands there.
    pub fn page(&self) -> &[u8]
        ensures page { result.now ≡ page_of self.now }
        ensures size { length result.now ≡ 4096 }
    {
        &self.page
    }
}
