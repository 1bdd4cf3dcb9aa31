// What the commands of a client go to.
ghost use Rattle.std.specs.Prelude.{◌≡◌, ◌<◌, ◌≤◌, List, length};
ghost use Rattle.ann_types.specs.declared.hit.Hit.{Hit as HitView};
ghost use Rattle.ann_script.specs.Order as order;
ghost use Rattle.ann_transcript.specs.declared.reply.Reply.TheVariants as reply;
ghost use Rattle.ann_said.specs.Knowing.{Known};
ghost use Rattle.ann_connection.specs.Causes.{IsReplyCaused, IsUpdateCaused};
ghost use Rattle.ann_connection.specs.Connection.{IsUpdated, MaySay, search_reply};
ghost use Rattle.ann_connection.specs.Opening.{Counts, Opening};

use ann_transcript::{MergeWord, SearchWord, UpdateWord};
use ann_types::{Ask, Change, Hit};

/// A client's connection to an index.
///
/// A connection stands for what its client knows of the list that the run will leave, by `knows`; each call promises what
/// it says to whoever holds that. A call of a connection of which nothing is known is safe, and no more.
pub trait Connection: Drop {
    /// What a client knows of a run that opened so.
    ghost knows: { Self → Opening → Known → Type 0 };

    /// How often each device has failed.
    ghost counts: { Self → Counts };

    /// What the last search found.
    ghost found: { Self → List HitView };

    /// The run has one client.
    ghost alone: { Type 0 };

    /// Makes 1 to 64 changes, all or none, and gives the length of the list behind them.
    ///
    /// # Errors
    ///
    /// The first change that is refused; that the log failed, or has failed before; or want of memory, before or behind the
    /// logging.
    fn update(&mut self, changes: &[Change]) -> Result<u64, UpdateWord>
        requires some { 0 < length changes.now }
        requires few { length changes.now < 65 }
        ensures said { (run : Opening) (known : Known) → knows self.old run known →
            IsUpdated run known (knows self.new run) changes.now result }
        ensures cause { (run : Opening) (known : Known) → knows self.old run known →
            IsUpdateCaused alone run.counts (counts self.old) (counts self.new) result };

    /// Finds the points nearest to a vector, and gives the length of the list whose points they are.
    ///
    /// # Errors
    ///
    /// That the vector has another number of components than the index's; that a read failed, or met a bad block; or that the
    /// client couldn't enter the view.
    fn search(&mut self, ask: &Ask) -> Result<u64, SearchWord>
        ensures said { (run : Opening) (known : Known) → knows self.old run known →
            MaySay run known (knows self.new run) (order.Find ask.now.k ask.now.l ask.now.vector)
            (search_reply result (found self.new)) }
        ensures cause { (run : Opening) (known : Known) → knows self.old run known →
            IsReplyCaused alone run.counts (counts self.old) (counts self.new)
            (search_reply result (found self.new)) };

    /// What the last search found, the nearest first.
    fn hits(&self) -> &[Hit]
        ensures { result.now ≡ found self.now };

    /// Merges the graphs in memory into the long-term graph, and says what came of it.
    fn merge(&mut self) -> MergeWord
        ensures said { (run : Opening) (known : Known) → knows self.old run known →
            MaySay run known (knows self.new run) order.Merge (reply.Merge result) }
        ensures cause { (run : Opening) (known : Known) → knows self.old run known →
            IsReplyCaused alone run.counts (counts self.old) (counts self.new) (reply.Merge result) };

    /// How many components the vectors of the index's points have.
    fn dimension(&self) -> u16
        ensures { (run : Opening) (known : Known) → knows self.now run known → result ≡ run.index.params.d };

    /// The client's command of this number, from 1, has been answered.
    fn answered(&self, number: u32);
}
