ghost use Rattle.std.specs.Prelude.{◌≡◌, ◌<◌, [], length, IfOk, OnOk};
ghost use Rattle.ann_types.specs.Rounds.{rounds_of};
ghost use Rattle.ann_beam.specs.Course.{sight_of};
ghost use Rattle.ann_beam.specs.Desk.{IsReady, Keeps, progress, standing};
ghost use Rattle.ann_beam.specs.Progress.{HasVisited, MakesRound, ground_at};
ghost use Rattle.ann_beam.specs.Refusals.{HasGone};

use crate::candidates::{choose, offer};
use crate::course::Course;
use crate::{Desk, SearchRefused};
use ann_dead::Deleted;
use ann_vault::{Eye, Sealed};

/// The most points of a round.
const WIDEST: usize = 16;

impl<'a, S: Sealed, D: Deleted> Course<'a, S, D> {
    /// Makes a round: chooses its rows, and then visits them. False where there is no row left.
    fn make_round<E: Eye<Seal = S>>(
        &self,
        eye: &mut E,
        desk: &mut Desk,
    ) -> Result<bool, SearchRefused>
        requires width { length self.now.query.now ≡ self.now.params.now.d }
        requires ready { IsReady self.now.segment.now desk.old }
        ensures ready { IsReady self.now.segment.now desk.new }
        ensures kept { Keeps desk.old desk.new }
        ensures gone { HasGone S.tells S.bytes self.now.segment.now self.now.params.now
            (standing desk.old (E.reads eye.old) (E.faults eye.old))
            (standing desk.new (E.reads eye.new) (E.faults eye.new)) result }
        ensures round { S.tells → IfOk result (MakesRound
            (sight_of self.now (D.pids self.now.dead.now) S.bytes desk.old)
            self.now.params.now.w (progress desk.old (E.reads eye.old) (E.faults eye.old))
            (progress desk.new (E.reads eye.new) (E.faults eye.new))) }
    {
        let mut rows = [0; WIDEST];
        let count = choose(&mut desk.guided, usize::from(self.params.w), &mut rows);
        self.visit_all(eye, desk, &rows[..count])?;
        Ok(count > 0)
    }

    /// Makes all rounds from an entry.
    pub(crate) fn make_rounds<E: Eye<Seal = S>>(
        &self,
        eye: &mut E,
        desk: &mut Desk,
        entry: u32,
    ) -> Result<(), SearchRefused>
        requires entry { entry < length self.now.segment.now.items }
        requires width { length self.now.query.now ≡ self.now.params.now.d }
        requires code { self.now.segment.now.m ≡ length desk.old.tables }
        requires none { (desk.old.guided.items ≡ []) × (desk.old.guided.met ≡ []) }
        ensures kept { Keeps desk.old desk.new }
        ensures gone { HasGone S.tells S.bytes self.now.segment.now self.now.params.now
            (standing desk.old (E.reads eye.old) (E.faults eye.old))
            (standing desk.new (E.reads eye.new) (E.faults eye.new)) result }
        ensures visits { S.tells → OnOk result (HasVisited
            (sight_of self.now (D.pids self.now.dead.now) S.bytes desk.old)
            (rounds_of (ground_at (sight_of self.now (D.pids self.now.dead.now) S.bytes desk.old) entry)
            desk.old.guided.limit self.now.params.now.w (length self.now.segment.now.items))
            (standing desk.old (E.reads eye.old) (E.faults eye.old))
            (standing desk.new (E.reads eye.new) (E.faults eye.new))) }
    {
        offer(self.segment, &desk.tables, &mut desk.guided, entry);
        for _turn in 0..self.segment.count() {
            if !self.make_round(eye, desk)? {
                break;
            }
        }
        Ok(())
    }
}
