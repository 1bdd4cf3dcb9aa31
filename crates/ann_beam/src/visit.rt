ghost use Rattle.std.specs.Prelude.{◌≡◌, ◌<◌, All, [], ◌∷◌, length, OnOk};
ghost use Rattle.ann_beam.specs.Course.{sight_of};
ghost use Rattle.ann_beam.specs.Desk.{IsReady, Keeps, progress, standing};
ghost use Rattle.ann_beam.specs.Progress.{HasSeen};
ghost use Rattle.ann_beam.specs.Refusals.{HasGone};

use crate::candidates::meet;
use crate::course::Course;
use crate::rank::rank;
use crate::{Desk, SearchRefused};
use ann_block::read_node;
use ann_dead::Deleted;
use ann_vault::{Eye, Sealed};

impl<'a, S: Sealed, D: Deleted> Course<'a, S, D> {
    /// Visits a row: reads its block once, ranks its point, and meets its neighbours.
    pub(crate) fn visit<E: Eye<Seal = S>>(
        &self,
        eye: &mut E,
        desk: &mut Desk,
        row: u32,
    ) -> Result<(), SearchRefused>
        requires row { row < length self.now.segment.now.items }
        requires width { length self.now.query.now ≡ self.now.params.now.d }
        requires ready { IsReady self.now.segment.now desk.old }
        ensures ready { IsReady self.now.segment.now desk.new }
        ensures kept { Keeps desk.old desk.new }
        ensures gone { HasGone S.tells S.bytes self.now.segment.now self.now.params.now
            (standing desk.old (E.reads eye.old) (E.faults eye.old))
            (standing desk.new (E.reads eye.new) (E.faults eye.new)) result }
        ensures seen { S.tells → OnOk result (HasSeen
            (sight_of self.now (D.pids self.now.dead.now) S.bytes desk.old)
            (row ∷ []) (progress desk.old (E.reads eye.old) (E.faults eye.old))
            (progress desk.new (E.reads eye.new) (E.faults eye.new))) }
    {
        let block = self.segment.node_block(row);
        eye.read(self.segment.seal(), 4096 * block, &mut desk.page)?;
        let pid = self.segment.pid(row);
        match read_node(&desk.page, pid, row, self.segment.count(), self.params) {
            Ok(node) => {
                rank(&mut desk.ranking, self.dead, pid, self.query, &node);
                meet(self.segment, &desk.tables, &mut desk.guided, &node);
                Ok(())
            }
            Err(_) => Err(SearchRefused::BadSegment { block }),
        }
    }

    /// Visits rows in turn.
    pub(crate) fn visit_all<E: Eye<Seal = S>>(
        &self,
        eye: &mut E,
        desk: &mut Desk,
        rows: &[u32],
    ) -> Result<(), SearchRefused>
        requires inside { All (λ row. row < length self.now.segment.now.items) rows.now }
        requires width { length self.now.query.now ≡ self.now.params.now.d }
        requires ready { IsReady self.now.segment.now desk.old }
        ensures ready { IsReady self.now.segment.now desk.new }
        ensures kept { Keeps desk.old desk.new }
        ensures gone { HasGone S.tells S.bytes self.now.segment.now self.now.params.now
            (standing desk.old (E.reads eye.old) (E.faults eye.old))
            (standing desk.new (E.reads eye.new) (E.faults eye.new)) result }
        ensures seen { S.tells → OnOk result (HasSeen
            (sight_of self.now (D.pids self.now.dead.now) S.bytes desk.old)
            rows.now (progress desk.old (E.reads eye.old) (E.faults eye.old))
            (progress desk.new (E.reads eye.new) (E.faults eye.new))) }
    {
        for row in rows {
            self.visit(eye, desk, *row)?;
        }
        Ok(())
    }
}
