// The search of the long-term graph behind the graphs in memory.
ghost use Rattle.std.specs.Prelude.{◌≡◌, ◌≢◌, ◌↔◌, length, IsOk, IfOk, IfErr, IsErrOf, OnOk, OnErr};
ghost use Rattle.std.specs.Arc.{arc_value};
ghost use Rattle.std.specs.Option.{option_map};
ghost use Rattle.ann_beam.specs.Desk.{result_of, standing};
ghost use Rattle.ann_beam.specs.Found.{IsSearched};
ghost use Rattle.ann_beam.specs.Quest.{Fits, quest_of};
ghost use Rattle.ann_beam.specs.declared.refused.SearchRefused.TheVariants.{Dimension};
ghost use Rattle.ann_view.specs.View.{IndexView};
ghost use Rattle.ann_view.specs.Search.{IsAnswered, IsNearOf, from_near, near_result, nothing_found, quest_by, quest_in};

use crate::pinned::Pinned;
use crate::view::View;
use ann_beam::{Desk, SearchRefused, beam};
use ann_dead::Deleted;
use ann_pq::Codebook;
use ann_segment::Segment;
use ann_types::{Ask, Params};
use ann_vault::{Eye, Sealed};
use std::sync::Arc;

/// A search's answer stands on the desk; this is the state that it is the answer of.
#[derive(Clone, Copy, Debug, PartialEq, Eq)]
pub struct Found {
    /// How many entries lead to that state.
    pub at: u64,
}

/// Adds the live long-term points that a beam visits to the desk's result, or empties it where the beam is refused.
fn add_long_term<S: Sealed, E: Eye<Seal = S>, D: Deleted>(
    segment: &Option<Arc<Segment<S>>>,
    book: &Codebook,
    params: &Params,
    dead: &D,
    desk: &mut Desk,
    eye: &mut E,
    ask: &Ask,
) -> Result<(), SearchRefused>
    requires fits { Fits
        (quest_of (option_map arc_value segment.now) params.now book.now (D.pids dead.now) ask.now) }
    requires limit { (result_of desk.old).limit ≡ ask.now.k }
    ensures limit { (result_of desk.new).limit ≡ ask.now.k }
    ensures searched { IsSearched S.tells S.bytes
        (quest_of (option_map arc_value segment.now) params.now book.now (D.pids dead.now) ask.now)
        (standing desk.old (E.reads eye.old) (E.faults eye.old))
        (standing desk.new (E.reads eye.new) (E.faults eye.new)) result }
    ensures emptied { OnErr result (result_of desk.new ≡ nothing_found ask.now.k) }
{
    let Some(segment) = segment else {
        return Ok(());
    };
    match beam(segment, book, eye, desk, ask, params, dead) {
        Ok(()) => Ok(()),
        Err(why) => {
            desk.restart(ask.k);
            Err(why)
        }
    }
}

impl<S: Sealed> Pinned<S> {
    /// Adds the long-term points to what `View::near` left on the desk, and so finds what a search of the whole view
    /// finds.
    ///
    /// `near` was the desk's last call, for this ask and the state that was pinned.
    ///
    /// # Errors
    ///
    /// `Disk` and `BadSegment`, as `beam` answers them. The hits are then empty, and after `BadSegment` the desk's page
    /// is the block at fault.
    pub fn disk<E: Eye<Seal = S>>(
        self,
        desk: &mut Desk,
        eye: &mut E,
        ask: &Ask,
    ) -> Result<Found, SearchRefused>
        requires width { length ask.now.vector ≡ self.params.d }
        requires near { (view : IndexView S) × IsNearOf self ask.now (result_of desk.old) view }
        ensures at { IfOk result (λ found. found.at ≡ self.at) }
        ensures searched { IsSearched S.tells S.bytes (quest_by self ask.now)
            (standing desk.old (E.reads eye.old) (E.faults eye.old))
            (standing desk.new (E.reads eye.new) (E.faults eye.new)) result }

        ensures limit { (result_of desk.new).limit ≡ ask.now.k }

        // It finds the answer of the state that was pinned.
        ensures answered { S.tells → (view : IndexView S) → IsNearOf self ask.now (result_of desk.old) view →
            OnOk result (IsAnswered S.bytes view ask.now (result_of desk.new).points) }
        ensures emptied { OnErr result (result_of desk.new ≡ nothing_found ask.now.k) }
    {
        add_long_term(
            &self.segment,
            &self.book,
            &self.params,
            &self.dead,
            desk,
            eye,
            ask,
        )?;
        Ok(Found { at: self.at })
    }
}

impl<S: Sealed> View<S> {
    /// Finds the points nearest to a query in the graphs in memory: the desk's result then has, with the ask's k as its
    /// limit, the least by distance and Pid of the live points near it in each. Deleted points take their places among
    /// those near (FreshDiskANN, section 4.2). Takes no memory.
    ///
    /// # Errors
    ///
    /// `Dimension` exactly where the lengths differ. The result is then empty.
    pub fn near(&self, desk: &mut Desk, ask: &Ask) -> Result<(), SearchRefused>
        ensures near { OnOk result (result_of desk.new ≡ near_result self.now.memory ask.now) }
        ensures fits { IsOk result ↔ (length ask.now.vector ≡ self.now.params.d) }
        ensures dimension { IfErr result (λ why. why ≡ Dimension (length ask.now.vector) self.now.params.d) }
        ensures emptied { OnErr result (result_of desk.new ≡ nothing_found ask.now.k) }
    {
        desk.restart(ask.k);
        let got = ask.vector.bytes().len() as u32;
        let want = u32::from(self.temp.params().d);
        if got != want {
            return Err(SearchRefused::Dimension { got, want });
        }
        self.temp.near(desk, ask);
        Ok(())
    }

    /// Adds the long-term points to what `near` left on the desk, as `Pinned::disk` does.
    ///
    /// `near` was the desk's last call, for this ask and this view.
    ///
    /// # Errors
    ///
    /// `Disk` and `BadSegment`, as `beam` answers them. The hits are then empty, and after `BadSegment` the desk's page
    /// is the block at fault.
    pub fn disk<E: Eye<Seal = S>>(
        &self,
        desk: &mut Desk,
        eye: &mut E,
        ask: &Ask,
    ) -> Result<Found, SearchRefused>
        requires width { length ask.now.vector ≡ self.now.params.d }
        requires near { result_of desk.old ≡ near_result self.now.memory ask.now }
        ensures at { IfOk result (λ found. found.at ≡ self.now.at) }
        ensures searched { IsSearched S.tells S.bytes (quest_in self.now ask.now)
            (standing desk.old (E.reads eye.old) (E.faults eye.old))
            (standing desk.new (E.reads eye.new) (E.faults eye.new)) result }
        ensures limit { (result_of desk.new).limit ≡ ask.now.k }

        // It finds the answer of this state.
        ensures answered { S.tells →
            OnOk result (IsAnswered S.bytes self.now ask.now (result_of desk.new).points) }
        ensures emptied { OnErr result (result_of desk.new ≡ nothing_found ask.now.k) }
    {
        let params = self.temp.params();
        add_long_term(
            &self.segment,
            &self.book,
            params,
            self.temp.dead(),
            desk,
            eye,
            ask,
        )?;
        Ok(Found { at: self.at })
    }

    /// Finds the points nearest to a query (Search of FreshDiskANN, section 5.2): `near`, and then `disk`. The hits on the
    /// desk are the answer of every list that the view stands for and whose long-term graph its segment holds. Takes no
    /// memory.
    ///
    /// # Errors
    ///
    /// `Dimension` exactly where the lengths differ, and it comes first. `Disk` and `BadSegment`, as `beam` answers them.
    /// The hits are then empty, and after `BadSegment` the desk's page is the block at fault.
    pub fn search<E: Eye<Seal = S>>(
        &self,
        desk: &mut Desk,
        eye: &mut E,
        ask: &Ask,
    ) -> Result<Found, SearchRefused>
        ensures at { IfOk result (λ found. found.at ≡ self.now.at) }

        // Where the lengths differ that is answered, and nothing is read.
        ensures differ { length ask.now.vector ≢ self.now.params.d →
            IsErrOf result (Dimension (length ask.now.vector) self.now.params.d) × (eye.new ≡ eye.old) }
        ensures searched { length ask.now.vector ≡ self.now.params.d →
            IsSearched S.tells S.bytes (quest_in self.now ask.now)
            (from_near self.now ask.now (standing desk.old (E.reads eye.old) (E.faults eye.old)))
            (standing desk.new (E.reads eye.new) (E.faults eye.new)) result }
        ensures limit { (result_of desk.new).limit ≡ ask.now.k }

        // It finds the answer of this state.
        ensures answered { S.tells →
            OnOk result (IsAnswered S.bytes self.now ask.now (result_of desk.new).points) }
        ensures emptied { OnErr result (result_of desk.new ≡ nothing_found ask.now.k) }
    {
        self.near(desk, ask)?;
        self.disk(desk, eye, ask)
    }
}
