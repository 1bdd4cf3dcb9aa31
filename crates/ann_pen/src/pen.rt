// A writer with the handle by which it waits.
ghost use Rattle.std.specs.Prelude.{◌≡◌, ℕ, ◌^◌, ◌<◌, ◌++◌, ◌∷◌, [], drop, fold, IfOk, MatchResult};
ghost use Rattle.crossbeam_utils.specs.Register.{Admits, Forks, Merges, TurnsAt};
ghost use Rattle.left_right.specs.Sides.{view};
ghost use Rattle.ann_pen.specs.Published.{Published};

use atomic_table::{Join, Split};
use core::mem::replace_with;
use crossbeam_utils::rule::{Outcome, Protocol};
use left_right::Absorb;
use left_right::reader::Reader;
use left_right::writer::Writer;
use std::alloc::{AllocError, Global};
use std::marker::Model;
use std::sync::Wait;

/// Publishes values of type `T`, each made from the last one by operations of type `O`, under the rule `P`.
///
/// Contracts see it as the value that readers take, the operations that wait to be published, and the writer's own view
/// by the rule. It keeps the handle `R`, since publishing and its drop wait for the readers.
pub struct Pen<T: Absorb<O> + Drop, O: Drop, V, P: Protocol<T, V>, R: Wait + Drop> {
    writer: Writer<T, O, V, P>,
    rt: R,
}

impl<T: Absorb<O> + Drop, O: Drop, V, P: Protocol<T, V>, R: Wait + Drop> Model
    for Pen<T, O, V, P, R> {
    ghost use Rattle.std.specs.Prelude.{drop};
    ghost use Rattle.left_right.specs.Sides.{view as seat_view};
    ghost use Rattle.ann_pen.specs.Published.{Published};

    ghost Value = { Published T O V };

    ghost view = { λ p. record {
      value = p.writer.desk.shown.value;
      waiting = drop p.writer.behind p.writer.log.items;
      knows = seat_view p.writer.desk.place;
    } };
}

impl<T: Absorb<O> + Drop, O: Drop, V, P: Protocol<T, V>, R: Wait + Drop> Pen<T, O, V, P, R> {
    /// Publishes the first of two values that are alike, with places for so many readers. The only error is want of
    /// memory; the handle and both values are then gone.
    pub fn new(
        rt: R,
        alloc: Global,
        first: T,
        second: T,
        readers: usize,
    ) -> Result<Pen<T, O, V, P, R>, AllocError>
        requires readers { (0 < readers) × (readers < 2 ^ 32) }
        requires alike { T.state first ≡ T.state second }
        requires rule { P.holds first (P.first ∷ []) }
        ensures { IfOk result (λ pen. pen ≡ record { value = first; waiting = []; knows = P.first }) }
    {
        Ok(Pen {
            writer: Writer::new(alloc, first, second, readers)?,
            rt,
        })
    }

    /// A reader that knows what each knows at the start. The only error is want of memory or of a place.
    pub fn reader(&self) -> Result<Reader<T, V, P>, AllocError>
        requires { Admits P.holds P.first }
        ensures { IfOk result (λ reader. view reader.place ≡ P.first) }
    {
        self.writer.factory().reader()
    }

    /// A reader that knows besides what the writer tells. The only error is want of memory or of a place.
    pub fn told_reader<S: Split<V>, J: Join<V>>(&mut self) -> Result<Reader<T, V, P>, AllocError>
        requires admits { Admits P.holds P.first }
        requires keeps { S.left self.old.knows ≡ self.old.knows }
        requires forks { (id : ℕ) →
            Forks P.holds id self.old.knows (S.left self.old.knows) (S.right self.old.knows) }
        requires merges { (id other : ℕ) → Merges P.holds id P.first other (S.right self.old.knows)
            (J.both P.first (S.right self.old.knows)) J.spent }
        ensures same { self.new ≡ self.old }
        ensures told { IfOk result (λ reader.
            view reader.place ≡ J.both P.first (S.right self.old.knows)) }
    {
        let mut reader = self.writer.factory().reader()?;
        reader.learn::<J>(self.writer.tell::<S>());
        Ok(reader)
    }

    /// Lets an operation wait to be published. It comes back where there is no memory.
    pub fn append(&mut self, op: O) -> Result<(), O>
        ensures { MatchResult result
            (λ _. self.new ≡ record self.old { waiting = self.old.waiting ++ op ∷ [] })
            (λ back. (back ≡ op) × (self.new ≡ self.old)) }
    {
        self.writer.append(op)
    }

    /// Publishes the value that the waiting operations lead to, once no reader has the one before the last. The only
    /// error is want of memory, and all is then as before.
    pub fn publish_as<M: Outcome<T, V>>(&mut self) -> Result<(), AllocError>
        requires { (id : ℕ) (next : T) →
            T.state next ≡ fold T.applied (T.state self.old.value) self.old.waiting →
            TurnsAt P.holds id self.old.knows self.old.value next M.then }
        ensures { MatchResult result
            (λ _. (T.state self.new.value ≡ fold T.applied (T.state self.old.value) self.old.waiting)
            × (self.new.waiting ≡ []) × M.then self.old.knows self.old.value self.new.value self.new.knows)
            (λ _. self.new ≡ self.old) }
    {
        replace_with(
            &mut self.writer,
            &self.rt,
            |writer: Writer<T, O, V, P>, rt: &R| -> (Writer<T, O, V, P>, Result<(), AllocError>)
                requires { (next : T) → T.state next
                    ≡ fold T.applied (T.state writer.desk.shown.value) (drop writer.behind writer.log.items) →
                    TurnsAt P.holds writer.desk.place.id (view writer.desk.place)
                    writer.desk.shown.value next M.then }
            { writer.publish_as::<M, R>(rt) },
        )
    }

    /// Ends the writer once no reader reads, and gives the value that was published last.
    pub fn take(self) -> Box<T>
        ensures { result.value ≡ self.value }
    {
        let Self { writer, rt } = self;
        writer.take(&rt)
    }
}

impl<T: Absorb<O> + Drop, O: Drop, V, P: Protocol<T, V>, R: Wait + Drop> Drop
    for Pen<T, O, V, P, R> {
    fn drop(self) {
        let Self { writer, rt } = self;
        drop(writer.take(&rt));
    }
}
