ghost use Rattle.std.specs.Prelude.{◌≡◌, ◌≤◌, ◌<◌, ◌+◌};
ghost use Rattle.ann_crew.specs.Members.{IsFresh, HasDrawn, HasDone};

use crate::gate::{Gate, Spot};
use crate::task::{Stretch, Task};
use ann_claim::{Claimer, Claims};
use ann_mdelete::WorkRefused;

/// A worker that draws pieces: its claimer, what its pieces gave, and why it stopped, if it did.
#[derive(Drop)]
pub(crate) struct Member<W, P> {
    pub(crate) claimer: Claimer,
    pub(crate) worker: W,
    pub(crate) results: Vec<(u32, P)>,
    pub(crate) refusal: Option<WorkRefused>,
}

/// Does a piece, behind the gate, and keeps what it gives, or why it is refused.
fn do_piece<W, G: Gate, T: Task<W>>(
    gate: &G,
    task: &T,
    stretch: Stretch,
    number: u32,
    member: &mut Member<W, T::Piece>,
)
    requires within { stretch.first + number < T.count task.now }
    requires small { stretch.first + number < 4294967296 }
    ensures { HasDone (T.goes task.now) (T.causes task.now) (T.is_piece task.now)
        stretch.first number member.old member.new }
{
    if member.refusal.is_some() {
        return;
    }
    let piece = stretch.first + number;
    gate.pass(Spot::Piece {
        phase: stretch.phase,
        number: piece,
    });
    match task.work(&mut member.worker, piece) {
        Ok(made) => {
            if member.results.push((number, made)).is_err() {
                member.refusal = Some(WorkRefused::Memory);
            }
        }
        Err(why) => member.refusal = Some(why),
    }
}

/// Draws pieces until none is left. A worker that is refused draws on without work, so that the drawing ends.
pub(crate) fn draw_all<W, G: Gate, T: Task<W>>(
    gate: &G,
    task: &T,
    stretch: Stretch,
    claims: &Claims,
    member: &mut Member<W, T::Piece>,
)
    requires within { stretch.first + claims.now.numbers ≤ T.count task.now }
    requires small { stretch.first + claims.now.numbers ≤ 4294967296 }
    requires fresh { IsFresh claims.now member.old }
    ensures { HasDrawn (T.goes task.now) (T.causes task.now) (T.is_piece task.now)
        stretch.first claims.now member.old member.new }
{
    while let Some(number) = claims.draw(&mut member.claimer) {
        do_piece(gate, task, stretch, number, member);
    }
}

/// What a member drew, once its worker went back to its place.
#[derive(Drop)]
pub(crate) struct Drawn<P> {
    pub(crate) claimer: Claimer,
    pub(crate) results: Vec<(u32, P)>,
    pub(crate) refusal: Option<WorkRefused>,
}
