ghost use Rattle.std.specs.Prelude.{◌≡◌, ◌*◌, ◌<◌};
ghost use Rattle.ann_mdelete.specs.declared.refused.WorkRefused.TheVariants.{Memory};

use ann_crew::{Gate, NoGate, Spot, Stretch, Task, run};
use ann_mdelete::WorkRefused;
use std::sync::atomic::{AtomicU64, Ordering};
use std::test::Fail;

// The squares of the numbers below 1000. A worker has a name, which stays, and may be one that is always refused.
#[derive(Drop)]
struct Squares {
    refused: u32,
}

impl Task<u32> for Squares {
    type Piece = u64;

    ghost use Rattle.std.specs.Prelude.{◌≡◌, ◌*◌};
    ghost use Rattle.std.proofs.Common.{refl, ◌∙◌};

    ghost count = { λ _. 1000 };

    ghost is_piece = { λ _ number piece. piece ≡ number * number };

    ghost goes = { λ _ old new. old ≡ new };

    ghost causes = { λ _ old new why. old ≡ new };

    fn work(&self, worker: &mut u32, number: u32) -> Result<u64, WorkRefused> {
        if *worker == self.refused {
            return Err(WorkRefused::BadSegment {
                block: u64::from(*worker),
            });
        }
        Ok(u64::from(number) * u64::from(number))
    }

    ghost stays = { λ task worker. refl };

    ghost goes_on = { λ task u v w e f. e ∙ f };

    ghost caused = { λ task u v w why e f. e ∙ f };

    ghost memory = { λ task u v e. e };
}

// A gate at which the pieces 0 and 1 wait until both have come, or for ten million turns.
#[derive(Drop)]
struct Meeting {
    come: AtomicU64,
    given_up: AtomicU64,
}

impl Meeting {
    fn new() -> Meeting {
        Meeting {
            come: AtomicU64::new(0),
            given_up: AtomicU64::new(0),
        }
    }

    fn wait(&self) {
        for _ in 0..10_000_000u32 {
            if self.come.load(Ordering::SeqCst) >= 2 {
                return;
            }
        }
        self.given_up.fetch_add(1, Ordering::SeqCst);
    }
}

impl Gate for Meeting {
    fn pass(&self, spot: Spot) {
        if let Spot::Piece { phase: 3, number } = spot {
            if number < 2 {
                self.come.fetch_add(1, Ordering::SeqCst);
                self.wait();
            }
        }
    }
}

const NONE: Squares = Squares { refused: 99 };

#[test]
fn pieces_stand_in_order_for_each_number_of_workers(rt: HostRuntime) -> Result<(), Fail> {
    let stretch = Stretch {
        phase: 1,
        first: 100,
        count: 5,
    };
    let mut one = vec![in rt.alloc(); 7]?;
    let mut many = vec![in rt.alloc(); 1, 2, 3, 4, 5, 6, 7, 8, 9, 10, 11, 12, 13, 14, 15, 16]?;
    let alone = run(&rt, rt.alloc(), &NoGate, &NONE, stretch, &mut one)?;
    let together = run(&rt, rt.alloc(), &NoGate, &NONE, stretch, &mut many)?;
    assert!(rt;
        alone.as_slice() == [10000, 10201, 10404, 10609, 10816].as_slice() && alone == together
    );
    assert!(rt; one.as_slice() == [7].as_slice() && many[0] == 1 && many[15] == 16);
    Ok(())
}

#[test]
fn two_pieces_wait_for_each_other(rt: HostRuntime) -> Result<(), Fail> {
    let stretch = Stretch {
        phase: 3,
        first: 0,
        count: 2,
    };
    let meeting = Meeting::new();
    let mut workers = vec![in rt.alloc(); 1, 2]?;
    let squares = run(&rt, rt.alloc(), &meeting, &NONE, stretch, &mut workers)?;
    assert!(rt; squares.as_slice() == [0, 1].as_slice());
    assert!(rt; meeting.come.load(Ordering::SeqCst) == 2);
    assert!(rt; meeting.given_up.load(Ordering::SeqCst) == 0);
    Ok(())
}

#[test]
fn a_refused_worker_keeps_its_place(rt: HostRuntime) -> Result<(), Fail> {
    let stretch = Stretch {
        phase: 2,
        first: 0,
        count: 40,
    };
    let refused = Squares { refused: 5 };
    let mut workers = vec![in rt.alloc(); 5]?;
    let why = run(&rt, rt.alloc(), &NoGate, &refused, stretch, &mut workers);
    assert!(rt; matches!(why, Err(WorkRefused::BadSegment { block: 5 })));
    assert!(rt; workers.as_slice() == [5].as_slice());
    Ok(())
}
