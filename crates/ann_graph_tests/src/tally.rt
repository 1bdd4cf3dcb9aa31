ghost use Rattle.std.specs.Prelude.{◌≡◌};

use ann_tally::{Chit, Numbers, Tally};
use std::test::Fail;

// A value that may go to another thread.
fn sent<T: Send>(value: T) -> T
    ensures { result ≡ value }
{
    value
}

// Whether this is the chit of a client, with these numbers.
fn is_chit(chit: &Chit, client: u32, numbers: Numbers) -> bool {
    chit.client() == client && chit.numbers() == numbers
}

// Sets the numbers of client 1, with each of the three clients' chits before and after.
#[test]
fn a_chit_and_the_tally_change_together(rt: HostRuntime) -> Result<(), Fail> {
    let (tally, mut chits) = Tally::new(rt.alloc(), 3)?;
    let mut tally = sent(tally);
    let none = Numbers::default();
    let told = Numbers {
        entries: 5,
        stop: 7,
        ..none
    };
    let chit = &mut chits[1];
    tally.meet(chit);
    let before = is_chit(chit, 1, none);
    tally.put(chit, told);
    tally.meet(chit);
    let after = is_chit(chit, 1, told);
    let kept = (tally.numbers(0), tally.numbers(1), tally.numbers(2));
    let others = is_chit(&chits[0], 0, none) && is_chit(&sent(chits)[2], 2, none);
    assert!(rt; before && after && kept == (none, told, none) && others);
    Ok(())
}
