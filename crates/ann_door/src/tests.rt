ghost use Rattle.std.specs.Prelude.{ℕ, ◌≡◌, IfOk};

use crate::Door;
use crossbeam_utils::rule::Unruled;
use left_right::Absorb;
use left_right::reader::Reader;
use left_right::writer::Writer;
use std::alloc::AllocError;
use std::test::Fail;

// The number that was set last.
#[derive(Drop)]
struct Last(u64);

impl Absorb<u64> for Last {
    type State = u64;

    ghost state = { λ last. last.0 };

    ghost applied = { λ _ number. number };

    ghost never_fails = { Unit {0} };

    fn absorb_first(&mut self, operation: &u64, _other: &Last) -> Result<(), AllocError> {
        self.0 = *operation;
        Ok(())
    }
}

// What a reader sees through a door, and the reader again.
fn seen(
    door: &mut Door,
    reader: Reader<Last, (), Unruled>,
) -> (Option<u64>, Reader<Last, (), Unruled>) {
    match door.enter::<_, _, _, _, Unruled>(reader) {
        Ok(reading) => {
            let number = reading.get().0;
            (Some(number), reading.leave())
        }
        Err(reader) => (None, reader),
    }
}

#[test]
fn an_entry_is_counted_where_the_reader_comes_back(rt: HostRuntime) -> Result<(), Fail> {
    let writer: Writer<Last, u64, (), Unruled> = Writer::new(rt.alloc(), Last(5), Last(5), 1)?;
    let mut door = Door::new();
    let made = writer.factory().reader();
    let taken = made.map(|reader| seen(&mut door, reader));
    let refused_none = door.refused() == 0;
    writer.take(&rt);
    let (number, reader) = taken?;
    let (nothing, _reader) = seen(&mut door, reader);
    assert!(rt; number == Some(5) && refused_none);
    assert!(rt; nothing.is_none() && door.refused() == 1);
    Ok(())
}
