// A client of an index that is made up, through the trait.
ghost use Rattle.std.specs.Prelude.{ℕ, []};

use crate::serve;
use ann_connection::Connection;
use ann_script::{
    MemorySource, MergeWord, Script, ScriptRefused, SearchWord, Transcript, UpdateWord, Verbs,
};
use ann_types::{Ask, Change, Hit};
use std::alloc::{AllocError, Global};
use std::cell::Cell;
use std::test::Fail;

/// An index that keeps no point: it accepts updates while there is room, and finds the same hit always.
#[derive(Drop)]
struct Pretended {
    entries: u64,
    room: u64,
    hits: Vec<Hit>,
    answered: Cell<u32>,
}

impl Connection for Pretended {
    // Nothing is known of it.
    ghost knows = { λ it run known. ⊥ };

    ghost counts = { λ it. record { log = 0; eye = 0; door = 0; merge = [] } };

    ghost found = { λ it. it.hits.items };

    ghost alone = { ⊥ };

    fn update(&mut self, changes: &[Change]) -> Result<u64, UpdateWord> {
        let more = changes.len() as u64;
        if self.room - self.entries.min(self.room) < more {
            return Err(UpdateWord::Full {
                index: 0,
                at: self.entries,
            });
        }
        self.entries = self.entries.saturating_add(more);
        Ok(self.entries)
    }

    fn search(&mut self, ask: &Ask) -> Result<u64, SearchWord> {
        if ask.vector.bytes().len() == 2 {
            Ok(self.entries)
        } else {
            Err(SearchWord::Shut)
        }
    }

    fn hits(&self) -> &[Hit] {
        &self.hits
    }

    fn merge(&mut self) -> MergeWord {
        MergeWord::Nothing { at: self.entries }
    }

    fn dimension(&self) -> u16 {
        2
    }

    fn answered(&self, number: u32) {
        self.answered.set(number);
    }
}

/// Whether the commands of a text get these lines, and how many of them were answered.
fn serves(
    alloc: Global,
    room: u64,
    text: &[u8],
    wanted: &[u8],
) -> Result<(bool, u32), ScriptRefused> {
    let mut input = MemorySource::new(alloc, text, &[])?;
    let script = Script::read(alloc, &mut input, Verbs::All, 1)?;
    if script.clients() == 0 {
        return Ok((wanted.is_empty(), 0));
    }
    let hits = vec![in alloc; Hit {
        tag: 7,
        distance: 25
    }; 1]?;
    let mut connection = Pretended {
        entries: 0,
        room,
        hits,
        answered: Cell::new(0),
    };
    let mut transcript = Transcript::new(alloc);
    serve(
        alloc,
        &mut connection,
        script.name(0),
        script.commands(0),
        &mut transcript,
    )?;
    Ok((transcript.bytes() == wanted, connection.answered.get()))
}

/// Each kind of command, of whom all are accepted but for the last updates of a fill.
const TEXT: &[u8] = b"a insert 7 3 4
a fill 1 66 10
a search 1 4 0 0
a search 1 4 0
a merge
a fill 1 200 100
a batch insert 8 1 1 ; delete 7
a fill 1 64 300
a delete 8
";

const LINES: &[u8] = b"a 1 inserted 7 at 1
a 2 filled 66 at 67
a 3 found at 67 7:25
a 4 shut
a 5 nothing at 67
a 6 filled 128 then change 1 full at 195
a 7 accepted 2 at 197
a 8 filled 0 then change 1 full at 197
a 9 deleted 8 at 198
";

#[test]
fn serves_each_command(rt: HostRuntime) -> Result<(), Fail> {
    let alloc = rt.alloc();
    assert!(rt; matches!(serves(alloc, 200, TEXT, LINES), Ok((true, 9))));
    Ok(())
}
