ghost use Rattle.std.specs.Prelude.{◌≤◌, ◌<◌, length, IfOk};
ghost use Rattle.ann_fault.specs.Counts.{HasCause};
ghost use Rattle.ann_outside.specs.Told.{TellsStill};
ghost use Rattle.ann_script.specs.Allowed.{IsScriptOf};
ghost use Rattle.ann_script.specs.Script.{rules};
ghost use Rattle.ann_script.specs.Reading.{Reads, ReadsChunk, CountsReads, Tells};

use crate::draft::Draft;
use crate::script::Script;
use crate::script_refused::ScriptRefused;
use crate::verbs::{Rules, Verbs};
use ann_outside::{Failed, Source};
use std::alloc::Global;

/// The most bytes of a script.
const LIMIT: usize = 1 << 26;

/// How many bytes are read at once.
const CHUNK: usize = 8192;

/// Reads at most `room` bytes into the front of the buffer, and gives their number: 0 exactly at the end of the input.
fn read_chunk<S: Source>(input: &mut S, buffer: &mut [u8], room: usize) -> Result<usize, Failed>
    requires some { 0 < room }
    requires fits { room ≤ length buffer.old }
    ensures bound { IfOk result (λ n. n ≤ room) }
    ensures held { IfOk result (λ n. n ≤ length buffer.new) }
    ensures bytes { ReadsChunk (S.left input.old) (S.left input.new) buffer.new result }
    ensures tells { TellsStill (S.left input.old) (S.left input.new) }
    ensures cause { HasCause (S.faults input.old) (S.faults input.new) result }
{
    input.read(&mut buffer[..room])
}

/// Reads a script under these rules.
fn read_script<S: Source>(
    alloc: Global,
    input: &mut S,
    rules: Rules,
) -> Result<Script, ScriptRefused>
    ensures reads { Reads rules (S.left input.old) (S.left input.new) result }
    ensures told { TellsStill (S.left input.old) (S.left input.new) }
    ensures count { CountsReads (S.faults input.old) (S.faults input.new) result }
{
    let mut draft = Draft::new(alloc, rules);
    let mut buffer = [0u8; CHUNK];
    let mut count = 0;
    while count < LIMIT {
        let room = CHUNK.min(LIMIT - count);
        match read_chunk(input, &mut buffer, room) {
            Err(Failed) => return Err(ScriptRefused::Failed),
            Ok(0) => return draft.finish(alloc),
            Ok(taken) => {
                draft.take(alloc, &buffer[..taken])?;
                count += taken;
            }
        }
    }
    match read_chunk(input, &mut buffer, 1) {
        Err(Failed) => Err(ScriptRefused::Failed),
        Ok(0) => draft.finish(alloc),
        Ok(_) => Err(ScriptRefused::Line {
            number: draft.number(),
        }),
    }
}

impl Script {
    /// Reads a script of at most `clients` clients to its end, or up to its first line at fault.
    ///
    /// Reads no more than one byte beyond `2^26`, and nothing after a read that failed. Besides the script's commands it
    /// holds the longest line alone.
    pub fn read<S: Source>(
        alloc: Global,
        input: &mut S,
        verbs: Verbs,
        clients: u32,
    ) -> Result<Script, ScriptRefused>
        // A script, its first line at fault, or a fault of reading, whichever comes first in the input.
        ensures reads { Reads (rules verbs clients) (S.left input.old) (S.left input.new) result }
        // The same of an input that tells its bytes.
        ensures tells { Tells (rules verbs clients) (S.left input.old) result }
        ensures told { TellsStill (S.left input.old) (S.left input.new) }
        // A script has commands of these verbs alone, each within its limits.
        ensures allowed { IfOk result (IsScriptOf verbs) }
        // A fault of reading is one fault more in this call, and in every other case no read failed.
        ensures count { CountsReads (S.faults input.old) (S.faults input.new) result }
    {
        read_script(alloc, input, Rules { verbs, clients })
    }
}
