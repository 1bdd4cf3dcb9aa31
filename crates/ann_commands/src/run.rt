ghost use Rattle.std.specs.Prelude.{◌≡◌, ℕ, true, List, Option, None, map, IfOk, string_bytes};
ghost use Rattle.ann_log.specs.Causes.{HasCauses};
ghost use Rattle.ann_outside.specs.Told.{TellsStill};
ghost use Rattle.ann_script.specs.Allowed.{IsScriptOf};
ghost use Rattle.ann_script.specs.Script.{Client};
ghost use Rattle.ann_script.specs.declared.verbs.Verbs.TheVariants.{Once};
ghost use Rattle.ann_types.specs.declared.params.Params.{Params};
ghost use Rattle.ann_once.specs.Live.{ScriptTellsLive};
ghost use Rattle.ann_once.specs.Once.{once_index};
ghost use Rattle.ann_commands.specs.Checked.{devices};
ghost use Rattle.ann_commands.specs.Counts.{CountsDue, CountsReads, CountsWrites};
ghost use Rattle.ann_commands.specs.Owed.{IsDue, IsOwed, IsPaid};
ghost use Rattle.ann_commands.specs.Place.{IsWhole};
ghost use Rattle.ann_commands.specs.Status.{Served, LineFault, line_fault_text, HasInited, Ends};
ghost use Rattle.ann_commands.specs.Words.{AreAlone, is_check as check_in, once_setting};

use crate::check::{check_index, said};
use crate::kinds::is_check;
use crate::owed::Owed;
use crate::place::Place;
use crate::words::{init_params, once_params};
use ann_disk::LogFile;
use ann_init::{InitEnd, InitWhy, init};
use ann_log::Files;
use ann_once::transcript_of;
use ann_script::{Script, ScriptRefused, Sink, Source, Verbs, write_all};
use ann_types::Params;
use ann_vault::{Eye, Vault};
use std::alloc::{AllocError, Global};
use std::fmt::Write;

/// The status of a command that breaks off, since its output failed.
const WRITE_FAULT: u8 = 5;

/// The text of a line at fault.
fn line_text(alloc: Global, number: u64) -> Result<String, AllocError>
    ensures { IfOk result (λ text. string_bytes text ≡ line_fault_text number) }
{
    let mut text = String::new(alloc);
    write!(text, "line {number}\n")?;
    Ok(text)
}

/// What is owed for a line at fault.
fn line_at_fault(alloc: Global, number: u64) -> Owed
    ensures { IsDue result (LineFault number) }
{
    match line_text(alloc, number) {
        Ok(text) => Owed::Line(text),
        Err(_) => Owed::Memory,
    }
}

/// What is owed for a script that was read.
fn transcribed(alloc: Global, params: &Params, script: &Script) -> Owed
    requires code { params.now.m ≡ 1 }
    requires script { IsScriptOf Once script.now }
    ensures { IsDue result (Served params.now script.now) }
{
    match transcript_of(alloc, params, script) {
        Ok(transcript) => Owed::Transcribed(transcript),
        Err(_) => Owed::Memory,
    }
}

/// Makes an empty index in a place, of the codebook that is read from an input.
fn make_index<S: Source, F: LogFile, V: Vault, E: Eye<Seal = V::Seal>>(
    alloc: Global,
    params: &Params,
    input: &mut S,
    place: &mut Place<F, V, E>,
) -> Result<(), InitWhy>
    requires place { IsWhole place.old }
    ensures ended { HasInited F.LogFile params.now (S.left input.old) (S.left input.new)
        place.old place.new result }
    ensures whole { IsWhole place.new }
    ensures told { TellsStill (S.left input.old) (S.left input.new) }
    ensures count { HasCauses (S.faults input.old) (S.faults input.new) InitWhy.ReadFault result }
{
    let (Some(first), Some(second)) = (place.log.take(), place.second.take()) else {
        return Err(InitWhy::Memory);
    };
    let InitEnd { result, files } = init(alloc, input, Files { first, second }, params);
    let Files { first, second } = files;
    place.log = Some(first);
    place.second = Some(second);
    result
}

/// What is owed for the words `check`.
fn due_check<F: LogFile, V: Vault, E: Eye<Seal = V::Seal>>(
    alloc: Global,
    words: &[String],
    place: &mut Place<F, V, E>,
) -> Owed
    requires words { check_in (map string_bytes words.now) ≡ true }
    requires place { IsWhole place.old }
    ensures is { (left : Option (List ℕ)) → IsOwed
        (devices F.LogFile V.Seal.tells V.Seal.bytes V.held V.faults E.faults) (map string_bytes words.now)
        left left place.old place.new result }
    ensures whole { IsWhole place.new }
    ensures count { (count : ℕ) → CountsDue result count count }
{
    let ended = check_index(alloc, place);
    said(alloc, &ended)
}

/// What is owed where the words aren't `once`: those of `init` or of `check`, or of no command.
fn due_kept<S: Source, F: LogFile, V: Vault, E: Eye<Seal = V::Seal>>(
    alloc: Global,
    words: &[String],
    input: &mut S,
    place: &mut Place<F, V, E>,
) -> Owed
    requires words { once_setting (map string_bytes words.now) ≡ None }
    requires place { IsWhole place.old }
    ensures is { IsOwed
        (devices F.LogFile V.Seal.tells V.Seal.bytes V.held V.faults E.faults)
        (map string_bytes words.now) (S.left input.old) (S.left input.new)
        place.old place.new result }
    ensures whole { IsWhole place.new }
    ensures told { TellsStill (S.left input.old) (S.left input.new) }
    ensures count { CountsDue result (S.faults input.old) (S.faults input.new) }
{
    match init_params(words) {
        Some(params) => Owed::Init(make_index(alloc, &params, input, place)),
        None if is_check(words) => due_check(alloc, words, place),
        None => Owed::Usage,
    }
}

/// What a command owes its output, after it has read its input and worked with its place.
fn due<S: Source, F: LogFile, V: Vault, E: Eye<Seal = V::Seal>>(
    alloc: Global,
    words: &[String],
    input: &mut S,
    place: &mut Place<F, V, E>,
) -> Owed
    requires { IsWhole place.old }
    ensures is { IsOwed
        (devices F.LogFile V.Seal.tells V.Seal.bytes V.held V.faults E.faults)
        (map string_bytes words.now) (S.left input.old) (S.left input.new)
        place.old place.new result }
    ensures whole { IsWhole place.new }
    ensures told { TellsStill (S.left input.old) (S.left input.new) }
    ensures count { CountsDue result (S.faults input.old) (S.faults input.new) }
{
    let params = match once_params(words) {
        Some(params) => params,
        None => return due_kept(alloc, words, input, place),
    };
    match Script::read(alloc, input, Verbs::Once, 1) {
        Ok(script) => transcribed(alloc, &params, &script),
        Err(ScriptRefused::Line { number }) => line_at_fault(alloc, number),
        Err(ScriptRefused::Failed) => Owed::ReadFault,
        Err(ScriptRefused::Memory(_)) => Owed::Memory,
    }
}

/// Writes what is owed, and gives the exit status.
fn pay<K: Sink>(out: &mut K, owed: &Owed) -> u8
    ensures paid { IsPaid (K.taken out.old) (K.taken out.new) owed.now result }
    ensures told { TellsStill (K.taken out.old) (K.taken out.new) }
    ensures count { CountsWrites result (K.faults out.old) (K.faults out.new) }
{
    match write_all(out, owed.bytes()) {
        Ok(()) => owed.status(),
        Err(_) => WRITE_FAULT,
    }
}

/// Runs a command of one thread over any input, output and place, and gives its exit status.
///
/// The command `once D R L A/B` reads a script of one client, and writes the replies to its commands in order. It
/// doesn't touch the place. `init D R L A/B W M FREEZE` reads a codebook and makes an empty index in the place. `check` reads
/// no input, looks into the index that is there, and changes nothing.
///
/// The status is 0, or 2 where the words are at fault, 3 where a line of a script is, 4 where a read failed, 5 where
/// a write failed, 6 where a call of the place failed, 7 where no index is there, 8 where the log or a segment is at fault,
/// 9 where there was no memory, 10 where an index is there, and 11 where the codebook is at fault. For all but 5 the text that belongs to it was written as a whole. The place has all
/// its parts again.
pub fn run_alone<S: Source, K: Sink, F: LogFile, V: Vault, E: Eye<Seal = V::Seal>>(
    alloc: Global,
    words: &[String],
    input: &mut S,
    out: &mut K,
    place: &mut Place<F, V, E>,
) -> u8
    requires words { AreAlone (map string_bytes words.now) }
    requires place { IsWhole place.old }
    // The status and the written text are those of what happened; where a write failed, a front of that text was written.
    // The place is as it was, save that `init` may have made an empty index in its files, and that the devices which `check`
    // used, and leaves as they read, may have counted.
    ensures ends { Ends (devices F.LogFile V.Seal.tells V.Seal.bytes V.held V.faults E.faults)
        (map string_bytes words.now)
        (S.left input.old) (S.left input.new)
        (K.taken out.old) (K.taken out.new)
        place.old place.new
        result }
    ensures whole { IsWhole place.new }
    // Each tag that a search of a script tells is live at the list that its reply names.
    ensures live { (params : Params) (script : List Client) → ScriptTellsLive (once_index params) script }
    ensures told { TellsStill (S.left input.old) (S.left input.new)
        × TellsStill (K.taken out.old) (K.taken out.new) }
    // A fault is one that was counted in this call, and a count rises for a fault alone.
    ensures reads { CountsReads result (S.faults input.old) (S.faults input.new) }
    ensures writes { CountsWrites result (K.faults out.old) (K.faults out.new) }
{
    let owed = due(alloc, words, input, place);
    pay(out, &owed)
}
