ghost use Rattle.std.specs.Prelude.{None};

use ann_script::{Command, Failed, MemorySource, Script, ScriptRefused, Source, Verbs};
use ann_types::Change;
use std::alloc::{AllocError, Global};
use std::test::Fail;

/// What reading a script gave, in one number: 0 for a script, the number of the line at fault, or another for the rest.
const READ_FAULT: u64 = 1 << 40;

const NO_MEMORY: u64 = 1 << 41;

fn fault_of<S: Source>(alloc: Global, input: &mut S, verbs: Verbs, clients: u32) -> u64 {
    match Script::read(alloc, input, verbs, clients) {
        Ok(_) => 0,
        Err(ScriptRefused::Line { number }) => number,
        Err(ScriptRefused::Failed) => READ_FAULT,
        Err(ScriptRefused::Memory(_)) => NO_MEMORY,
    }
}

/// As `fault_of`, of this text.
fn fault_under(alloc: Global, text: &[u8], failing: u64, verbs: Verbs, clients: u32) -> u64 {
    match MemorySource::new(alloc, text, &[failing]) {
        Ok(mut input) => fault_of(alloc, &mut input, verbs, clients),
        Err(_) => NO_MEMORY,
    }
}

/// The fault of this text as a script of `once`, where the read of this number fails.
fn fault_in(alloc: Global, text: &[u8], failing: u64) -> u64 {
    fault_under(alloc, text, failing, Verbs::Once, 1)
}

/// A text with so many copies of another behind it.
fn followed(alloc: Global, text: &[u8], more: &[u8], count: u32) -> Result<Vec<u8>, AllocError> {
    let mut whole = Vec::from_slice(alloc, text)?;
    for _ in 0..count {
        whole.extend_from_slice(more)?;
    }
    Ok(whole)
}

/// Scripts, and the number of their first line at fault, or 0.
const SCRIPTS: &[(&str, u64)] = &[
    ("", 0),
    ("a insert 7 3 4\na insert x 1 1\n", 2),
    ("a insert 7 3 4\na search 1 4 0 0", 0),
    ("a insert 7 3 4\n\na insert 8 3", 0),
    (
        " \ta\tinsert  7 3 4 \t\r\n#a line\n\n \t\n# a insert 07 1\na search 1 4 0 0\r\n",
        0,
    ),
    ("a insert 07 3 4", 1),
    ("a insert +7 3 4", 1),
    ("a insert 7 03", 1),
    ("a insert 7 0 255", 0),
    ("a insert 7 256", 1),
    ("a insert 18446744073709551615 1", 0),
    ("a insert 18446744073709551616 1", 1),
    ("a insert 7", 1),
    ("a insert", 1),
    ("a", 1),
    ("a search 1 4 0\na insrt 7 1\n", 2),
    ("a delete 7", 0),
    ("a delete", 1),
    ("a delete 7 1", 1),
    ("a delete 18446744073709551616", 1),
    ("a replace 7 3 4", 0),
    ("a replace 7", 1),
    ("a batch insert 7 1 ; delete 8\t; replace 9 2", 0),
    ("a batch delete 7 ;  delete 7", 0),
    ("a batch", 1),
    ("a batch ;", 1),
    ("a batch delete 7 ;", 1),
    ("a batch ; delete 7", 1),
    ("a batch delete 7 ; ; delete 7", 1),
    ("a batch insert 7 1; delete 8", 1),
    ("a batch search 1 1 0", 1),
    ("a batch batch delete 7", 1),
    ("a insert 7 1 ; delete 8", 1),
    ("a delete 7 ; delete 8", 1),
    ("a merge", 1),
    ("a fill 1 2 3", 1),
    ("a search 0 4 0", 1),
    ("a search 5 4 0", 1),
    ("a search 4 4 0", 0),
    ("a search 1000 1000 0", 0),
    ("a search 1 1001 0", 1),
    ("a search 1 4", 1),
    ("a search 1", 1),
    ("a search 1 1 0 # none", 1),
    ("a search 1 1 0\r\r\n", 1),
    ("a search 1 1 0\r", 0),
    ("a search 1 1 0\nb search 1 1 0\n", 2),
    ("abcdefghijklm_-0 search 1 1 0", 0),
    ("abcdefghijklm_-01 search 1 1 0", 1),
    ("a! search 1 1 0", 1),
    ("a search 1 1 0\n\n\nx\n\ny\n", 4),
];

/// The first of these scripts that is read otherwise.
fn wrong_script(alloc: Global) -> Option<&'static str> {
    for &(text, line) in SCRIPTS {
        if fault_in(alloc, text.as_bytes(), 0) != line {
            return Some(text);
        }
    }
    None
}

#[test]
fn finds_the_first_line_at_fault(rt: HostRuntime) {
    assert_eq!(rt; wrong_script(rt.alloc()), None);
}

/// Scripts of several clients, and the number of their first line at fault, for the verbs of `run` and for that of `truth`.
const OTHERS: &[(&str, u64, u64)] = &[
    ("a search 1 1 0\nb search 1 1 0\na search 2 2 9", 0, 0),
    ("a insert 7 3\n", 0, 1),
    ("a search 1 1 0\nb batch delete 7", 0, 2),
    ("a merge\nb merge", 0, 1),
    ("a merge now", 1, 1),
    ("a fill 1 2 3", 0, 1),
    ("a fill 2147483647 1000000 0", 0, 1),
    ("a fill 2147483648 1 0", 1, 1),
    ("a fill 1 0 0", 1, 1),
    ("a fill 1 1000001 0", 1, 1),
    ("a fill 1 1 18446744073709551615", 0, 1),
    ("a fill 1 2 18446744073709551615", 1, 1),
    ("a fill 1 2 18446744073709551614", 0, 1),
    ("a fill 1 2", 1, 1),
    ("a fill 1 2 3 4", 1, 1),
    ("a fill 01 2 3", 1, 1),
];

/// The first of these scripts that is read otherwise.
fn wrong_other(alloc: Global) -> Option<&'static str> {
    for &(text, all, truth) in OTHERS {
        let faults = (
            fault_under(alloc, text.as_bytes(), 0, Verbs::All, 32),
            fault_under(alloc, text.as_bytes(), 0, Verbs::Truth, 32),
        );
        if faults != (all, truth) {
            return Some(text);
        }
    }
    None
}

#[test]
fn reads_the_verbs_of_each_command(rt: HostRuntime) {
    assert_eq!(rt; wrong_other(rt.alloc()), None);
}

/// A front, what follows it, how often, the read that fails, and the fault.
const LONG: &[(&str, &str, u32, u64, u64)] = &[
    ("a insert 7", " 1", 1024, 0, 0),
    ("a insert 7", " 1", 1025, 0, 1),
    ("a batch delete 7", " ; delete 7", 63, 0, 0),
    ("a batch delete 7", " ; delete 7", 64, 0, 1),
    ("a search 1 1 0\n#", " no", 10_000, 1, READ_FAULT),
    ("a search 1 1 0\n#", " no", 10_000, 2, READ_FAULT),
    ("a search 1 1 0\n#", " no", 10_000, 9, 0),
    ("!a search 1 1 0\n#", " no", 10_000, 2, 1),
];

/// The fault of a long text, where the read of this number fails.
fn fault_in_long(alloc: Global, front: &str, more: &str, count: u32, failing: u64) -> u64 {
    match followed(alloc, front.as_bytes(), more.as_bytes(), count) {
        Ok(text) => fault_in(alloc, &text, failing),
        Err(_) => NO_MEMORY,
    }
}

fn wrong_long(alloc: Global) -> Option<(&'static str, u32)> {
    for &(front, more, count, failing, fault) in LONG {
        if fault_in_long(alloc, front, more, count, failing) != fault {
            return Some((front, count));
        }
    }
    None
}

#[test]
fn limits_components_and_tells_read_faults_from_lines(rt: HostRuntime) {
    assert_eq!(rt; wrong_long(rt.alloc()), None);
}

fn is_insert(command: &Command) -> bool {
    match command {
        Command::Update {
            changes,
            batch: false,
        } =>
            matches!(changes.items(), [Change::Insert { tag: 7, vector }] if vector.bytes() == [3, 4].as_slice()),
        _ => false,
    }
}

fn is_batch(command: &Command) -> bool {
    match command {
        Command::Update {
            changes,
            batch: true,
        } =>
            matches!(changes.items(), [Change::Delete { tag: 8 }, Change::Replace { tag: 9, vector }] if vector.bytes() == [1].as_slice()),
        _ => false,
    }
}

fn is_search(command: &Command) -> bool {
    match command {
        Command::Search { ask } => ask.k == 1
            && ask.l == 4
            && ask.vector.bytes() == [0, 9].as_slice(),
        _ => false,
    }
}

fn is_read(script: &Script) -> bool {
    if script.clients() != 1 {
        return false;
    }
    let commands = script.commands(0);
    script.name(0) == "bob"
        && commands.len() == 3
        && is_insert(&commands[0])
        && is_batch(&commands[1])
        && is_search(&commands[2])
}

fn reads_a_script(alloc: Global) -> Result<bool, AllocError> {
    let mut input = MemorySource::new(
        alloc,
        b"bob insert 7 3 4\nbob batch delete 8 ; replace 9 1\nbob search 1 4 0 9\n",
        &[],
    )?;
    match Script::read(alloc, &mut input, Verbs::Once, 1) {
        Ok(script) => Ok(is_read(&script)),
        Err(_) => Ok(false),
    }
}

#[test]
fn reads_names_and_commands(rt: HostRuntime) -> Result<(), Fail> {
    assert!(rt; reads_a_script(rt.alloc())?);
    Ok(())
}

/// An input of so many bytes `#`, which are one comment.
#[derive(Drop)]
struct Comment {
    left: usize,
}

impl Source for Comment {
    ghost left = { λ _. None };

    ghost faults = { λ _. 0 };

    fn read(&mut self, buf: &mut [u8]) -> Result<usize, Failed> {
        let count = buf.len().min(self.left);
        buf.fill(b'#');
        self.left -= count;
        Ok(count)
    }
}

#[test]
fn limits_the_bytes(rt: HostRuntime) {
    let alloc = rt.alloc();
    let most = 1 << 26;
    let faults = (
        fault_of(alloc, &mut Comment { left: most }, Verbs::Once, 1),
        fault_of(alloc, &mut Comment { left: most + 1 }, Verbs::Once, 1),
    );
    assert_eq!(rt; faults, (0, 1));
}
