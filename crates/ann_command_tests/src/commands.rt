ghost use Rattle.std.specs.Prelude.{◌≡◌, IfOk, length, map, string_bytes};
ghost use Rattle.ann_commands.specs.Place.{IsWhole};
ghost use Rattle.ann_commands.specs.Words.{AreAlone};

use ann_commands::{Place, is_run, is_truth, run_alone};
use ann_disk::MemoryFile;
use ann_script::{MemorySink, MemorySource};
use ann_vault::{MemoryEye, MemoryVault};
use std::alloc::{AllocError, Global};
use std::test::Fail;

/// A place in memory.
type Memory = Place<MemoryFile, MemoryVault, MemoryEye>;

/// So many eyes.
fn eyes(alloc: Global, count: u32) -> Result<Vec<MemoryEye>, AllocError>
    ensures { IfOk result (λ eyes. length eyes.items ≡ count) }
{
    let mut eyes = Vec::new(alloc);
    for _ in 0..count {
        eyes.push(MemoryEye::new(alloc, &[])?)?;
    }
    Ok(eyes)
}

/// A place without an index.
fn empty_place(alloc: Global) -> Result<Memory, AllocError>
    ensures { IfOk result IsWhole }
{
    let first = MemoryFile::new(alloc, &[], &[])?;
    let second = MemoryFile::new(alloc, &[], &[])?;
    let vault = MemoryVault::new(alloc, &[])?;
    let clients = eyes(alloc, 32)?;
    let workers = eyes(alloc, 16)?;
    Place::new(alloc, first, second, vault, clients, workers)
}

fn words_of(alloc: Global, line: &str) -> Result<Vec<String>, AllocError> {
    let mut words = Vec::new(alloc);
    for word in line.split_whitespace() {
        words.push(String::from_str(alloc, word)?)?;
    }
    Ok(words)
}

/// Whether a command of these words ends with a status and writes a text. The reads and writes that fail are counted
/// from 1.
fn runs_so(
    alloc: Global,
    words: &[String],
    script: &str,
    failing: (u64, u64),
    wanted: (u8, &str),
) -> Result<bool, AllocError>
    requires { AreAlone (map string_bytes words.now) }
{
    let (read, write) = failing;
    let (status, text) = wanted;
    let mut input = MemorySource::new(alloc, script.as_bytes(), &[read])?;
    let mut out = MemorySink::new(alloc, 5, &[write])?;
    let mut place = empty_place(alloc)?;
    let ended = run_alone(alloc, words, &mut input, &mut out, &mut place);
    Ok(ended == status && out.bytes() == text.as_bytes())
}

/// The same with the words of a line.
fn ends_so(
    alloc: Global,
    line: &str,
    script: &str,
    failing: (u64, u64),
    wanted: (u8, &str),
) -> Result<bool, AllocError> {
    let words = words_of(alloc, line)?;
    if is_run(&words).is_some() || is_truth(&words) {
        return Ok(false);
    }
    runs_so(alloc, &words, script, failing, wanted)
}

/// A command line, a script, and what is written with status 0.
const RUNS: &[(&str, &str, &str)] = &[
    ("once 2 2 4 1/1", "", "log 0 entries, 0 live\n"),
    (
        "once 2 2 4 1/1",
        "a insert 7 3 4\na search 1 4 0 0\n",
        "a 1 inserted 7 at 1\na 2 found at 1 7:25\nlog 1 entries, 1 live\n",
    ),
    (
        "once 2 2 4 1/1",
        "a search 1 4 0 0\n",
        "a 1 found at 0 none\nlog 0 entries, 0 live\n",
    ),
    (
        "once 2 2 4 1/1",
        "a insert 9 0 1\na insert 5 1 0\na search 1 4 0 0\n",
        "a 1 inserted 9 at 1\na 2 inserted 5 at 2\na 3 found at 2 9:1\nlog 2 entries, 2 live\n",
    ),
    (
        "once 2 2 10 1/1",
        "a insert 1 100 100\na insert 2 110 100\na insert 3 90 100\na insert 4 105 100\na search 1 1 90 100\na search 1 1 105 100",
        "a 1 inserted 1 at 1\na 2 inserted 2 at 2\na 3 inserted 3 at 3\na 4 inserted 4 at 4\na 5 found at 4 3:0\na 6 found at 4 4:0\nlog 4 entries, 4 live\n",
    ),
    (
        "once 2 2 4 1/1",
        "a insert 7 3 4\na insert 7 1 1\na insert 7 1\na search 3 3 3 4\n",
        "a 1 inserted 7 at 1\na 2 present 7 at 1\na 3 dimension 1 of 2 at 1\na 4 found at 1 7:0\nlog 1 entries, 1 live\n",
    ),
    (
        "once 2 2 4 1/1",
        "a insert 7 1\na search 1 4 0 0 0\n",
        "a 1 dimension 1 of 2 at 0\na 2 dimension 3 of 2\nlog 0 entries, 0 live\n",
    ),
    (
        "once 2 2 4 1/1",
        "a insert 7 3 4\na search 1 4 0 0\na delete 7\na search 1 4 0 0\na delete 7\n",
        "a 1 inserted 7 at 1\na 2 found at 1 7:25\na 3 deleted 7 at 2\na 4 found at 2 none\na 5 absent 7 at 2\nlog 2 entries, 0 live\n",
    ),
    (
        "once 2 2 4 1/1",
        "a insert 7 3 4\na insert 7 1 1\na delete 8\n",
        "a 1 inserted 7 at 1\na 2 present 7 at 1\na 3 absent 8 at 1\nlog 1 entries, 1 live\n",
    ),
    (
        "once 2 2 4 1/1",
        "a insert 7 3 4\na delete 7\na insert 7 3 4\na search 1 1 3 4\na search 1 2 3 4\n",
        "a 1 inserted 7 at 1\na 2 deleted 7 at 2\na 3 inserted 7 at 3\na 4 found at 3 none\na 5 found at 3 7:0\nlog 3 entries, 1 live\n",
    ),
    (
        "once 2 2 4 1/1",
        "a insert 7 3 4\na batch delete 7 ; insert 7 9 9\na batch insert 8 1 1 ; insert 8 2 2\na search 1000 1000 0 0\n",
        "a 1 inserted 7 at 1\na 2 accepted 2 at 3\na 3 change 2 present 8 at 3\na 4 found at 3 7:162\nlog 3 entries, 1 live\n",
    ),
    (
        "once 2 2 4 1/1",
        "a insert 7 3 4\na replace 7 0 0\na search 2 4 0 0\na replace 8 1 1\na replace 7 1\n",
        "a 1 inserted 7 at 1\na 2 replaced 7 at 2\na 3 found at 2 7:0\na 4 absent 8 at 2\na 5 dimension 1 of 2 at 2\nlog 2 entries, 1 live\n",
    ),
    (
        "once 1 2 4 1/1",
        "a batch insert 7 1 ; replace 7 2 ; delete 7 ; insert 7 3 ; delete 7 ; insert 7 4\na batch delete 7 ; delete 7\na batch replace 7 5 ; insert 8 6 ; insert 9 1 1\na search 9 9 0\n",
        "a 1 accepted 6 at 6\na 2 change 2 absent 7 at 6\na 3 change 3 dimension 2 of 1 at 6\na 4 found at 6 7:16\nlog 6 entries, 1 live\n",
    ),
    (
        "once 1 128 1000 100/100",
        " a\tinsert  18446744073709551615 255\r\n# no more\na search 1 1 0",
        "a 1 inserted 18446744073709551615 at 1\na 2 found at 1 18446744073709551615:65025\nlog 1 entries, 1 live\n",
    ),
];

/// The first row whose run ends otherwise.
fn wrong_run(alloc: Global) -> Result<Option<usize>, AllocError> {
    for (row, &(line, script, text)) in RUNS.iter().enumerate() {
        if !ends_so(alloc, line, script, (0, 0), (0, text))? {
            return Ok(Some(row));
        }
    }
    Ok(None)
}

#[test]
fn serves_scripts(rt: HostRuntime) -> Result<(), Fail> {
    assert_eq!(rt; wrong_run(rt.alloc())?, None);
    Ok(())
}

/// A script, the read and the write that fail, what is written, and the status.
const FAULTS: &[(&str, u64, u64, &str, u8)] = &[
    (
        "a search 3 4 9 9\n#\n\r\nlast_one\tinsert 7 3 4",
        0,
        0,
        "line 4\n",
        3,
    ),
    ("a insert 7 3 4\na insert x 1 1\n", 0, 0, "line 2\n", 3),
    ("abcdefghijklm_-01 search 1 1 0 0\n", 0, 0, "line 1\n", 3),
    (
        "a insert 7 3 4\na search 1 4 0 0\n",
        1,
        0,
        "read fault\n",
        4,
    ),
    (
        "a insert 7 3 4\na search 1 4 0 0\n",
        2,
        0,
        "read fault\n",
        4,
    ),
    ("a insert 7 3 4\na search 1 4 0 0\n", 0, 2, "a 1 i", 5),
];

/// The first row whose run ends otherwise.
fn wrong_fault(alloc: Global) -> Result<Option<usize>, AllocError> {
    for (row, &(script, read, write, text, status)) in FAULTS.iter().enumerate() {
        if !ends_so(
            alloc,
            "once 2 2 4 1/1",
            script,
            (read, write),
            (status, text),
        )? {
            return Ok(Some(row));
        }
    }
    Ok(None)
}

#[test]
fn tells_faults(rt: HostRuntime) -> Result<(), Fail> {
    assert_eq!(rt; wrong_fault(rt.alloc())?, None);
    Ok(())
}

/// Command lines at fault.
const LINES: &[&str] = &[
    "",
    "once",
    "twice 2 2 4 1/1",
    "once 2 2 4 1/1 9",
    "once 0 2 4 1/1",
    "once 1025 2 4 1/1",
    "once 2 1 4 1/1",
    "once 2 129 4 1/1",
    "once 2 2 0 1/1",
    "once 2 2 1001 1/1",
    "once 2 2 4 1/2",
    "once 2 2 4 1/0",
    "once 2 2 4 101/1",
    "once 2 2 4 1",
    "once 02 2 4 1/1",
    "once +2 2 4 1/1",
    "once 2 2 4 1/1/1",
    "init 2 2 4 1/1",
    "init 2 2 4 1/1 1 1 0",
    "init 2 2 4 1/1 1 1 100001",
    "init 2 2 4 1/1 0 1 9",
    "init 2 2 4 1/1 17 1 9",
    "init 2 2 4 1/1 1 0 9",
    "init 2 2 4 1/2 1 1 9",
    "init 3 2 4 1/1 1 2 9",
    "init 2 2 4 1/1 1 1 9 9",
    "check 1",
];

/// The first of these lines that ends otherwise than with the usage.
fn wrong_line(alloc: Global) -> Result<Option<usize>, AllocError> {
    for (row, &line) in LINES.iter().enumerate() {
        if !ends_so(alloc, line, "a search 1 4 0 0\n", (0, 0), (2, "usage\n"))? {
            return Ok(Some(row));
        }
    }
    Ok(None)
}

#[test]
fn tells_the_usage(rt: HostRuntime) -> Result<(), Fail> {
    assert_eq!(rt; wrong_line(rt.alloc())?, None);
    Ok(())
}

/// A codebook at fault, the read that fails, what `init` writes over it in an empty place, and the status.
const BOOKS: &[(&str, u64, &str, u8)] = &[
    ("", 0, "bad codebook length\n", 11),
    ("ANNPQ001\x01\0\x01", 0, "bad codebook length\n", 11),
    ("ANNPQ002\x01\0\x01\0", 0, "bad codebook magic\n", 11),
    ("ANNPQ001\x02\0\x01\0", 0, "bad codebook shape\n", 11),
    ("ANNPQ001\x01\0\x02\0", 0, "bad codebook shape\n", 11),
    ("ANNPQ001\x01\0\x01\0", 0, "bad codebook length\n", 11),
    ("ANNPQ002\x01\0\x01\0", 2, "read fault\n", 4),
];

/// The first of these that ends otherwise.
fn wrong_book(alloc: Global) -> Result<Option<usize>, AllocError> {
    for (row, &(book, read, text, status)) in BOOKS.iter().enumerate() {
        if !ends_so(
            alloc,
            "init 1 2 4 1/1 1 1 9",
            book,
            (read, 0),
            (status, text),
        )? {
            return Ok(Some(row));
        }
    }
    Ok(None)
}

#[test]
fn tells_a_bad_codebook(rt: HostRuntime) -> Result<(), Fail> {
    assert_eq!(rt; wrong_book(rt.alloc())?, None);
    Ok(())
}

/// A codebook of vectors of one component, with 256 centroids at 0.
fn book(alloc: Global) -> Result<Vec<u8>, AllocError> {
    let mut bytes = Vec::new(alloc);
    bytes.extend_from_slice(b"ANNPQ001\x01\0\x01\0")?;
    bytes.resize(268, 0)?;
    Ok(bytes)
}

/// The status and the text of a command of these words over a place, where it reads that codebook.
fn ends_with(
    alloc: Global,
    words: &[String],
    place: &mut Memory,
) -> Result<(u8, MemorySink), AllocError>
    requires words { AreAlone (map string_bytes words.now) }
    requires place { IsWhole place.old }
    ensures { IsWhole place.new }
{
    let bytes = book(alloc)?;
    let mut input = MemorySource::new(alloc, &bytes, &[])?;
    let mut out = MemorySink::new(alloc, 5, &[])?;
    let status = run_alone(alloc, words, &mut input, &mut out, place);
    Ok((status, out))
}

/// Whether the command of these words makes an index in an empty place, and refuses the one that is there then.
fn makes_one(alloc: Global, words: &[String]) -> Result<bool, AllocError>
    requires { AreAlone (map string_bytes words.now) }
{
    let mut place = empty_place(alloc)?;
    let (first, made) = ends_with(alloc, words, &mut place)?;
    let (second, refused) = ends_with(alloc, words, &mut place)?;
    Ok(
        first == 0
            && made.bytes() == "made\n".as_bytes()
            && second == 10
            && refused.bytes() == "index exists\n".as_bytes(),
    )
}

/// The same with the words of a line.
fn makes_one_by(alloc: Global, line: &str) -> Result<bool, AllocError> {
    let words = words_of(alloc, line)?;
    if is_run(&words).is_some() || is_truth(&words) {
        return Ok(false);
    }
    makes_one(alloc, &words)
}

#[test]
fn makes_an_index_where_none_is(rt: HostRuntime) -> Result<(), Fail> {
    assert!(rt; makes_one_by(rt.alloc(), "init 1 2 4 1/1 1 1 9")?);
    Ok(())
}

/// Whether the second command gives 7 in an empty place and, where the first has made an index, tells its entries.
fn checks_one(alloc: Global, made: &[String], check: &[String]) -> Result<bool, AllocError>
    requires made { AreAlone (map string_bytes made.now) }
    requires check { AreAlone (map string_bytes check.now) }
{
    let mut place = empty_place(alloc)?;
    let (first, none) = ends_with(alloc, check, &mut place)?;
    let (_, _) = ends_with(alloc, made, &mut place)?;
    let (second, some) = ends_with(alloc, check, &mut place)?;
    Ok(
        first == 7
            && none.bytes() == "no index\n".as_bytes()
            && second == 0
            && some.bytes() == "ok 0 entries, 0 live, segment none\n".as_bytes(),
    )
}

/// The same with the words of two lines.
fn checks_one_by(alloc: Global, made: &str, check: &str) -> Result<bool, AllocError> {
    let made = words_of(alloc, made)?;
    let check = words_of(alloc, check)?;
    if is_run(&made).is_some() || is_truth(&made) {
        return Ok(false);
    }
    if is_run(&check).is_some() || is_truth(&check) {
        return Ok(false);
    }
    checks_one(alloc, &made, &check)
}

#[test]
fn checks_an_index(rt: HostRuntime) -> Result<(), Fail> {
    assert!(rt; checks_one_by(rt.alloc(), "init 1 2 4 1/1 1 1 9", "check")?);
    Ok(())
}

/// Command lines, the workers of those that are a `run`, and whether they are `truth`.
const KINDS: &[(&str, Option<u32>, bool)] = &[
    ("run 1", Some(1), false),
    ("run 16", Some(16), false),
    ("run 0", None, false),
    ("run 17", None, false),
    ("run 01", None, false),
    ("run +1", None, false),
    ("run", None, false),
    ("run 1 2", None, false),
    ("truth", None, true),
    ("truth 1", None, false),
    ("once 2 2 4 1/1", None, false),
    ("", None, false),
];

/// The first of these lines of which the words are taken for another command.
fn wrong_kind(alloc: Global) -> Result<Option<usize>, AllocError> {
    for (row, &(line, workers, truth)) in KINDS.iter().enumerate() {
        let words = words_of(alloc, line)?;
        if is_run(&words) != workers || is_truth(&words) != truth {
            return Ok(Some(row));
        }
    }
    Ok(None)
}

#[test]
fn tells_runs_and_truths(rt: HostRuntime) -> Result<(), Fail> {
    assert_eq!(rt; wrong_kind(rt.alloc())?, None);
    Ok(())
}
