use ann_script::{HitList, Kind, MergeWord, Reply, SearchWord, Transcript, UpdateWord};
use ann_types::{Hit, Tag};
use std::alloc::{AllocError, Global};
use std::test::Fail;

/// Accepted updates: kind, tag, changes and length of the list, with the reply.
const ACCEPTED: &[(Kind, Tag, u32, u64, &str)] = &[
    (Kind::Insert, 7, 1, 1, "a 1 inserted 7 at 1\n"),
    (Kind::Delete, 7, 1, 2, "a 1 deleted 7 at 2\n"),
    (Kind::Replace, 7, 1, 2, "a 1 replaced 7 at 2\n"),
    (Kind::Batch, 0, 2, 3, "a 1 accepted 2 at 3\n"),
    (
        Kind::Insert,
        18446744073709551615,
        1,
        18446744073709551615,
        "a 1 inserted 18446744073709551615 at 18446744073709551615\n",
    ),
];

/// Refused updates, and whether they are batches, with the reply.
const UPDATES: &[(UpdateWord, bool, &str)] = &[
    (
        UpdateWord::Present {
            index: 0,
            tag: 7,
            at: 1,
        },
        false,
        "a 1 present 7 at 1\n",
    ),
    (
        UpdateWord::Absent {
            index: 0,
            tag: 8,
            at: 1,
        },
        false,
        "a 1 absent 8 at 1\n",
    ),
    (
        UpdateWord::Dimension {
            index: 0,
            got: 1,
            want: 2,
            at: 0,
        },
        false,
        "a 1 dimension 1 of 2 at 0\n",
    ),
    (
        UpdateWord::Full { index: 0, at: 9 },
        false,
        "a 1 full at 9\n",
    ),
    (
        UpdateWord::Present {
            index: 1,
            tag: 8,
            at: 3,
        },
        true,
        "a 1 change 2 present 8 at 3\n",
    ),
    (UpdateWord::LogFault, true, "a 1 log fault\n"),
    (UpdateWord::Stopped { at: 2 }, false, "a 1 stopped at 2\n"),
    (UpdateWord::Memory, true, "a 1 memory\n"),
    (
        UpdateWord::MemoryLogged { at: 5 },
        false,
        "a 1 memory, logged at 5\n",
    ),
];

/// Refused searches, with the reply.
const SEARCHES: &[(SearchWord, &str)] = &[
    (
        SearchWord::Dimension { got: 3, want: 2 },
        "a 1 dimension 3 of 2\n",
    ),
    (SearchWord::Disk, "a 1 disk\n"),
    (SearchWord::BadSegment { block: 4 }, "a 1 bad segment 4\n"),
    (SearchWord::Shut, "a 1 shut\n"),
];

/// What came of a merge, with the reply.
const MERGES: &[(MergeWord, &str)] = &[
    (
        MergeWord::Merged {
            segment: 41,
            at: 60,
        },
        "a 1 merged 41 at 60\n",
    ),
    (MergeWord::Nothing { at: 0 }, "a 1 nothing at 0\n"),
    (
        MergeWord::Running { at: 30, since: 20 },
        "a 1 running at 30 since 20\n",
    ),
    (MergeWord::Shut, "a 1 shut\n"),
    (MergeWord::Disk, "a 1 disk\n"),
    (MergeWord::BadSegment { block: 3 }, "a 1 bad segment 3\n"),
    (MergeWord::LogFault, "a 1 log fault\n"),
    (MergeWord::Stopped { at: 6 }, "a 1 stopped at 6\n"),
    (MergeWord::Memory, "a 1 memory\n"),
    (
        MergeWord::MemoryLogged { at: 9 },
        "a 1 memory, logged at 9\n",
    ),
];

/// How a fill was cut short, with the reply.
const CUTS: &[(u32, UpdateWord, &str)] = &[
    (
        64,
        UpdateWord::Present {
            index: 0,
            tag: 9,
            at: 70,
        },
        "a 1 filled 64 then change 1 present 9 at 70\n",
    ),
    (
        0,
        UpdateWord::MemoryLogged { at: 64 },
        "a 1 filled 0 then memory, logged at 64\n",
    ),
    (
        128,
        UpdateWord::Dimension {
            index: 63,
            got: 2,
            want: 3,
            at: 128,
        },
        "a 1 filled 128 then change 64 dimension 2 of 3 at 128\n",
    ),
];

/// Whether this is the line of a reply. Where there is no memory for it, it is not.
fn is_line(alloc: Global, reply: &Reply, text: &str) -> bool {
    let mut transcript = Transcript::new(alloc);
    transcript.line("a", 1, reply).is_ok() && transcript.bytes() == text.as_bytes()
}

fn wrong_accepted(alloc: Global) -> Option<&'static str> {
    for &(kind, tag, count, at, text) in ACCEPTED {
        let reply = Reply::Accepted {
            kind,
            tag,
            count,
            at,
        };
        if !is_line(alloc, &reply, text) {
            return Some(text);
        }
    }
    None
}

#[test]
fn writes_accepted_updates(rt: HostRuntime) {
    assert_eq!(rt; wrong_accepted(rt.alloc()), None);
}

fn wrong_update(alloc: Global) -> Option<&'static str> {
    for &(refused, batch, text) in UPDATES {
        if !is_line(alloc, &Reply::Update { refused, batch }, text) {
            return Some(text);
        }
    }
    None
}

#[test]
fn writes_refused_updates(rt: HostRuntime) {
    assert_eq!(rt; wrong_update(rt.alloc()), None);
}

fn wrong_search(alloc: Global) -> Option<&'static str> {
    for &(refused, text) in SEARCHES {
        if !is_line(alloc, &Reply::Search { refused }, text) {
            return Some(text);
        }
    }
    None
}

#[test]
fn writes_refused_searches(rt: HostRuntime) {
    assert_eq!(rt; wrong_search(rt.alloc()), None);
}

fn wrong_merge(alloc: Global) -> Option<&'static str> {
    for &(word, text) in MERGES {
        if !is_line(alloc, &Reply::Merge { word }, text) {
            return Some(text);
        }
    }
    None
}

#[test]
fn writes_merges(rt: HostRuntime) {
    assert_eq!(rt; wrong_merge(rt.alloc()), None);
}

fn wrong_cut(alloc: Global) -> Option<&'static str> {
    for &(count, refused, text) in CUTS {
        if !is_line(alloc, &Reply::Cut { count, refused }, text) {
            return Some(text);
        }
    }
    None
}

#[test]
fn writes_fills(rt: HostRuntime) {
    let alloc = rt.alloc();
    let filled = Reply::Filled {
        count: 20000,
        at: 20001,
    };
    let is_filled = is_line(alloc, &filled, "a 1 filled 20000 at 20001\n");
    assert_eq!(rt; (wrong_cut(alloc), is_filled), (None, true));
}

fn hits_of(alloc: Global, hits: &[Hit]) -> Result<HitList, AllocError> {
    let mut list = HitList::new(alloc);
    for hit in hits {
        list.push(*hit)?;
    }
    Ok(list)
}

const HITS: &[Hit] = &[
    Hit {
        tag: 3,
        distance: 0,
    },
    Hit {
        tag: 4,
        distance: 100,
    },
];

/// Writes a search beside the exact nearest points, one without any, and the last line.
fn write_truths(
    transcript: &mut Transcript,
    (exact, found): (HitList, HitList),
    (none, no_more): (HitList, HitList),
) -> Result<(), AllocError> {
    let first = Reply::Truth {
        at: 11,
        exact,
        found,
        got: 2,
        of: 2,
    };
    transcript.line("a", 1, &first)?;
    let second = Reply::Truth {
        at: 0,
        exact: none,
        found: no_more,
        got: 0,
        of: 0,
    };
    transcript.line("b", 1, &second)?;
    transcript.recall(2, 2)
}

fn writes_truths(alloc: Global) -> Result<bool, AllocError> {
    let mut transcript = Transcript::new(alloc);
    let some = (hits_of(alloc, HITS)?, hits_of(alloc, HITS)?);
    let none = (HitList::new(alloc), HitList::new(alloc));
    write_truths(&mut transcript, some, none)?;
    let text =
        b"a 1 truth at 11 3:0 4:100 found 3:0 4:100 recall 2 of 2\nb 1 truth at 0 none found none recall 0 of 0\nrecall 2 of 2\n";
    Ok(transcript.bytes() == text.as_slice())
}

/// Writes a reply alone, as a follower does.
fn writes_a_reply(alloc: Global) -> Result<bool, AllocError> {
    let mut transcript = Transcript::new(alloc);
    let hits = hits_of(alloc, HITS)?;
    transcript.reply(&Reply::Found { at: 11, hits })?;
    Ok(transcript.bytes() == b"found at 11 3:0 4:100\n".as_slice())
}

#[test]
fn writes_truths_and_lone_replies(rt: HostRuntime) -> Result<(), Fail> {
    let alloc = rt.alloc();
    let answers = (writes_truths(alloc)?, writes_a_reply(alloc)?);
    assert_eq!(rt; answers, (true, true));
    Ok(())
}

/// Writes a search that found these hits, one that found none, and the last line.
fn write_searches(
    transcript: &mut Transcript,
    hits: HitList,
    none: HitList,
) -> Result<(), AllocError> {
    transcript.line("a", 10, &Reply::Found { at: 11, hits })?;
    transcript.line("b-2", 4294967295, &Reply::Found { at: 0, hits: none })?;
    transcript.last(11, 3)
}

fn writes_searches(alloc: Global) -> Result<bool, AllocError> {
    let mut transcript = Transcript::new(alloc);
    write_searches(&mut transcript, hits_of(alloc, HITS)?, HitList::new(alloc))?;
    let text =
        b"a 10 found at 11 3:0 4:100\nb-2 4294967295 found at 0 none\nlog 11 entries, 3 live\n";
    Ok(transcript.bytes() == text.as_slice())
}

#[test]
fn writes_hits_and_the_last_line(rt: HostRuntime) -> Result<(), Fail> {
    assert!(rt; writes_searches(rt.alloc())?);
    Ok(())
}
