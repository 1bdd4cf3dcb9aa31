ghost use Rattle.std.specs.Prelude.{◌≡◌, ◌≤◌, length, IfOk};
ghost use Rattle.ann_judge.specs.Standing.{tag_of as tag_in};
ghost use Rattle.ann_reply.specs.Reply.{IsWordOf, accepted as accepted_reply, kind_of as kind_in};

use ann_judge::Refusal;
use ann_transcript::{HitList, Kind, Reply, UpdateWord};
use ann_types::{Change, Hit, Tag};
use std::alloc::{AllocError, Global};

/// What kind of update a change is by itself.
fn kind_of(change: &Change) -> Kind
    ensures { result ≡ kind_in change.now }
{
    match change {
        Change::Insert { .. } => Kind::Insert,
        Change::Delete { .. } => Kind::Delete,
        Change::Replace { .. } => Kind::Replace,
    }
}

/// The tag of which a change speaks.
fn tag_of(change: &Change) -> Tag
    ensures { result ≡ tag_in change.now }
{
    match change {
        Change::Insert { tag, vector: _ } => *tag,
        Change::Delete { tag } => *tag,
        Change::Replace { tag, vector: _ } => *tag,
    }
}

/// The word of a refusal, where the list has this length.
pub fn word_of(index: u32, refusal: Refusal, at: u64) -> UpdateWord
    ensures { IsWordOf index refusal at result }
{
    match refusal {
        Refusal::Dimension { got, want } => UpdateWord::Dimension {
            index,
            got,
            want,
            at,
        },
        Refusal::Full => UpdateWord::Full { index, at },
        Refusal::Present { tag } => UpdateWord::Present { index, tag, at },
        Refusal::Absent { tag } => UpdateWord::Absent { index, tag, at },
    }
}

/// The reply to an update that was accepted, behind which the list has this length.
pub fn accepted(changes: &[Change], batch: bool, at: u64) -> Reply
    requires { length changes.now ≤ 64 }
    ensures { result ≡ accepted_reply changes.now batch at }
{
    let count = changes.len() as u32;
    match changes {
        [] => Reply::Accepted {
            kind: Kind::Batch,
            tag: 0,
            count,
            at,
        },
        [first, ..] => Reply::Accepted {
            kind: if batch { Kind::Batch } else { kind_of(first) },
            tag: tag_of(first),
            count,
            at,
        },
    }
}

/// A list of its own of these hits. The only error is want of memory.
pub fn copied(alloc: Global, hits: &[Hit]) -> Result<HitList, AllocError>
    ensures { IfOk result (λ list. list ≡ hits.now) }
{
    let mut list = HitList::new(alloc);
    for hit in hits {
        list.push(*hit)?;
    }
    Ok(list)
}
