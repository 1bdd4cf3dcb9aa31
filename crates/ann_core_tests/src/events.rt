//! A core of vectors of one component, and its events by short names.

ghost use Rattle.std.specs.Prelude.{◌≡◌, IfOk};

use ann_core::{Core, EntryList, Event, Hits, Step};
use ann_pq::Codebook;
use ann_types::{Ask, Entry, Params, Vector};
use std::alloc::{AllocError, Global};
use std::test::Fail;
use std::thread::Threads;

/// An event. Entries are by client 1, and a vector is its component.
#[derive(Clone, Copy)]
pub(crate) enum Do {
    /// A frame of one insert.
    Insert(u64, u8),
    /// A frame of one delete.
    Delete(u64),
    /// A frame of one Begin.
    Begin,
    /// A frame of one End.
    End(u64),
    /// A frame of so many inserts, with the tags from 1000 on.
    Inserts(u64),
    Show,
    Enter(u32),
    /// The two points nearest to a vector.
    Reply(u32, u8),
    /// Those nearest to a vector of a component too many.
    Wide(u32),
    Leave(u32),
    Piece(u64),
    Seal,
    Switch,
    Remove(u64),
}

// The bytes of a codebook of one part of one component, in which centroid i is i.
fn centroids(alloc: Global) -> Result<Vec<u8>, AllocError> {
    let mut bytes = b"ANNPQ001\x01\x00\x01\x00".to_vec(alloc)?;
    for i in 0..=255u8 {
        bytes.push(i)?;
    }
    Ok(bytes)
}

// The parameters: d 1, R 2, l_build 10, alpha 1/1, w 1, m 1, freeze_at 100.
fn params() -> Result<Params, Fail>
    ensures { IfOk result (λ params. (params.d ≡ 1) × (params.m ≡ 1)) }
{
    match Params::new(1, 2, 10, 1, 1, 1, 1, 100) {
        Some(params) => Ok(params),
        None => Err("no parameters".into()),
    }
}

/// The core in its first state.
pub(crate) fn core(alloc: Global) -> Result<Core, Fail> {
    let params = params()?;
    let bytes = centroids(alloc)?;
    match Codebook::read(alloc, &bytes, 1, 1) {
        Ok(_book) => Ok(Core::new(alloc, &params, &bytes)?),
        Err(why) => Err(why.into()),
    }
}

// A frame of one entry.
fn frame(alloc: Global, entry: Entry) -> Result<Event, AllocError> {
    let mut entries = EntryList::new(alloc);
    entries.push(entry)?;
    Ok(Event::Frame { entries })
}

// A frame of so many inserts.
fn inserts(alloc: Global, count: u64) -> Result<Event, AllocError> {
    let mut entries = EntryList::new(alloc);
    for i in 0..count {
        entries.push(Entry::Insert {
            by: 1,
            tag: i,
            vector: Vector::copy(alloc, &[50])?,
        })?;
    }
    Ok(Event::Frame { entries })
}

/// The event.
pub(crate) fn event_of(alloc: Global, what: Do) -> Result<Event, Fail> {
    match what {
        Do::Insert(tag, x) => {
            let vector = Vector::copy(alloc, &[x])?;
            Ok(frame(alloc, Entry::Insert { by: 1, tag, vector })?)
        }
        Do::Delete(tag) => Ok(frame(alloc, Entry::Delete { by: 1, tag })?),
        Do::Begin => Ok(frame(alloc, Entry::Begin { by: 1 })?),
        Do::End(segment) => Ok(frame(alloc, Entry::End { by: 1, segment })?),
        Do::Inserts(count) => Ok(inserts(alloc, count)?),
        Do::Show => Ok(Event::Show),
        Do::Enter(reader) => Ok(Event::Enter { reader }),
        Do::Reply(reader, x) => reply(reader, Vector::copy(alloc, &[x])?),
        Do::Wide(reader) => reply(reader, Vector::copy(alloc, &[10, 10])?),
        Do::Leave(reader) => Ok(Event::Leave { reader }),
        Do::Piece(number) => Ok(Event::Piece { number }),
        Do::Seal => Ok(Event::Seal),
        Do::Switch => Ok(Event::Switch { by: 1 }),
        Do::Remove(number) => Ok(Event::Remove { number }),
    }
}

// A reply.
fn reply(reader: u32, vector: Vector) -> Result<Event, Fail> {
    match Ask::new(2, 10, vector) {
        Some(ask) => Ok(Event::Reply { reader, ask }),
        None => Err("no ask".into()),
    }
}

// The hits, each with a blank before it.
fn tell_hits(alloc: Global, hits: &Hits) -> Result<String, AllocError> {
    let mut text = String::new(alloc);
    for hit in hits.items() {
        text.push_str(&format!(in alloc; " {}:{}", hit.tag, hit.distance)?)?;
    }
    Ok(text)
}

/// What an event has come to, in words.
pub(crate) fn tell(alloc: Global, step: &Step) -> Result<String, AllocError> {
    match step {
        Step::Done => Ok(format!(in alloc; "done")?),
        Step::NotAllowed => Ok(format!(in alloc; "no")?),
        Step::Answered { at, hits } => {
            let hits = tell_hits(alloc, hits)?;
            Ok(format!(in alloc; "at {at}:{hits}")?)
        }
    }
}

/// The place of the first event of a table that comes to something else, and what it comes to.
pub(crate) fn first_other<R: Threads + Sync>(
    rt: &R,
    alloc: Global,
    table: &[(Do, &str)],
) -> Result<Option<String>, Fail> {
    let mut core = core(alloc)?;
    for (place, (what, wanted)) in table.iter().enumerate() {
        let event = event_of(alloc, *what)?;
        let step = core.step(rt, &event)?;
        let told = tell(alloc, &step)?;
        if told.as_str() != *wanted {
            return Ok(Some(format!(in alloc; "{place}: {told}")?));
        }
    }
    Ok(None)
}
