// Writing an entry.
ghost use Rattle.std.specs.Prelude.{◌≡◌, ◌+◌, ◌≤◌, ◌<◌, ◌^◌, ◌++◌, ◌∷◌, ℕ, length};
ghost use Rattle.ann_bytes.specs.LittleEndian.{bytes_of, with_field};
ghost use Rattle.ann_entry.specs.EntryBytes.{HasComponents, entry_bytes};
ghost use Rattle.ann_entry.specs.Standing.{StandsAt};
ghost use Rattle.ann_entry.specs.Kinds.{kind_byte};

use crate::kind::{FRONT, Kind, NAMED};
use ann_bytes::{put_u32, put_u64};
use ann_types::{Entry, Tag, Vector};

/// Writes an entry's bytes from a place on, and gives the place after them. Takes no memory.
#[tactic(auto, unfolding(crate::specs::EntryBytes::entry_bytes))]
pub fn encode(entry: &Entry, out: &mut [u8], at: usize) -> usize
    requires { at + length (entry_bytes entry.now) ≤ length out.old }
    // The bytes from the place on are the entry's, and all others are as they were.
    ensures written { out.new ≡ with_field out.old at (entry_bytes entry.now) }
    ensures after { result ≡ at + length (entry_bytes entry.now) }
    // Where vectors have as many components as the entry's, the entry stands there now.
    ensures stands { (d : ℕ) → HasComponents d entry.now → StandsAt d out.new at entry.now }
{
    match entry {
        Entry::Insert { by, tag, vector } => put_point(out, at, Kind::Insert, *by, *tag, vector),
        Entry::Delete { by, tag } => put_named(out, at, Kind::Delete, *by, *tag),
        Entry::Begin { by } => put_front(out, at, Kind::Begin, *by),
        Entry::End { by, segment } => put_named(out, at, Kind::End, *by, *segment),
        Entry::Replace { by, tag, vector } => put_point(out, at, Kind::Replace, *by, *tag, vector),
    }
}

/// How many bytes an entry has. Takes no memory.
#[tactic(auto, unfolding(crate::specs::EntryBytes::entry_bytes))]
pub fn size(entry: &Entry) -> usize
    ensures { result ≡ length (entry_bytes entry.now) }
{
    match entry {
        Entry::Insert { vector, .. } => NAMED + vector.bytes().len(),
        Entry::Delete { .. } => NAMED,
        Entry::Begin { .. } => FRONT,
        Entry::End { .. } => NAMED,
        Entry::Replace { vector, .. } => NAMED + vector.bytes().len(),
    }
}

// Writes bytes from a place on.
fn put_bytes(out: &mut [u8], at: usize, bytes: &[u8])
    requires { at + length bytes.now ≤ length out.old }
    ensures { out.new ≡ with_field out.old at bytes.now }
{
    out[at..at + bytes.len()].copy_from_slice(bytes);
}

// Writes a kind and who made the entry, and gives the place after them.
fn put_front(out: &mut [u8], at: usize, kind: Kind, by: u32) -> usize
    requires { at + 5 ≤ length out.old }
    ensures written { out.new ≡ with_field out.old at (kind_byte kind ∷ bytes_of 4 by) }
    ensures after { result ≡ at + 5 }
    ensures ranges { by < 2 ^ 32 }
{
    put_bytes(out, at, &[kind.byte()]);
    put_u32(out, at + 1, by);
    at + FRONT
}

// Writes besides a tag or a segment's number.
fn put_named(out: &mut [u8], at: usize, kind: Kind, by: u32, number: u64) -> usize
    requires { at + 13 ≤ length out.old }
    ensures written { out.new ≡ with_field out.old at (kind_byte kind ∷ bytes_of 4 by ++ bytes_of 8 number) }
    ensures after { result ≡ at + 13 }
    ensures ranges { (by < 2 ^ 32) × (number < 2 ^ 64) }
{
    let after = put_front(out, at, kind, by);
    put_u64(out, after, number);
    at + NAMED
}

// Writes besides a vector.
fn put_point(out: &mut [u8], at: usize, kind: Kind, by: u32, tag: Tag, vector: &Vector) -> usize
    requires { at + 13 + length vector.now ≤ length out.old }
    ensures written { out.new
        ≡ with_field out.old at (kind_byte kind ∷ bytes_of 4 by ++ bytes_of 8 tag ++ vector.now) }
    ensures after { result ≡ at + 13 + length vector.now }
    ensures ranges { (by < 2 ^ 32) × (tag < 2 ^ 64) }
{
    let after = put_named(out, at, kind, by, tag);
    let components = vector.bytes();
    put_bytes(out, after, components);
    after + components.len()
}
