ghost use Rattle.std.specs.Prelude.{◌≡◌, ◌≤◌, ◌<◌, ◌+◌, ◌*◌, ◌⊎◌, ℕ, [], true, false, length, IfOk, IfSome, IsNone, ◌↔◌, Contains, find, insert, take, vec_len, vec_capacity};
ghost use Rattle.ann_types.specs.Order.{has};
ghost use Rattle.ann_pool.specs.Marks.{AreMarked, IsFirst};
ghost use Rattle.ann_pool.specs.Pool.{item_before, IsInOrder, IsSameWhereThere, IsPlaceOf, offered, pooled, unvisited, marked, fresh, PoolView};

use crate::item::Item;
use crate::met::Met;
use std::alloc::{AllocError, Global};
use std::marker::Model;

/// The most items of a pool.
const ROOM: usize = 1000;

/// The least items that were offered, in order of distance and number, up to a limit.
///
/// The candidate list of GreedySearch (DiskANN, section 2.1). It has room for 1000 items from the start, and takes no
/// memory after that.
#[derive(Drop)]
pub struct Pool {
    limit: u16,
    /// Every item before this place is marked, so that the next unmarked one is looked for from here on.
    next: usize,
    items: Vec<Item>,
    met: Met,
    /// What `keep_warm` was given, which is kept only so that the reading isn't left out.
    warmth: u8,
}

impl Model for Pool {
    ghost Value = { PoolView };

    ghost view = { λ p. record { limit = p.limit; items = p.items.items; met = p.met } };

    ghost invariant = { λ p. (1 ≤ p.limit) × (p.limit ≤ 1000) × (vec_len p.items ≤ p.limit) × (1000 < vec_capacity p.items) × IsInOrder p.items.items × AreMarked p.next p.items.items };
}

/// One number that puts items in order of distance and number, so that one comparison tells which comes first.
#[inline(always)]
fn key_of(item: &Item) -> u64
    ensures value { result ≡ item.now.distance * 4294967296 + item.now.number }
    ensures few { item.now.number < 4294967296 }
{
    u64::from(item.distance) * 4_294_967_296 + u64::from(item.number)
}

#[inline(always)]
fn is_before(x: &Item, y: &Item) -> bool
    ensures { result ≡ item_before x.now y.now }
{
    key_of(x) < key_of(y)
}

/// How many items stand before this one.
fn place_of(items: &[Item], item: &Item) -> usize
    requires { IsInOrder items.now }
    ensures { IsPlaceOf item.now items.now result }
{
    items.partition_point(|other| is_before(other, item))
}

/// Whether a full list ends before this item.
fn is_past(items: &[Item], limit: usize, item: &Item) -> bool
    requires order { IsInOrder items.now }
    requires some { 1 ≤ limit }
    ensures full { result ≡ true → length items.now ≡ limit }
    ensures last { result ≡ true → IsPlaceOf item.now items.now limit }
{
    items.len() == limit && is_before(&items[limit - 1], item)
}

/// Whether the item at its place has the number that is offered.
fn is_there(items: &[Item], place: usize, item: &Item) -> bool
    requires place { IsPlaceOf item.now items.now place }
    requires same { IsSameWhereThere item.now items.now }
    ensures there { result ≡ true → offered item.now items.now ≡ items.now }
    ensures new { result ≡ false → offered item.now items.now ≡ insert items.now place item.now }
{
    place < items.len() && items[place].number == item.number
}

/// Offers an item, and gives a place before which nothing changed.
fn offer_to(items: &mut Vec<Item>, limit: usize, item: Item) -> usize
    requires order { IsInOrder items.old.items }
    requires same { IsSameWhereThere item items.old.items }
    requires some { 1 ≤ limit }
    requires room { limit < vec_capacity items.old }
    requires few { vec_len items.old ≤ limit }
    ensures items { items.new.items ≡ pooled limit item items.old.items }
    ensures few { vec_len items.new ≤ limit }
    ensures room { vec_capacity items.old ≤ vec_capacity items.new }
    ensures before { (n : ℕ) → n ≤ result → take n items.new.items ≡ take n items.old.items }
{
    if is_past(items, limit, &item) {
        return limit;
    }
    let place = place_of(items, &item);
    if is_there(items, place, &item) {
        return limit;
    }
    let _ = items.insert(place, item);
    items.truncate(limit);
    place
}

/// The place of the least unvisited item, or the number of items, where those before a place are visited.
fn first_from(items: &[Item], from: usize) -> usize
    requires { AreMarked from items.now }
    ensures { IsFirst items.now result }
{
    let mut place = from;
    while place < items.len() && items[place].visited {
        place += 1;
    }
    place
}

/// Marks the item at the first unvisited place, if there is one, and gives it as it was.
fn mark_at(items: &mut [Item], place: usize) -> Option<Item>
    requires { IsFirst items.old place }
    ensures found { result ≡ find unvisited items.old }
    ensures inside { IfSome result (λ x. Contains items.old x) }
    ensures marked { items.new ≡ marked items.old }
    ensures still { AreMarked place items.new }
{
    if place >= items.len() {
        return None;
    }
    let item = items[place];
    items[place] = Item {
        visited: true,
        ..item
    };
    Some(item)
}

impl Pool {
    /// A pool without items, of limit 1000 and with room for as many.
    pub fn with_room(alloc: Global) -> Result<Pool, AllocError>
        ensures { IfOk result (λ pool. pool ≡ record { limit = 1000; items = []; met = [] }) }
    {
        Ok(Pool {
            limit: 1000,
            next: 0,
            items: Vec::with_capacity(alloc, ROOM + 1)?,
            met: Met::new(alloc)?,
            warmth: 0,
        })
    }

    /// Drops all items, and sets how many there may be: 1 to 1000.
    pub fn clear(&mut self, limit: u16)
        requires { (1 ≤ limit) × (limit ≤ 1000) }
        ensures { self.new ≡ record { limit = limit; items = []; met = [] } }
    {
        self.limit = limit;
        self.next = 0;
        self.items.clear();
        self.met.clear();
    }

    /// Offers a number at a distance, unvisited.
    ///
    /// Where the number is there, nothing changes; its distance is then this one. Else the items are the least of the
    /// items and the new one, as many as the limit allows.
    pub fn offer(&mut self, distance: u32, number: u32)
        requires { IsSameWhereThere (fresh distance number) self.old.items }
        ensures limit { self.new.limit ≡ self.old.limit }
        ensures items { self.new.items ≡ pooled self.old.limit (fresh distance number) self.old.items }

        // What is met was offered: before, or now.
        ensures met { (z : ℕ) → has self.new.met z ≡ true → (has self.old.met z ≡ true) ⊎ (z ≡ number) }
    {
        let item = Item {
            distance,
            number,
            visited: false,
        };
        self.met.note(number);
        let place = offer_to(&mut self.items, usize::from(self.limit), item);
        self.next = self.next.min(place);
    }

    /// Whether this number is known to have been offered since the pool was cleared; it may have been forgotten.
    ///
    /// To offer such a number again at its distance would change nothing, so a walk spares its distance.
    pub fn has_met(&self, number: u32) -> bool
        ensures { result ≡ true → has self.now.met number ≡ true }
    {
        self.met.has(number)
    }

    /// Keeps a byte that was read ahead of its use, so that the read is done. To contracts nothing changes.
    pub fn keep_warm(&mut self, byte: u8)
        ensures { self.new ≡ self.old }
    {
        self.warmth ^= byte;
    }

    /// Marks the least unvisited item and gives it as it was before; `None` exactly where every item is marked.
    pub fn next_unvisited(&mut self) -> Option<Item>
        ensures found { result ≡ find unvisited self.old.items }
        ensures inside { IfSome result (λ x. Contains self.old.items x) }
        ensures limit { self.new.limit ≡ self.old.limit }
        ensures marked { self.new.items ≡ marked self.old.items }
        ensures met { self.new.met ≡ self.old.met }
    {
        self.next = first_from(&self.items, self.next);
        mark_at(&mut self.items, self.next)
    }

    /// The items, in order of distance and number.
    pub fn items(&self) -> &[Item]
        ensures items { result.now ≡ self.now.items }
        ensures order { IsInOrder self.now.items }
        ensures few { length self.now.items ≤ self.now.limit }
    {
        &self.items
    }

    /// How many items there may be.
    pub fn limit(&self) -> u16
        ensures limit { result ≡ self.now.limit }
        ensures inside { (1 ≤ result) × (result ≤ 1000) }
    {
        self.limit
    }
}
