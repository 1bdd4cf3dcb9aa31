ghost use Rattle.std.specs.Prelude.{◌≡◌, ◌≤◌, ℕ, List, [], length, get_or, IfOk};
ghost use Rattle.ann_types.specs.Distance.{distance};
ghost use Rattle.ann_types.specs.Codes.{Book, decode};
ghost use Rattle.ann_pq.specs.Tables.{AreTablesOf, looked_up};
ghost use Rattle.ann_pq.specs.Tabled.{tables_in};

use crate::Codebook;
use std::alloc::{AllocError, Global};
use std::marker::Model;

/// Room for a table of 256 distances for each of 64 parts.
const ROOM: usize = 64 * 256;

/// The distances of the parts of a query to all centroids, by which the distance to the vector that a code stands for is
/// the sum of one number for each part (product quantisation; DiskANN, section 3.1).
///
/// Contracts see for each part the list of its 256 distances, and none before the first `fill`. It has room for 64
/// parts, in 64 KiB.
#[derive(Drop)]
pub struct Tables {
    parts: u16,
    sums: Vec<u32>,
}

impl Model for Tables {
    ghost use Rattle.std.specs.Prelude.{◌≡◌, ◌≤◌, ℕ, List, length, get_or};
    ghost use Rattle.ann_pq.specs.Tabled.{tables_in};

    ghost Value = { List (List ℕ) };

    ghost view = { λ t. tables_in t.parts t.sums.items };

    ghost invariant = { λ t. (t.parts ≤ 64) × (length t.sums.items ≡ 16384) × ((place : ℕ) → get_or t.sums.items place 0 ≤ 66585600) };
}

/// Writes the distances of each part of a query.
fn fill_each(book: &Codebook, query: &[u8], sums: &mut [u32])
    requires query { length query.now ≡ book.now.d }
    requires room { length sums.old ≡ 16384 }
    requires small { (place : ℕ) → get_or sums.old place 0 ≤ 66585600 }
    ensures room { length sums.new ≡ 16384 }
    ensures small { (place : ℕ) → get_or sums.new place 0 ≤ 66585600 }
    ensures tables { AreTablesOf book.now.book query.now (tables_in book.now.m sums.new) }
{
    book.known();
    for part in 0..usize::from(book.m()) {
        book.distances(part, query, &mut sums[256 * part..256 * part + 256]);
    }
}

impl Tables {
    /// Tables with room for any codebook, without a part. The only error is want of memory.
    pub fn with_room(alloc: Global) -> Result<Tables, AllocError>
        ensures { IfOk result (λ tables. tables ≡ []) }
    {
        Ok(Tables {
            parts: 0,
            sums: vec![in alloc; 0; ROOM]?,
        })
    }

    /// Makes the tables those of a query of d components. Takes no memory.
    pub fn fill(&mut self, book: &Codebook, query: &[u8])
        requires { length query.now ≡ book.now.d }
        ensures tables { AreTablesOf book.now.book query.now self.new }
        ensures parts { length self.new ≡ book.now.m }
    {
        book.known();
        self.parts = book.m();
        fill_each(book, query, &mut self.sums);
    }

    /// The distance of the query of the last `fill` to the vector that a code of m bytes stands for. Takes no memory.
    #[inline]
    pub fn distance(&self, code: &[u8]) -> u32
        requires { length code.now ≡ length self.now }
        // Whichever query and codebook the tables are of, it is the distance of that query to the decoded code.
        ensures guided { (book : Book) (query : List ℕ) → AreTablesOf book query self.now
            → result ≡ distance query (decode book code.now) }
        ensures sum { result ≡ looked_up self.now code.now }
    {
        let mut sum = 0;
        for part in 0..code.len() {
            sum += self.sums[256 * part + usize::from(code[part])];
        }
        sum
    }
}
