ghost use Rattle.std.specs.Prelude.{◌≡◌, ◌≤◌, ◌<◌, ◌/◌, ℕ, [], length, map, get_or, IfOk};
ghost use Rattle.ann_types.specs.Distance.{distance};
ghost use Rattle.ann_types.specs.Codes.{code, decode};
ghost use Rattle.ann_pq.specs.Codebook.{AreSizes, part_of};
ghost use Rattle.ann_pq.specs.Format.{fault, named, codebook, IsCodebook};

use crate::CodebookRefused;
use crate::check::{HEAD, check};
use crate::least::first_least;
use crate::turned::{distances, turn};
use std::alloc::{AllocError, Global};
use std::marker::Model;

/// A codebook: for each of the m parts of a vector 256 centroids of d/m bytes (product quantisation; DiskANN, section
/// 3.1).
///
/// It keeps its bytes and, so that distances to all centroids of a part are computed in lanes, the centroids once more,
/// turned round: `2 * 256 * d` bytes and a few.
#[derive(Drop)]
pub struct Codebook {
    d: u16,
    m: u16,
    bytes: Vec<u8>,
    turned: Vec<u8>,
}

impl Model for Codebook {
    ghost use Rattle.std.specs.Prelude.{◌≡◌, ◌+◌, ◌*◌, ◌/◌, length, None};
    ghost use Rattle.ann_pq.specs.Codebook.{CodebookView, AreSizes};
    ghost use Rattle.ann_pq.specs.Format.{codebook, fault};
    ghost use Rattle.ann_pq.specs.Turned.{IsTurned};

    ghost Value = { CodebookView };

    ghost view = { λ c. codebook c.d c.m c.bytes.items };

    ghost invariant = { λ c. AreSizes c.d c.m × (length c.bytes.items ≡ 12 + 256 * c.d) × (length c.turned.items ≡ 256 * c.d) × IsTurned (c.d / c.m) c.d c.bytes.items c.turned.items × (fault c.d c.m c.bytes.items ≡ None) };
}

impl Codebook {
    /// Reads a codebook of vectors of d components in m parts.
    ///
    /// # Errors
    ///
    /// The first fault of the bytes, or want of memory where they have none.
    pub fn read(alloc: Global, bytes: &[u8], d: u16, m: u16) -> Result<Codebook, CodebookRefused>
        requires { AreSizes d m }
        // It is refused exactly for the first fault of the bytes, and where they have none, for want of memory alone.
        ensures refused { named result ≡ fault d m bytes.now }
        // The codebook is the one that the bytes are.
        ensures value { IfOk result (λ book. book ≡ codebook d m bytes.now) }
    {
        check(bytes, d, m)?;
        let held = bytes.to_vec(alloc)?;
        let turned = turn(alloc, bytes, usize::from(d), usize::from(d / m))?;
        Ok(Codebook {
            d,
            m,
            bytes: held,
            turned,
        })
    }

    /// A codebook of its own that is equal to this one. The only error is want of memory.
    pub fn copy(&self) -> Result<Codebook, AllocError>
        ensures { IfOk result (λ copy. copy ≡ self.now) }
    {
        Ok(Codebook {
            d: self.d,
            m: self.m,
            bytes: self.bytes.to_vec(*self.bytes.allocator())?,
            turned: self.turned.to_vec(*self.turned.allocator())?,
        })
    }

    /// What is true of every codebook. It does nothing.
    pub fn known(&self)
        ensures { IsCodebook self.now }
    {
        let _ = &self.d;
    }

    /// Components of a vector: 1 to 1024, a multiple of `m`.
    pub fn d(&self) -> u16
        ensures { result ≡ self.now.d }
    {
        self.d
    }

    /// Parts of a vector, and bytes of a code: 1 to 64.
    pub fn m(&self) -> u16
        ensures { result ≡ self.now.m }
    {
        self.m
    }

    /// The bytes that were read.
    pub fn bytes(&self) -> &[u8]
        ensures { result.now ≡ self.now.bytes }
    {
        &self.bytes
    }

    /// Components of a part.
    #[inline]
    fn width(&self) -> usize
        ensures value { result ≡ self.now.d / self.now.m }
        ensures some { (1 ≤ result) × (result ≤ 1024) }
    {
        usize::from(self.d / self.m)
    }

    /// The distances of a part of a vector to the 256 centroids of that part.
    pub(crate) fn distances(&self, part: usize, vector: &[u8], out: &mut [u32])
        requires part { part < self.now.m }
        requires vector { length vector.now ≡ self.now.d }
        requires out { length out.old ≡ 256 }
        ensures value { out.new ≡ map
            (distance (part_of (self.now.d / self.now.m) vector.now part)) (get_or self.now.book part []) }
        ensures small { (number : ℕ) → get_or out.new number 0 ≤ 66585600 }
        ensures length { length out.new ≡ 256 }
    {
        let width = self.width();
        let start = part * width;
        let turned = &self.turned[256 * start..256 * start + 256 * width];
        distances(&vector[start..start + width], turned, out);
    }

    /// The code of a vector of d components: m bytes, for each part the number of the nearest centroid, the lowest on a
    /// tie. Takes no memory.
    pub fn code(&self, vector: &[u8], out: &mut [u8])
        requires vector { length vector.now ≡ self.now.d }
        requires out { length out.old ≡ self.now.m }
        ensures { out.new ≡ code self.now.book vector.now }
    {
        self.known();
        let mut to_centroids = [0; 256];
        for part in 0..out.len() {
            self.distances(part, vector, &mut to_centroids);
            out[part] = first_least(&to_centroids);
        }
    }

    /// One centroid of a part.
    #[inline]
    fn centroid(&self, part: usize, number: u8) -> &[u8]
        requires { part < self.now.m }
        ensures value { result.now ≡ get_or (get_or self.now.book part []) number [] }
        ensures width { length result.now ≡ self.now.d / self.now.m }
    {
        self.known();
        let width = self.width();
        let start = HEAD + (256 * part + usize::from(number)) * width;
        &self.bytes[start..start + width]
    }

    /// The vector of d components that a code of m bytes stands for: the centroids that it names, one after the other.
    /// Takes no memory.
    pub fn decode(&self, code: &[u8], out: &mut [u8])
        requires code { length code.now ≡ self.now.m }
        requires out { length out.old ≡ self.now.d }
        ensures { out.new ≡ decode self.now.book code.now }
    {
        self.known();
        let width = self.width();
        for part in 0..code.len() {
            let start = part * width;
            out[start..start + width].copy_from_slice(self.centroid(part, code[part]));
        }
    }
}
