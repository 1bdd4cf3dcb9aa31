// What was done to a file in memory since its last sync.
ghost use Rattle.std.specs.Prelude.{◌≡◌, ◌+◌, ◌<◌, ◌≤◌, ◌^◌, IfOk, slice_index_or, true};
ghost use Rattle.ann_disk.specs.Chosen.{image_of, end_of, byte_of, filling, noise_of, way_by};
ghost use Rattle.ann_disk.specs.Image.{IsImage, clean, after_write, after_cut};

use std::alloc::{AllocError, Global};

/// The bytes at the sync, which of them a write has covered since, and the least and the greatest end since.
#[derive(Drop)]
pub struct Stretch {
    pub kept: Vec<u8>,
    pub covered: Vec<bool>,
    pub low: u64,
    pub high: u64,
}

// How many ways there are to fill the places that are in doubt.
const FILLINGS: u64 = 4;

// 64 bits of noise for a place.
fn noise(place: usize, chooser: u64) -> u64
    ensures { result ≡ noise_of chooser place }
{
    chooser
        .wrapping_add(place as u64)
        .wrapping_mul(11400714819323198485)
}

impl Stretch {
    ghost use Rattle.ann_disk.specs.Stretch.{unsynced_of};

    /// Begins with these bytes.
    pub fn new(alloc: Global, bytes: &[u8]) -> Result<Stretch, AllocError>
        ensures { IfOk result (λ stretch. unsynced_of stretch ≡ clean bytes.now) }
    {
        let kept = bytes.to_vec(alloc)?;
        let covered = vec![in alloc; false; bytes.len()]?;
        Ok(Stretch {
            kept,
            covered,
            low: bytes.len() as u64,
            high: bytes.len() as u64,
        })
    }

    pub fn copy(&self, alloc: Global) -> Result<Stretch, AllocError>
        ensures { IfOk result (λ stretch. unsynced_of stretch ≡ unsynced_of self.now) }
    {
        let kept = self.kept.to_vec(alloc)?;
        let covered = self.covered.to_vec(alloc)?;
        Ok(Stretch {
            kept,
            covered,
            low: self.low,
            high: self.high,
        })
    }

    /// Counts a write of so many bytes.
    pub fn add_write(&mut self, at: u64, count: u64)
        requires { at + count < 2 ^ 64 }
        ensures { unsynced_of self.new ≡ after_write at count (unsynced_of self.old) }
    {
        let length = self.covered.len();
        let start = length.min(at as usize);
        let end = length.min((at + count) as usize);
        self.covered[start..end].fill(true);
        self.high = self.high.max(at + count);
    }

    /// Counts a cut to this length.
    pub fn add_cut(&mut self, to: u64)
        ensures { unsynced_of self.new ≡ after_cut to (unsynced_of self.old) }
    {
        self.low = self.low.min(to);
    }

    /// One of the images, picked by a number: its end, and what stands where a byte is in doubt.
    pub fn image(&self, alloc: Global, seen: &[u8], chooser: u64) -> Result<Vec<u8>, AllocError>
        requires { self.now.low ≤ self.now.high }
        ensures picked { IfOk result
            (λ image. image.items ≡ image_of (unsynced_of self.now) seen.now chooser) }
        ensures image { IfOk result (λ image. IsImage (unsynced_of self.now) image.items) }
    {
        let end = self.end(chooser);
        let mut image = Vec::new(alloc);
        for place in 0..end as usize {
            image.push(self.byte(place, seen, chooser))?;
        }
        Ok(image)
    }

    // One of the ends from the least to the greatest.
    fn end(&self, chooser: u64) -> u64
        requires { self.now.low ≤ self.now.high }
        ensures { result ≡ end_of (unsynced_of self.now) chooser }
    {
        let more = self.high - self.low;
        let pick = chooser / FILLINGS;
        if pick > more {
            self.low + pick % (more + 1)
        } else {
            self.low + pick
        }
    }

    // The byte at a place: the one at the sync, where no write has covered it.
    fn byte(&self, place: usize, seen: &[u8], chooser: u64) -> u8
        ensures { result ≡ byte_of (unsynced_of self.now) seen.now chooser place }
    {
        if !self.is_covered(place) && place < self.kept.len() {
            self.kept[place]
        } else {
            self.filling(place, seen, chooser)
        }
    }

    // Whether a write has covered a place, or no byte stood there.
    fn is_covered(&self, place: usize) -> bool
        ensures { result ≡ slice_index_or self.now.covered.items place true }
    {
        self.covered.get(place).copied().unwrap_or(true)
    }

    // A byte for a place in doubt: the one at the sync, the one that a read gives, noise, or any of these.
    fn filling(&self, place: usize, seen: &[u8], chooser: u64) -> u8
        ensures { result ≡ filling (unsynced_of self.now) seen.now chooser place }
    {
        let noise = noise(place, chooser);
        let any = (noise >> 56) as u8;
        match way(noise, chooser) {
            0 => self.kept.get(place).copied().unwrap_or(0),
            1 => seen.get(place).copied().unwrap_or(any),
            _ => any,
        }
    }
}

// Which of the bytes a place in doubt has, at this noise.
fn way(noise: u64, chooser: u64) -> u64
    ensures { result ≡ way_by noise chooser }
{
    let way = chooser % FILLINGS;
    if way == 3 { (noise >> 40) % 3 } else { way }
}
