// A file in memory. It keeps what had been done at each sync.
ghost use Rattle.std.specs.Prelude.{◌≡◌, ◌+◌, ◌≤◌, ◌<◌, ◌^◌, ◌++◌, [], ◌∷◌, ℕ, List, length, take, OnOk, OnErr, IfOk, IsErr, ◌↔◌, slice_range};
ghost use Rattle.std.proofs.Props.{props};
ghost use Rattle.ann_disk.specs.File.{overwritten, Torn, Cut};
ghost use Rattle.std.specs.List.{AllByRecursion};
ghost use Rattle.ann_disk.specs.Chosen.{image_of};
ghost use Rattle.ann_disk.specs.Image.{IsImage, clean, after_write, after_cut};
ghost use Rattle.ann_disk.specs.Stretch.{unsynced_of};

use crate::stretch::Stretch;
use crate::{Failed, LogFile};
use ann_fault::{Calls, Faults};
use std::alloc::{AllocError, Global};
use std::mem;

/// A file in memory, which tells what it holds. Its calls fail where the test that made it says so, and where its own
/// growth finds no memory.
#[derive(Drop)]
pub struct MemoryFile {
    alloc: Global,
    bytes: Vec<u8>,
    stretch: Stretch,
    past: Vec<Stretch>,
    calls: Calls,
    faults: Faults,
    ghost image: { IsImage (unsynced_of stretch) bytes.items } by { Prim.hlevel props },
}

// Writes a piece over what is there and past the end.
fn overwrite(bytes: &mut Vec<u8>, at: usize, piece: &[u8]) -> Result<(), AllocError>
    requires { at ≤ length bytes.old.items }
    ensures ok { OnOk result (bytes.new.items ≡ overwritten bytes.old.items at piece.now) }
    ensures err { OnErr result (bytes.new.items ≡ bytes.old.items) }
{
    let end = at + piece.len();
    if bytes.len() < end {
        bytes.resize(end, 0)?;
    }
    bytes[at..end].copy_from_slice(piece);
    Ok(())
}

impl MemoryFile {
    ghost use Rattle.ann_disk.specs.Memory.{memory_bytes, memory_unsynced, IsFresh};

    /// A file with these bytes, all of them on the disk. The trait's calls with these numbers, from 1, fail.
    pub fn new(alloc: Global, bytes: &[u8], failing: &[u64]) -> Result<MemoryFile, AllocError>
        ensures bytes { IfOk result (λ file. memory_bytes file ≡ bytes.now) }
        ensures clean { IfOk result (λ file. memory_unsynced file ≡ clean bytes.now) }
        ensures fresh { IfOk result (IsFresh failing.now) }
    {
        let held = bytes.to_vec(alloc)?;
        let stretch = Stretch::new(alloc, bytes)?;
        let calls = Calls::new(alloc, failing)?;
        Ok(MemoryFile {
            alloc,
            bytes: held,
            stretch,
            past: Vec::new(alloc),
            calls,
            faults: Faults::none(),
        })
    }

    /// The bytes held.
    pub fn bytes(&self) -> &[u8]
        ensures { result.now ≡ memory_bytes self.now }
    {
        &self.bytes
    }

    /// What a crash now may leave, as a file none of whose calls is made to fail. Each number picks an image. It is
    /// still unsynced: a further crash may leave any other image.
    ///
    /// The number modulo 4 says what stands where a byte is in doubt: what stood there at the last sync, what a read
    /// gives, noise, or a mixture. The rest of the number picks the length and the noise. Numbers of 64 bits are too few
    /// for all images; with larger ones none is left out.
    pub fn images(&self, chooser: u64) -> Result<MemoryFile, AllocError>
        ensures picked { IfOk result (λ file.
            memory_bytes file ≡ image_of (memory_unsynced self.now) (memory_bytes self.now) chooser) }
        ensures image { IfOk result (λ file. IsImage (memory_unsynced self.now) (memory_bytes file)) }
        // Each image is picked by some number.
        ensures onto { (image : List ℕ) → IsImage (memory_unsynced self.now) image →
            AllByRecursion (λ byte. byte < 256) image →
            (number : ℕ) × (image_of (memory_unsynced self.now) (memory_bytes self.now) number ≡ image) }
        ensures unsynced { IfOk result (λ file. memory_unsynced file ≡ memory_unsynced self.now) }
        ensures fresh { IfOk result (IsFresh []) }
    {
        let stretch = self.stretch.copy(self.alloc)?;
        let bytes = self.stretch.image(self.alloc, &self.bytes, chooser)?;
        Ok(MemoryFile {
            alloc: self.alloc,
            bytes,
            stretch,
            past: Vec::new(self.alloc),
            calls: Calls::new(self.alloc, &[])?,
            faults: Faults::none(),
        })
    }
}

impl MemoryFile {
    ghost use Rattle.ann_disk.specs.Memory.{memory_bytes, memory_unsynced, memory_past, HoldsSame};

    // Writes a piece, the front of a write of so many bytes. The whole range counts as written, whatever the answer.
    fn store(&mut self, at: u64, piece: &[u8], count: u64) -> Result<(), AllocError>
        requires place { at ≤ length (memory_bytes self.old) }
        requires part { length piece.now ≤ count }
        requires end { at + count < 2 ^ 64 }
        ensures bytes { OnOk result
            (memory_bytes self.new ≡ overwritten (memory_bytes self.old) at piece.now) }
        ensures torn { Torn at count (memory_bytes self.old) (memory_bytes self.new) }
        ensures images { memory_unsynced self.new ≡ after_write at count (memory_unsynced self.old) }
        ensures past { memory_past self.new ≡ memory_past self.old }
        ensures counts { (self.new.calls ≡ self.old.calls) × (self.new.faults ≡ self.old.faults) }
    {
        self.stretch.add_write(at, count);
        overwrite(&mut self.bytes, at as usize, piece)
    }

    // Cuts the bytes at an end, in a cut to a place before it.
    #[tactic(auto, using(crate::proofs::Images::cut_image, crate::proofs::Images::cut_by_part))]
    fn shorten(&mut self, to: u64, end: u64)
        requires order { to ≤ end }
        requires end { end ≤ length (memory_bytes self.old) }
        ensures bytes { memory_bytes self.new ≡ take end (memory_bytes self.old) }
        ensures torn { Cut to (memory_bytes self.old) (memory_bytes self.new) }
        ensures images { memory_unsynced self.new ≡ after_cut to (memory_unsynced self.old) }
        ensures past { memory_past self.new ≡ memory_past self.old }
        ensures counts { (self.new.calls ≡ self.old.calls) × (self.new.faults ≡ self.old.faults) }
    {
        self.bytes.truncate(end as usize);
        self.stretch.add_cut(to);
    }

    // Begins a new stretch.
    fn settle(&mut self) -> Result<(), AllocError>
        ensures bytes { memory_bytes self.new ≡ memory_bytes self.old }
        ensures images { OnOk result (memory_unsynced self.new ≡ clean (memory_bytes self.old)) }
        ensures past { OnOk result
            (memory_past self.new ≡ memory_past self.old ++ memory_unsynced self.old ∷ []) }
        ensures err { OnErr result (HoldsSame self.old self.new) }
        ensures counts { (self.new.calls ≡ self.old.calls) × (self.new.faults ≡ self.old.faults) }
    {
        self.past.reserve(1)?;
        let next = Stretch::new(self.alloc, &self.bytes)?;
        let ended = mem::replace(&mut self.stretch, next);
        self.past.push(ended)?;
        Ok(())
    }
}

impl LogFile for MemoryFile {
    ghost use Rattle.ann_disk.specs.Memory.{memory_bytes, memory_unsynced, memory_past, memory_faults, FailsNext, IsCounted, HoldsSame};

    ghost tells = { Unit {0} };

    ghost seen = { memory_bytes };

    ghost unsynced = { memory_unsynced };

    ghost past = { memory_past };

    ghost faults = { memory_faults };

    ghost reads_an_image = { λ file _. file.image };

    fn length(&mut self) -> Result<u64, Failed>
        ensures value { IfOk result (λ n. n ≡ length (memory_bytes self.old)) }
        ensures fails { IsErr result ↔ FailsNext self.old }
        ensures same { HoldsSame self.old self.new }
        ensures counted { IsCounted self.old self.new result }
    {
        if self.calls.begin() {
            return Err(self.faults.fail());
        }
        Ok(self.bytes.len() as u64)
    }

    fn read_at(&mut self, at: u64, buf: &mut [u8]) -> Result<(), Failed>
        requires { at + length buf.old ≤ length (memory_bytes self.old) }
        ensures bytes { OnOk result (buf.new ≡ slice_range (memory_bytes self.old) at (at + length buf.old)) }
        ensures fails { IsErr result ↔ FailsNext self.old }
        ensures same { HoldsSame self.old self.new }
        ensures counted { IsCounted self.old self.new result }
    {
        if self.calls.begin() {
            return Err(self.faults.fail());
        }
        let from = at as usize;
        buf.copy_from_slice(&self.bytes[from..from + buf.len()]);
        Ok(())
    }

    fn write_at(&mut self, at: u64, bytes: &[u8]) -> Result<(), Failed>
        requires { at ≤ length (memory_bytes self.old) }
        ensures written { OnOk result
            (memory_bytes self.new ≡ overwritten (memory_bytes self.old) at bytes.now) }
        ensures torn { OnErr result
            (Torn at (length bytes.now) (memory_bytes self.old) (memory_bytes self.new)) }
        ensures images { memory_unsynced self.new
            ≡ after_write at (length bytes.now) (memory_unsynced self.old) }
        ensures past { memory_past self.new ≡ memory_past self.old }
        ensures end { at + length bytes.now < 2 ^ 64 }
        ensures fails { FailsNext self.old → IsErr result }
        ensures counted { IsCounted self.old self.new result }
    {
        if self.calls.begin() {
            // Half of it is written.
            let _ = self.store(at, &bytes[..bytes.len() / 2], bytes.len() as u64);
            return Err(self.faults.fail());
        }
        match self.store(at, bytes, bytes.len() as u64) {
            Ok(()) => Ok(()),
            Err(_) => Err(self.faults.fail()),
        }
    }

    fn cut(&mut self, to: u64) -> Result<(), Failed>
        requires { to ≤ length (memory_bytes self.old) }
        ensures cut { OnOk result (memory_bytes self.new ≡ take to (memory_bytes self.old)) }
        ensures torn { OnErr result (Cut to (memory_bytes self.old) (memory_bytes self.new)) }
        ensures images { memory_unsynced self.new ≡ after_cut to (memory_unsynced self.old) }
        ensures past { memory_past self.new ≡ memory_past self.old }
        ensures fails { IsErr result ↔ FailsNext self.old }
        ensures counted { IsCounted self.old self.new result }
    {
        if self.calls.begin() {
            // Half of it is cut off.
            let length = self.bytes.len() as u64;
            self.shorten(to, length - (length - to) / 2);
            return Err(self.faults.fail());
        }
        self.shorten(to, to);
        Ok(())
    }

    fn sync(&mut self) -> Result<(), Failed>
        ensures bytes { memory_bytes self.new ≡ memory_bytes self.old }
        ensures images { OnOk result (memory_unsynced self.new ≡ clean (memory_bytes self.old)) }
        ensures past { OnOk result
            (memory_past self.new ≡ memory_past self.old ++ memory_unsynced self.old ∷ []) }
        ensures failed { OnErr result (HoldsSame self.old self.new) }
        ensures fails { FailsNext self.old → IsErr result }
        ensures counted { IsCounted self.old self.new result }
    {
        if self.calls.begin() || self.settle().is_err() {
            return Err(self.faults.fail());
        }
        Ok(())
    }
}
