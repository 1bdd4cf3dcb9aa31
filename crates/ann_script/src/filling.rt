ghost use Rattle.std.specs.Prelude.{ℕ, ◌≡◌, ◌≤◌, ◌<◌, ◌+◌, ◌-◌, ◌^◌, length, take, drop, IfOk, OnOk, OnErr};
ghost use Rattle.ann_types.specs.declared.change.Change.TheVariants.{Insert};
ghost use Rattle.ann_script.specs.Generator.{made, after, inserts, behind, batch_of};

use crate::change_list::ChangeList;
use crate::generator::Generator;
use ann_types::{Change, Tag, Vector};
use std::alloc::{AllocError, Global};
use std::marker::Model;

/// The most inserts of one update of a fill.
const MOST_INSERTS: u32 = 64;

/// The inserts of a command `fill` that are still to come, which contracts see as their list.
#[derive(Debug, Drop)]
pub struct Filling {
    d: u16,
    generator: Generator,
    first: Tag,
    done: u32,
    count: u32,
}

impl Model for Filling {
    ghost use Rattle.std.specs.Prelude.{List, ◌≤◌, ◌+◌, ◌-◌, ◌^◌};
    ghost use Rattle.ann_types.specs.declared.change.Change.{Change};
    ghost use Rattle.ann_script.specs.Generator.{inserts};

    ghost Value = { List Change };

    ghost view = { λ f. inserts f.d f.generator.state (f.first + f.done) (f.count - f.done) };

    ghost invariant = { λ f. (f.done ≤ f.count) × (f.first + f.count ≤ 2 ^ 64) };
}

/// The insert of the next point. The only error is want of memory.
fn insert(alloc: Global, generator: &mut Generator, d: u16, tag: Tag) -> Result<Change, AllocError>
    ensures made { IfOk result (λ change. change ≡ Insert tag (made generator.old.state d)) }
    ensures after { OnOk result (generator.new.state ≡ after generator.old.state d) }
{
    let components = generator.components(alloc, d)?;
    let vector = Vector::from_components(components);
    Ok(Change::Insert { tag, vector })
}

impl Filling {
    /// All inserts of a fill, of vectors of `d` components.
    pub fn new(d: u16, seed: u32, count: u32, first: Tag) -> Filling
        requires { first + count ≤ 2 ^ 64 }
        ensures { result ≡ inserts d seed first count }
    {
        Filling {
            d,
            generator: Generator::new(seed),
            first,
            done: 0,
            count,
        }
    }

    /// How many inserts are still to come.
    pub fn left(&self) -> u32
        ensures { result ≡ length self.now }
    {
        self.count - self.done
    }

    /// Makes the next update: 64 of the inserts, or the last ones.
    ///
    /// The only error is want of memory, and the inserts are then still to come.
    pub fn next_batch(&mut self, alloc: Global) -> Result<ChangeList, AllocError>
        ensures batch { IfOk result (λ changes. changes ≡ take 64 self.old) }
        ensures rest { OnOk result (self.new ≡ drop 64 self.old) }
        // So behind so many updates of a fill it is the next one of these.
        ensures in_turn { (d seed count first index : ℕ) → self.old ≡ behind d seed count first index →
            IfOk result (λ changes. changes ≡ batch_of d seed count first index) }
        ensures goes_on { (d seed count first index : ℕ) → self.old ≡ behind d seed count first index →
            OnOk result (self.new ≡ behind d seed count first (index + 1)) }
        ensures err { OnErr result (self.new ≡ self.old) }
    {
        let size = MOST_INSERTS.min(self.count - self.done);
        let mut generator = self.generator.copy();
        let mut changes = ChangeList::new(alloc);
        for index in 0..size {
            let tag = self.first + u64::from(self.done + index);
            changes.push(insert(alloc, &mut generator, self.d, tag)?)?;
        }
        self.generator = generator;
        self.done += size;
        Ok(changes)
    }
}
