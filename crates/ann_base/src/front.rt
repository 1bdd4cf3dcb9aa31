// Opening a segment whose Pids are below a next one.
ghost use Rattle.std.specs.Prelude.{◌≡◌, MatchOption, IfOk, IfErr};
ghost use Rattle.ann_base.specs.Causes.{AreCounted, counts_of};
ghost use Rattle.ann_base.specs.Faults.{AreBelow, IsFirstHigh};
ghost use Rattle.ann_base.specs.Front.{IsFound, IsUnfound, IsOpenedBelow, IsFrontRefused};

use crate::refused::BaseRefused;
use ann_segment::Segment;
use ann_types::{Params, Pid};
use ann_vault::{Eye, Sealed, Vault};
use std::alloc::Global;

/// Opens the segment of this number, whose Pids are to be below the next one.
///
/// # Errors
///
/// `BadSegment` with block 0 where the segment isn't there, with the first header or directory block that the format
/// refuses, or with the first directory block that has a Pid that isn't below the next one. `Disk` where a call of the vault or
/// the eye failed, or want of memory.
pub fn open_below<V: Vault, E: Eye<Seal = V::Seal>>(
    alloc: Global,
    vault: &mut V,
    eye: &mut E,
    params: &Params,
    number: u64,
    next: Pid,
) -> Result<Segment<V::Seal>, BaseRefused>
    ensures opened { IfOk result (
        IsOpenedBelow V.Seal.tells V.Seal.bytes (V.held vault.old) params.now number next) }
    ensures refused { V.Seal.tells → IfErr result (IsFrontRefused (V.held vault.old) params.now number next) }
    ensures same { V.Seal.tells → V.held vault.new ≡ V.held vault.old }
    ensures cause { AreCounted BaseRefused.Disk result
        (counts_of (V.faults vault.old) (E.faults eye.old))
        (counts_of (V.faults vault.new) (E.faults eye.new)) }
{
    let segment = open_segment(alloc, vault, eye, params, number)?;
    match first_high(&segment, params, next) {
        Some(block) => Err(BaseRefused::BadSegment { block }),
        None => Ok(segment),
    }
}

// Opens the segment of this number.
fn open_segment<V: Vault, E: Eye<Seal = V::Seal>>(
    alloc: Global,
    vault: &mut V,
    eye: &mut E,
    params: &Params,
    number: u64,
) -> Result<Segment<V::Seal>, BaseRefused>
    ensures opened { IfOk result (IsFound V.Seal.tells V.Seal.bytes (V.held vault.old) params.now number) }
    ensures refused { V.Seal.tells → IfErr result (IsUnfound (V.held vault.old) params.now number) }
    ensures same { V.Seal.tells → V.held vault.new ≡ V.held vault.old }
    ensures cause { AreCounted BaseRefused.Disk result
        (counts_of (V.faults vault.old) (E.faults eye.old))
        (counts_of (V.faults vault.new) (E.faults eye.new)) }
{
    let Some(seal) = vault.open(number)? else {
        return Err(BaseRefused::BadSegment { block: 0 });
    };
    match Segment::open(alloc, seal, number, params, eye) {
        Ok(segment) => Ok(segment),
        Err((why, _)) => Err(BaseRefused::from(why)),
    }
}

// The directory block with the first item whose Pid isn't below the next one, or none where all are.
fn first_high<S: Sealed>(segment: &Segment<S>, params: &Params, next: Pid) -> Option<u64>
    requires { segment.now.m ≡ params.now.m }
    ensures { MatchOption result
        (AreBelow next segment.now)
        (IsFirstHigh segment.now next) }
{
    for row in 0..segment.count() {
        if segment.pid(row) >= next {
            return Some(1 + u64::from(row) * (4 + u64::from(params.m)) / 4096);
        }
    }
    None
}
