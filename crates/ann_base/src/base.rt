// Opening the base's segment, with the tags of its points.
ghost use Rattle.std.specs.Prelude.{◌≡◌, IfOk, IfErr};
ghost use Rattle.ann_base.specs.Causes.{AreCounted, counts_of};
ghost use Rattle.ann_base.specs.Grounded.{IsBase, IsBaseRefused};

use crate::front::open_below;
use crate::refused::BaseRefused;
use crate::tags::load_tags;
use ann_segment::Segment;
use ann_tags::Tags;
use ann_types::{Params, Pid};
use ann_vault::{Eye, Sealed, Vault};
use std::alloc::Global;

/// What a base has beside its numbers.
#[derive(Drop)]
pub struct Grounded<S: Sealed> {
    /// The tags of its points, each with its Pid.
    pub tags: Tags,
    /// The segment of its graph; none exactly where its number is 0.
    pub segment: Option<Segment<S>>,
}

/// Opens the segment of a base by its number, 0 for none, and leaves the tags of its points. The base's next Pid is to be
/// above its points' Pids.
///
/// # Errors
///
/// `BadSegment` with the first block that is at fault: by the refusals of `open_below`, and then piece by piece of 256 rows the
/// first node block outside the format, or else the first whose tag an earlier row has. `Disk` where a call of the vault or the
/// eye failed, or want of memory.
pub fn open_base<V: Vault, E: Eye<Seal = V::Seal>>(
    alloc: Global,
    vault: &mut V,
    eye: &mut E,
    params: &Params,
    number: u64,
    next: Pid,
) -> Result<Grounded<V::Seal>, BaseRefused>
    ensures opened { IfOk result (
        IsBase V.Seal.tells V.Seal.bytes (V.held vault.old) params.now number next) }
    ensures refused { V.Seal.tells → IfErr result (IsBaseRefused (V.held vault.old) params.now number next) }
    ensures same { V.Seal.tells → V.held vault.new ≡ V.held vault.old }
    ensures cause { AreCounted BaseRefused.Disk result
        (counts_of (V.faults vault.old) (E.faults eye.old))
        (counts_of (V.faults vault.new) (E.faults eye.new)) }
{
    if number == 0 {
        return Ok(Grounded {
            tags: Tags::new(alloc),
            segment: None,
        });
    }
    let segment = open_below(alloc, vault, eye, params, number, next)?;
    segment.known();
    let tags = load_tags(alloc, &segment, eye, params)?;
    Ok(Grounded {
        tags,
        segment: Some(segment),
    })
}
