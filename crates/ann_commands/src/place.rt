ghost use Rattle.std.specs.Prelude.{◌≡◌, IfOk, length};
ghost use Rattle.std.specs.List.{AllByRecursion};
ghost use Rattle.ann_commands.specs.Place.{IsWhole, IsPlaceOf};

use ann_door::Door;
use std::alloc::{AllocError, Global};

/// How many clients a run may have.
const CLIENTS: u32 = 32;

/// Where an index is kept, and what a command works with there. A command takes what it needs, and puts it back.
#[derive(Drop)]
pub struct Place<F, V, E> {
    /// The first file of the log.
    pub log: Option<F>,
    /// The second file of the log.
    pub second: Option<F>,
    /// The segments.
    pub vault: Option<V>,
    /// An eye for each of 32 clients.
    pub client_eyes: Vec<E>,
    /// An eye for each of 16 workers.
    pub worker_eyes: Option<Vec<E>>,
    /// A door for each of 32 clients, through which it enters the view.
    pub doors: Vec<Door>,
}

/// A door for each client. The only error is want of memory.
fn doors(alloc: Global) -> Result<Vec<Door>, AllocError>
    ensures count { IfOk result (λ doors. length doors.items ≡ 32) }
    ensures unrefused { IfOk result (λ doors. AllByRecursion (λ refused. refused ≡ 0) doors.items) }
{
    let mut doors = Vec::new(alloc);
    for _ in 0..CLIENTS {
        doors.push(Door::new())?;
    }
    Ok(doors)
}

impl<F: Drop, V: Drop, E: Drop> Place<F, V, E> {
    /// A place with these two files, this vault and these eyes, and doors at which nobody was refused. The only error is
    /// want of memory.
    pub fn new(
        alloc: Global,
        log: F,
        second: F,
        vault: V,
        client_eyes: Vec<E>,
        worker_eyes: Vec<E>,
    ) -> Result<Place<F, V, E>, AllocError>
        requires clients { length client_eyes.items ≡ 32 }
        requires workers { length worker_eyes.items ≡ 16 }
        ensures whole { IfOk result IsWhole }
        ensures of { IfOk result (IsPlaceOf log second vault client_eyes worker_eyes) }
    {
        Ok(Place {
            log: Some(log),
            second: Some(second),
            vault: Some(vault),
            client_eyes,
            worker_eyes: Some(worker_eyes),
            doors: doors(alloc)?,
        })
    }
}
