// A fill: many updates, made by a generator.
ghost use Rattle.ann_script.specs.Allowed.{IsWithin};
ghost use Rattle.ann_script.specs.Order.{Fill};
ghost use Rattle.ann_said.specs.Knowing.{Known};
ghost use Rattle.ann_connection.specs.Opening.{Opening};
ghost use Rattle.ann_session.specs.Served.{IsReplied};

use ann_connection::Connection;
use ann_script::{Filling, Reply};
use ann_types::Tag;
use std::alloc::{AllocError, Global};

/// Makes the updates of a fill, 64 inserts each, up to the first that is refused, and replies.
///
/// The only error is want of memory; some of the updates may then be made.
pub(crate) fn fill<C: Connection>(
    alloc: Global,
    connection: &mut C,
    seed: u32,
    count: u32,
    first: Tag,
) -> Result<Reply, AllocError>
    requires { IsWithin (Fill seed count first) }
    ensures { (run : Opening) (known : Known) → C.knows connection.old run known →
        IsReplied run known (C.knows connection.new run) C.alone
        (C.counts connection.old) (C.counts connection.new) (Fill seed count first) result }
{
    let mut filling = Filling::new(connection.dimension(), seed, count, first);
    let mut at = 0;
    for updates in 0..count.div_ceil(64) {
        let batch = filling.next_batch(alloc)?;
        match connection.update(batch.items()) {
            Ok(end) => at = end,
            Err(refused) => {
                return Ok(Reply::Cut {
                    count: 64 * updates,
                    refused,
                });
            },
        }
    }
    Ok(Reply::Filled { count, at })
}
