// The reply to a command.
ghost use Rattle.std.specs.Prelude.{◌≡◌, ◌<◌, ◌≤◌, length};
ghost use Rattle.ann_script.specs.Allowed.{IsOrderOf};
ghost use Rattle.ann_script.specs.Order.{Apply, Find, order_of};
ghost use Rattle.ann_script.specs.declared.verbs.Verbs.TheVariants.{All as AllVerbs};
ghost use Rattle.ann_said.specs.Knowing.{Known};
ghost use Rattle.ann_connection.specs.Opening.{Opening};
ghost use Rattle.ann_session.specs.Served.{IsAnswered, IsReplied};

use crate::fill::fill;
use ann_connection::Connection;
use ann_reply::{accepted, copied};
use ann_script::{Command, Reply};
use ann_types::{Ask, Change};
use std::alloc::{AllocError, Global};

/// Makes an update, and replies.
fn reply_update<C: Connection>(connection: &mut C, changes: &[Change], batch: bool) -> Reply
    requires some { 0 < length changes.now }
    requires few { length changes.now < 65 }
    ensures { (run : Opening) (known : Known) → C.knows connection.old run known →
        IsAnswered run known (C.knows connection.new run) C.alone
        (C.counts connection.old) (C.counts connection.new) (Apply changes.now batch) result }
{
    match connection.update(changes) {
        Ok(at) => accepted(changes, batch, at),
        Err(refused) => Reply::Update { refused, batch },
    }
}

/// Searches, and replies. The only error is want of memory.
fn reply_search<C: Connection>(
    alloc: Global,
    connection: &mut C,
    ask: &Ask,
) -> Result<Reply, AllocError>
    ensures { (run : Opening) (known : Known) → C.knows connection.old run known →
        IsReplied run known (C.knows connection.new run) C.alone
        (C.counts connection.old) (C.counts connection.new) (Find ask.now.k ask.now.l ask.now.vector) result }
{
    match connection.search(ask) {
        Ok(at) => Ok(Reply::Found {
            at,
            hits: copied(alloc, connection.hits())?,
        }),
        Err(refused) => Ok(Reply::Search { refused }),
    }
}

/// Replies to a command. The only error is want of memory.
pub(crate) fn reply<C: Connection>(
    alloc: Global,
    connection: &mut C,
    command: &Command,
) -> Result<Reply, AllocError>
    requires { IsOrderOf AllVerbs (order_of command.now) }
    ensures { (run : Opening) (known : Known) → C.knows connection.old run known →
        IsReplied run known (C.knows connection.new run) C.alone
        (C.counts connection.old) (C.counts connection.new) (order_of command.now) result }
{
    match command {
        Command::Update { changes, batch } => {
            Ok(reply_update(connection, changes.items(), *batch))
        },
        Command::Search { ask } => reply_search(alloc, connection, ask),
        Command::Merge => Ok(Reply::Merge {
            word: connection.merge(),
        }),
        Command::Fill { seed, count, first } => fill(alloc, connection, *seed, *count, *first),
    }
}
