// The commands of a client, one after the other.
ghost use Rattle.std.specs.Prelude.{◌≤◌, ◌+◌, [], length, map, All};
ghost use Rattle.ann_script.specs.Allowed.{IsOrderOf};
ghost use Rattle.ann_script.specs.Order.{order_of};
ghost use Rattle.ann_script.specs.Script.{limit};
ghost use Rattle.ann_script.specs.declared.verbs.Verbs.TheVariants.{All as AllVerbs};
ghost use Rattle.ann_said.specs.Knowing.{Known, IsSaidSoFar};
ghost use Rattle.ann_connection.specs.Opening.{Opening};
ghost use Rattle.ann_session.specs.Served.{IsServed};

use crate::reply::reply;
use ann_connection::Connection;
use ann_script::{Command, Transcript};
use std::alloc::{AllocError, Global};

/// Serves the commands of a client in order: replies to each, adds the line of the reply to the transcript, and says to the
/// connection that the command has been answered.
///
/// The lines are right of every list that the run may leave by what the connection then knows, and each has its cause. The
/// only error is want of memory; the connection is then behind some of the commands, and still stands for what its client
/// knows.
pub fn serve<C: Connection>(
    alloc: Global,
    connection: &mut C,
    name: &str,
    commands: &[Command],
    transcript: &mut Transcript,
) -> Result<(), AllocError>
    requires verbs { All (λ command. IsOrderOf AllVerbs (order_of command)) commands.now }
    requires short { length commands.now ≤ limit + 1 }
    ensures { (run : Opening) (known : Known) → C.knows connection.old run known →
        IsSaidSoFar run.index run.list known [] →
        IsServed run known (C.knows connection.new run) C.alone
        (C.counts connection.old) (C.counts connection.new)
        name.now (map order_of commands.now) transcript.old transcript.new result }
{
    let mut number = 1u32;
    for command in commands {
        let reply = reply(alloc, connection, command)?;
        transcript.line(name, number, &reply)?;
        connection.answered(number);
        number += 1;
    }
    Ok(())
}
