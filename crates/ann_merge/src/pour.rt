// Values moved from the end of one list to the end of another.
ghost use Rattle.std.specs.Prelude.{◌≡◌, ◌≤◌, ◌+◌, ◌++◌, take, drop, reverse, vec_len, vec_capacity};

/// Moves all but the first `keep` values, the last one first, into the room that there is.
pub(crate) fn pour<T: Drop>(from: &mut Vec<T>, keep: usize, to: &mut Vec<T>)
    requires keep { keep ≤ vec_len from.old }
    requires room { vec_len to.old + vec_len from.old ≤ vec_capacity to.old + keep }
    ensures kept { from.new.items ≡ take keep from.old.items }
    ensures moved { to.new.items ≡ to.old.items ++ reverse (drop keep from.old.items) }
    ensures places { vec_capacity from.new ≡ vec_capacity from.old }
    ensures room { vec_capacity to.new ≡ vec_capacity to.old }
{
    while from.len() > keep {
        let Some(value) = from.pop() else {
            unreachable!()
        };
        to.push_reserved(value);
    }
}
