//! Growth within room that was reserved before, so it takes no memory and can't fail.

ghost use Rattle.std.specs.Prelude.{◌≡◌, ◌≤◌, ◌<◌, ◌+◌, ◌++◌, ◌∷◌, [], length, replicate, vec_len, vec_capacity};

/// Adds an item at the end.
pub(crate) fn push_within<T: Drop>(items: &mut Vec<T>, item: T)
    requires { vec_len items.old < vec_capacity items.old }
    ensures items { items.new.items ≡ items.old.items ++ item ∷ [] }
    ensures length { vec_len items.new ≡ vec_len items.old + 1 }
    ensures room { vec_capacity items.old ≤ vec_capacity items.new }
{
    let _ = items.push(item);
}

/// Adds items at the end.
pub(crate) fn extend_within<T: Copy>(items: &mut Vec<T>, more: &[T])
    requires { vec_len items.old + length more.now ≤ vec_capacity items.old }
    ensures items { items.new.items ≡ items.old.items ++ more.now }
    ensures length { vec_len items.new ≡ vec_len items.old + length more.now }
    ensures room { vec_capacity items.old ≤ vec_capacity items.new }
{
    let _ = items.extend_from_slice(more);
}

/// Adds so many zeros at the end.
pub(crate) fn fill_within(numbers: &mut Vec<u32>, more: usize)
    requires { vec_len numbers.old + more ≤ vec_capacity numbers.old }
    ensures items { numbers.new.items ≡ numbers.old.items ++ replicate more 0 }
    ensures length { vec_len numbers.new ≡ vec_len numbers.old + more }
    ensures room { vec_capacity numbers.old ≤ vec_capacity numbers.new }
{
    let end = numbers.len() + more;
    let _ = numbers.resize(end, 0);
}
