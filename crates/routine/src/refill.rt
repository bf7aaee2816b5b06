// Lists that are filled anew from what another holds.
ghost use Rattle.std.specs.Prelude.{◌≡◌, ◌≤◌, length, vec_capacity};

// These items, in place of its own: they fit in the list's room, so no memory is wanted.
pub(crate) fn refill<T: Copy>(list: &mut Vec<T>, items: &[T])
    requires { length items.now ≤ vec_capacity list.old }
    ensures items { list.new.items ≡ items.now }
    ensures capacity { vec_capacity list.old ≤ vec_capacity list.new }
{
    list.clear();
    // They fit, so this cannot fail.
    let _ = list.extend_from_slice(items);
}
