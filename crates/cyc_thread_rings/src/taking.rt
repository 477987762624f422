//! Lists that are taken element by element.

ghost use Rattle.std.specs.Prelude.{◌≡◌, ◌+◌, ◌<◌, ◌∷◌};
ghost use Rattle.std.specs.Vec.Iter.{into_iter_items, into_iter_len};

use std::alloc::Global;
use std::vec::IntoIter;

/// The next element of a list that has one.
pub(crate) fn take_next<T>(rest: &mut IntoIter<T, Global>) -> T
    requires { 0 < into_iter_len rest.old }
    ensures items { into_iter_items rest.old ≡ result ∷ into_iter_items rest.new }
    ensures len { into_iter_len rest.new + 1 ≡ into_iter_len rest.old }
{
    let Some(next) = rest.next() else {
        unreachable!()
    };
    next
}
