//! Sorted lists, with equal elements once.

ghost use Rattle.std.specs.Prelude.{◌≡◌, IfOk, true};
ghost use Rattle.un_defs.specs.Orders.{rising};

use std::alloc::{AllocError, Global};
use std::collections::BTreeSet;

/// Whether each element is less than the next one.
fn is_rising<T: Ord>(xs: &[T]) -> bool
    ensures { result ≡ true → rising T.cmp xs.now ≡ xs.now }
{
    let count = xs.len();
    for done in 1..count {
        if xs[count - done - 1].cmp(&xs[count - done]).is_ge() {
            return false;
        }
    }
    true
}

/// The elements sorted, equal ones once. Elements that rise already are copied.
pub fn rising<T: Ord + Copy>(alloc: Global, xs: &[T]) -> Result<Vec<T>, AllocError>
    ensures { IfOk result (λ ys. ys.items ≡ rising T.cmp xs.now) }
{
    if is_rising(xs) {
        return xs.iter().copied().collect(alloc);
    }
    let mut set = BTreeSet::new(alloc);
    let count = xs.len();
    for done in 0..count {
        set.insert(xs[count - 1 - done])?;
    }
    set.into_iter().collect(alloc)
}
