//! Room in lists that grow.

ghost use Rattle.std.specs.Prelude.{◌≡◌};

use std::alloc::AllocError;

/// Up to how many elements a list grows by eight.
const SHORT: usize = 0x8_0000;

/// Makes room for one more element, and for many where there is none: each growth copies all elements, and nobody knows how many there will
/// be. A short list grows by eight, and a long one by two.
#[inline(always)]
pub(crate) fn make_room<T>(list: &mut Vec<T>) -> Result<(), AllocError>
    ensures { list.new.items ≡ list.old.items }
{
    let count = list.len();
    if count == list.capacity() {
        let more = if count < SHORT { count * 7 } else { count };
        list.reserve(more)?;
    }
    Ok(())
}
