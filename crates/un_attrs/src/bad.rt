ghost use Rattle.std.specs.Prelude.{◌≡◌};
ghost use Rattle.un_attrs.specs.Attributes.{bad_place, in_range};

use thiserror::Error;

/// The place of the first pair that is not taken.
#[derive(Clone, Copy, Debug, PartialEq, Eq, Hash, Error)]
#[error("the attribute at place {place} is unknown, out of range, or the ninth")]
pub struct BadAttribute {
    pub place: usize,
}

// The greatest value of an attribute. The least is as far below 0.
const GREATEST: i64 = 1_000_000_000_000;

fn in_range(value: i64) -> bool
    ensures { result ≡ in_range value }
{
    -GREATEST <= value && value <= GREATEST
}

/// The place of the first pair that has no number, has a value out of range, or is the ninth.
pub(crate) fn first_bad(pairs: &[(Option<u8>, i64)]) -> Option<usize>
    ensures { result ≡ bad_place pairs.now }
{
    for i in 0..pairs.len() {
        if pairs[i].0.is_none() || !in_range(pairs[i].1) || i >= 8 {
            return Some(i);
        }
    }
    None
}
