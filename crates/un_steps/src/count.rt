ghost use Rattle.std.specs.Prelude.{◌≡◌, ℕ, ◌+◌};
ghost use Rattle.std.specs.Borrow.{ftrue};

use std::marker::Model;

// A number that exists for contracts alone. It takes no bytes.
#[derive(Drop)]
pub struct Count {
    pub ghost total: { ℕ },
}

impl Model for Count {
    ghost also_owns = { λ _. ftrue };
}

// A struct with `also_owns` has neither by itself. This one owns nothing.
unsafe impl Send for Count {}

unsafe impl Sync for Count {}

impl Count {
    /// The count of nothing.
    pub(crate) fn zero() -> Count
        ensures { result.total ≡ 0 }
    {
        Count {}
    }

    /// The count after one more.
    pub(crate) fn next(_before: &Count) -> Count
        ensures { result.total ≡ _before.now.total + 1 }
    {
        Count {}
    }
}
