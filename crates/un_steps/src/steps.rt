ghost use Rattle.std.specs.Prelude.{◌≡◌, ◌+◌};

use crate::count::Count;
use std::marker::{Model, PhantomData};

/// How many steps were taken. It takes no bytes, and only [`Steps::tick`] changes it.
///
/// `L` stands for the one count that is meant, and may be any type. What one step is, the function that ticks says: a look-up of a star, for example.
#[derive(Drop)]
pub struct Steps<L> {
    count: Count,
    of: PhantomData<L>,
}

impl<L> Model for Steps<L> {
    ghost use Rattle.std.specs.Prelude.{ℕ};

    ghost Value = { ℕ };

    ghost view = { λ s. s.count.total };
}

impl<L> Steps<L> {
    /// A count of no steps.
    pub fn new() -> Steps<L>
        ensures { result ≡ 0 }
    {
        Steps {
            count: Count::zero(),
            of: PhantomData,
        }
    }

    /// Counts one step.
    pub fn tick(&mut self)
        ensures { self.new ≡ self.old + 1 }
    {
        self.count = Count::next(&self.count);
    }
}

const _: () = prove!(size_of::<Steps<u64>>() == 0);
