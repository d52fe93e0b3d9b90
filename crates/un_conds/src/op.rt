/// How a condition compares an attribute with a number.
#[derive(Clone, Copy, Debug, PartialEq, Eq, Hash)]
pub enum Op {
    Eq,
    Ne,
    Lt,
    Le,
    Gt,
    Ge,
}

impl Op {
    ghost use Rattle.std.specs.Prelude.{◌≡◌};
    ghost use Rattle.un_conds.specs.Conditions.{compares};

    /// Whether the value stands so to the number.
    pub fn compares(self, value: i64, number: i64) -> bool
        ensures { result ≡ compares self value number }
    {
        match self {
            Op::Eq => value == number,
            Op::Ne => value != number,
            Op::Lt => value < number,
            Op::Le => value <= number,
            Op::Gt => value > number,
            Op::Ge => value >= number,
        }
    }
}
