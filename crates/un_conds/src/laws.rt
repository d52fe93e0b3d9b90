//! What a reader expects of the meaning of conditions, each as what a function ensures that does nothing.

ghost use Rattle.un_conds.specs.Laws.{AndLaw, OrLaw, NotLaw, PresentLaw, AbsentLaw, NotEqualLaw};

/// `and` holds where both parts hold, `or` where one does, `not` where its part does not.
pub fn connectives()
    ensures and { AndLaw }
    ensures or { OrLaw }
    ensures not { NotLaw }
{}

/// A comparison with an attribute that the feature has is that of the two numbers.
pub fn present_attribute()
    ensures { PresentLaw }
{}

/// No comparison with an attribute that the feature does not have holds: `ne` of it does not hold, and the negation of `eq` does.
pub fn absent_attribute()
    ensures fails { AbsentLaw }
    ensures not_equal { NotEqualLaw }
{}
