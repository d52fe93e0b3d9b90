//! What the list of loop segments is, as what a function ensures that does nothing.

ghost use Rattle.un_loops.specs.Answer.{LoopListLaw};

/// Of the nodes that a trace reaches, the list in the reply has exactly the segments that lie on a loop.
pub fn loop_list()
    ensures { LoopListLaw }
{}
