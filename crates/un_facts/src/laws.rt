//! What holds of edits, each as what a function ensures that does nothing.
ghost use Rattle.un_facts.specs.Laws.{MayBeMadeLaw};

/// An edit for which no refusal is due may be made: the row that it leaves fits its kind, the ends of an association are there, and what goes
/// is no end of another.
#[tactic(auto, using(crate::proofs::Makeable::made))]
pub fn edits_may_be_made()
    ensures { MayBeMadeLaw }
{}
