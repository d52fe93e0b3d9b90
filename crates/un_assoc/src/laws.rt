//! What holds of edits of associations and controllers, each as what a function ensures that does nothing.
ghost use Rattle.un_assoc.specs.Lawful.{LinksAloneLaw, TiersAloneLaw, MayBeMadeLaw, ChainsEndLaw};

/// Of a network, the edits of this crate ask no more than the names of its tiers, its associations and its controllers.
pub fn links_alone()
    ensures links { LinksAloneLaw }
    ensures tiers { TiersAloneLaw }
{}

/// An edit of associations or controllers for which no refusal is due may be made.
#[tactic(auto, using(crate::proofs::Making::may_be_made))]
pub fn edits_may_be_made()
    ensures { MayBeMadeLaw }
{}

/// The containers above a feature are all that a chain of containers comes to, however long it is followed.
#[tactic(auto, using(crate::proofs::ChainBound::chains_end))]
pub fn chains_end()
    ensures { ChainsEndLaw }
{}
