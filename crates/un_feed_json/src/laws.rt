//! What a follower may rely on. A law is the contract of a function that does nothing.
ghost use Rattle.un_feed_json.specs.ReadBack.{PagesReadBackLaw};

/// The text of a page of sound changes is a line that is read back as the page.
#[tactic(auto, using(crate::proofs::PageBack::pages_back))]
pub fn pages_are_read_back()
    ensures { PagesReadBackLaw }
{}
