//! What a reader of replies may rely on. Each law is the contract of a function that does nothing.

ghost use Rattle.un_replies.specs.ReadBack.{ReadBackLaw, WideReadBackLaw, Utf8Law, PastReadBackLaw, PastWideReadBackLaw, PastUtf8Law};
ghost use Rattle.un_replies.specs.Lines.{PastLineLaw, PastOtherLaw};
ghost use Rattle.un_replies.specs.Replies.{PastAroundLaw};

/// A printed reply is JSON in UTF-8, and `serde_json` reads it back as the reply's value. A number of more than 64 bits, which the sum of
/// a function or the cost of a walk may be, is read as the nearest float.
#[tactic(auto, using(crate::proofs::ReadBack::read_back, crate::proofs::ReadBack::wide_read_back, crate::proofs::Utf8Replies::replies_are_utf8))]
pub fn replies_are_read_back()
    ensures short { ReadBackLaw }
    ensures wide { WideReadBackLaw }
    ensures utf8 { Utf8Law }
{}

/// The reply to a query at a past version is printed around the one at that version. It is JSON in UTF-8 and is read back
/// in the same way. It is one line, and never the text for want of memory.
#[tactic(auto, using(crate::proofs::ReadBack::past_read_back, crate::proofs::ReadBack::past_wide_read_back, crate::proofs::Utf8Replies::pasts_are_utf8, crate::specs::Lines::past_line, crate::specs::Lines::past_other))]
pub fn past_replies_are_read_back()
    ensures around { PastAroundLaw }
    ensures short { PastReadBackLaw }
    ensures wide { PastWideReadBackLaw }
    ensures utf8 { PastUtf8Law }
    ensures line { PastLineLaw }
    ensures other { PastOtherLaw }
{}
