//! What a reader of values may rely on. A law is the contract of a function that does nothing.

ghost use Rattle.un_values.specs.ReadBack.{ReadBackLaw, WideReadBackLaw, Utf8Law};

/// The compact text of a value is JSON in UTF-8, and `serde_json` reads it back as the value. A number of more than 64 bits is read as the
/// nearest float.
#[tactic(auto, using(crate::proofs::ReadBack::read_back, crate::proofs::ReadBack::wide_read_back, crate::proofs::Utf8::compact_text_utf8))]
pub fn values_are_read_back()
    ensures short { ReadBackLaw }
    ensures wide { WideReadBackLaw }
    ensures utf8 { Utf8Law }
{}
