//! The refusals that are written as they stand.
ghost use Rattle.std.specs.Prelude.{◌≡◌, ℕ, ◌<◌, length};
ghost use Rattle.un_schema.specs.declared.place.Place.TheVariants as place;
ghost use Rattle.un_replies.specs.Replies.{print};
ghost use Rattle.un_script.specs.Opening.{bad_schema, line_too_long};

use un_lines::REPLY_ROOM;

const LINE_TOO_LONG: &[u8] = b"{\"error\":3,\"name\":\"LineTooLong\"}";

const SCHEMA_TOO_LONG: &[u8] = b"{\"error\":6,\"name\":\"BadSchema\",\"place\":\"line\"}";

const NO_SCHEMA: &[u8] = b"{\"error\":6,\"name\":\"BadSchema\",\"place\":\"\"}";

/// The refusal of a later line that is too long.
#[tactic(auto, using(crate::proofs::OpeningTexts::line_too_long_text))]
pub(crate) fn line_too_long() -> &'static [u8]
    ensures text { result.now ≡ print line_too_long }
    ensures size { length result.now < REPLY_ROOM }
{
    LINE_TOO_LONG
}

/// The refusal of a first line that is too long.
#[tactic(auto, using(crate::proofs::OpeningTexts::schema_too_long_text))]
pub(crate) fn schema_too_long() -> &'static [u8]
    ensures text { result.now ≡ print (bad_schema place.Line) }
    ensures size { length result.now < REPLY_ROOM }
{
    SCHEMA_TOO_LONG
}

/// The refusal of an input without a first line.
#[tactic(auto, using(crate::proofs::OpeningTexts::no_schema_text))]
pub(crate) fn no_schema() -> &'static [u8]
    ensures text { result.now ≡ print (bad_schema place.Whole) }
    ensures size { length result.now < REPLY_ROOM }
{
    NO_SCHEMA
}
