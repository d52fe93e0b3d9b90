//! The number of a schema.
ghost use Rattle.std.specs.Prelude.{◌≡◌};
ghost use Rattle.serde_json.specs.View.{view};
ghost use Rattle.un_schema_json.specs.Table.{source_of};

use serde_json::Value;
use un_schema::Format;

/// Where a schema comes from.
#[derive(Clone, Copy, Debug, PartialEq, Eq)]
pub(crate) enum Source {
    /// The program.
    BuiltIn,
    /// The members of the line.
    Given(Format),
}

/// The source that the number stands for.
pub(crate) fn source_of(value: &Value) -> Option<Source>
    ensures { result ≡ source_of (view value.now) }
{
    match value.as_u64()? {
        0 => Some(Source::BuiltIn),
        1 => Some(Source::Given(Format::One)),
        2 => Some(Source::Given(Format::Two)),
        _ => None,
    }
}
