//! What is due for each script, as what a function ensures that does nothing.
ghost use Rattle.un_script.specs.History.{Headline};

use un_core::histories::{opening_has_no_history, requests_lead, states_are_faithful};
use un_schema_json::laws::schemas_are_catalogs;

/// What is due by the states is what is due by the schema's line and the accepted commands alone, over every list of lines and every cut
/// of the input.
pub(crate) fn headline()
    ensures { Headline }
{
    schemas_are_catalogs();
    opening_has_no_history();
    states_are_faithful();
    requests_lead();
}
