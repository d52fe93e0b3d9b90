//! What holds for each schema that a line gives, as the contract of a function that does nothing.
ghost use Rattle.un_schema_json.specs.Sound.{SchemaLaw};

/// The schema of a line is a valid catalog.
pub fn schemas_are_catalogs()
    ensures { SchemaLaw }
{}
