//! What holds of each schema that is taken, as what a function ensures that does nothing.
ghost use Rattle.un_schema.specs.GoodSchemas.{GoodSchemaLaw};

/// A schema without a bad member stands for a catalog as each is.
#[tactic(auto, using(crate::proofs::GoodSchemas::good_schema))]
pub fn good_schemas_are_catalogs()
    ensures { GoodSchemaLaw }
{}
