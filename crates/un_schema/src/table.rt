use crate::kind::Kind;
use crate::name::Name;
use un_terms::TermConfig;

/// A terminal configuration with the names of its paths.
#[derive(Drop)]
pub struct NamedConfig {
    pub config: TermConfig,
    pub paths: Vec<Name>,
}

/// What of a schema never changes: all but its rules. Schemas that differ in their rules alone share one.
#[derive(Drop)]
pub struct KindTable {
    pub attributes: Vec<Name>,
    pub categories: Vec<Name>,
    pub configs: Vec<NamedConfig>,
    pub kinds: Vec<Kind>,
}
