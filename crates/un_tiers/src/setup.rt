//! What a network is opened with.
use crate::tiers::Tiers;
use un_schema::Schema;

/// The schema and the tiers. They stay for the life of a network; the rules in force, which may grow, are the features' own.
#[derive(Drop)]
pub struct Setup {
    pub schema: Schema,
    pub tiers: Tiers,
}
