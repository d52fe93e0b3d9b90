//! What holds of each shape, as what a function ensures that does nothing.
ghost use Rattle.un_geom.specs.Counts.{CountLaw};

/// A shape without a bad place has as many points as it is to have.
#[tactic(auto, using(crate::proofs::BadPlaces::good_count))]
pub fn good_shapes_have_few_points()
    ensures { CountLaw }
{}
