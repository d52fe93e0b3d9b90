//! The star at a point.
ghost use Rattle.std.specs.Prelude.{◌≡◌, IfOk};
ghost use Rattle.un_defs.specs.Star.{star};

use crate::entries::spots_here;
use crate::errors::errors_here;
use crate::meet::meet;
use std::alloc::{AllocError, Global};
use un_defs::star::{Spots, TopoErrors};
use un_defs::{Rows, Star};
use un_geom::Point;

/// The star at a point: the entry of each port that stands there, and the errors there.
///
/// It looks up the row of each of these ports once, the associations of these rows with the rows at their ends, and the controllers. The
/// only error is want of memory.
pub fn build<R: Rows>(alloc: Global, rows: &R, p: Point) -> Result<Star, AllocError>
    ensures { IfOk result (λ s. s ≡ star (R.catalog rows.now) (R.features rows.now) p) }
{
    let meeting = meet(alloc, rows, p)?;
    let spots = spots_here(alloc, rows, &meeting)?;
    let errors = errors_here(alloc, rows, &meeting)?;
    Ok(Star {
        spots: Spots::new(spots),
        errors: TopoErrors::new(errors),
    })
}
