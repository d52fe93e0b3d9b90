//! The stars at many points, on several threads.
//!
//! # What is to be found
//!
//! A validation builds the star of all features at each point under its extent. The features do not change meanwhile, so no star needs
//! another one, and they can be built side by side. Wanted are the stars in the order of the points.
//!
//! # How it is found
//!
//! [`stars`] halves the list of points, and each half again, until there are some two pieces for each processor or a piece would have
//! fewer than 64 points. Each piece goes to a thread, which builds the stars of its points one after another by `un_star::build` into a
//! list of its own. The lists of two halves are then put one behind the other. `rayon` does the halving, starts the threads and joins the
//! lists. Fewer than 128 points are one piece, which the calling thread builds itself.
//!
//! # Why that is enough
//!
//! All threads read the same features through one reference, and none writes to anything that another one reads. A star depends on the
//! features and its point alone. A list of two halves, each in the order of its points, is in the order of the whole. Where memory runs out
//! at one point, no list of all stars can be given, and the call says so. The other pieces are still built to their end, and then dropped.
//!
//! # What it costs
//!
//! Each star costs what it costs alone. A thread costs some tens of microseconds to start, which the stars at 64 points outweigh, and each
//! star is moved once for each halving, at most six times. Pieces are not divided again once a thread has nothing left to do, so where the
//! points of one piece have by far the most lines, the others wait for that piece. No clause says that several threads run; a machine
//! that gives none builds all stars on the calling thread.
#![tactic(auto)]

ghost use Rattle.std.specs.Prelude.{◌≡◌, map, IfOk};
ghost use Rattle.un_defs.specs.Star.{star};

use rayon::prelude::*;
use std::alloc::{AllocError, Global};
use std::thread::Threads;
use un_defs::{Rows, Star};
use un_geom::Point;
use un_star::build;

/// The fewest points that are worth a thread.
const LEAST_POINTS: usize = 64;

/// The star of the features at each of some points, in their order, built on several threads.
///
/// The only error is want of memory, at any of the points.
pub fn stars<K: Rows + Sync, R: Threads + Sync>(
    rt: &R,
    alloc: Global,
    rows: &K,
    points: &[Point],
) -> Result<Vec<Star>, AllocError>
    ensures { IfOk result (λ stars. stars.items
        ≡ map (star (K.catalog rows.now) (K.features rows.now)) points.now) }
{
    points
        .par_iter()
        .with_min_len(LEAST_POINTS)
        .map(
            |p: &Point| -> Result<Star, AllocError>
                ensures { IfOk result (λ s. s ≡ star (K.catalog rows.entry.now) (K.features rows.entry.now) p.now) }
            { build(alloc, rows, *p) },
        )
        .collect::<Result<Vec<Star>, AllocError>>(rt, alloc)?
}
