//! A page of differences is put into a topology.

ghost use Rattle.std.specs.Prelude.{◌≡◌, IfOk, OnOk, OnErr};
ghost use Rattle.un_feed.specs.Differences.{change_shown, with_difference, applied, shown};

use crate::changes::{Change, Page};
use std::alloc::{AllocError, Global};
use std::sync::Arc;
use un_defs::Star;
use un_geom::Point;
use un_pages::Paged;

/// The topology with the pairs of the page put in, one after another: each point gets its star, or is taken out where it has none. The
/// topology itself stays as it is, and shares with the new one what the page does not change. The only error is want of memory.
pub fn put_in(
    alloc: Global,
    map: &Paged<Point, Star>,
    page: &Page,
) -> Result<Paged<Point, Star>, AllocError>
    ensures { IfOk result (λ m. m ≡ applied map.now (shown page.now).pairs) }
{
    let mut changed = map.share()?;
    for change in page.pairs.as_slice() {
        put_change(alloc, &mut changed, change)?;
    }
    Ok(changed)
}

fn put_change(
    alloc: Global,
    map: &mut Paged<Point, Star>,
    change: &Change,
) -> Result<(), AllocError>
    ensures ok { OnOk result (map.new ≡ with_difference map.old (change_shown change.now)) }
    ensures err { OnErr result (map.new ≡ map.old) }
{
    match &change.star {
        Some(star) => map.put(alloc, change.at, Arc::try_clone(star)?),
        None => map.take(alloc, &change.at),
    }
}
