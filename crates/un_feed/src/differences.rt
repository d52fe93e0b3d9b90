//! The differences between two topologies.
//!
//! A difference is a point at which two topologies have different stars, or at which only one of them has a star. The differences are
//! listed by point, each with the star of the newer topology, or with none where no star is left.
//!
//! It would cost too much to look at all points where few stars have changed. Two topologies may share pages, but code here cannot see
//! that, since references are not compared by address. So the caller passes sorted points outside of which nothing differs, for example
//! those in the areas that were validated in between. Each of them that comes after the start of the page is looked up in both topologies,
//! and the two stars are compared. This is enough: a point at which the two differ is in the list, and a point at which they agree is left
//! out.
//!
//! A page has at most a given number of differences. The search ends at the first difference that does not fit, and the page then says that
//! there are more.
//!
//! The cost is a look-up in each topology and a comparison of two stars for each listed point from the start of the page to its end. Listed
//! points before it are passed over, and the rest of both topologies is not looked at. The page shares the stars of the newer topology.

ghost use Rattle.std.specs.Prelude.{◌≡◌, IfOk};
ghost use Rattle.std.specs.Option.{option_copied, option_map};
ghost use Rattle.std.specs.List.Sorted.{IsStrictlySortedBy};
ghost use Rattle.un_geom.specs.Places.{point_cmp};
ghost use Rattle.un_pages.specs.Pairs.{is_past, value_held};
ghost use Rattle.un_points.specs.PointMaps.{value_at};
ghost use Rattle.un_feed.specs.Differences.{same_stars, change_shown, difference_at, differences, page_of, shown, HasDifferences};

use crate::changes::{Change, Page, Pairs};
use std::alloc::{AllocError, Global};
use std::ops::Bound;
use std::sync::Arc;
use un_defs::{Star, is_same_star};
use un_geom::Point;
use un_pages::Paged;

/// The first `most` differences between the two topologies at points after `after`, or the first of all if `after` is `None`. Each point
/// after `after` at which the two differ has to be in `among`, which is sorted. The only error is want of memory.
pub fn diff(
    alloc: Global,
    old: &Paged<Point, Star>,
    new: &Paged<Point, Star>,
    among: &[Point],
    after: Option<Point>,
    most: usize,
) -> Result<Page, AllocError>
    requires sorted { IsStrictlySortedBy point_cmp among.now }
    requires whole { HasDifferences old.now new.now after among.now }
    ensures { IfOk result (λ page. shown page ≡ page_of (differences old.now new.now) after most) }
{
    let mut pairs = Vec::new(alloc);
    for point in among {
        if let Some(change) = change_after(old, new, after, *point)? {
            if pairs.len() == most {
                return Ok(page(pairs, true));
            }
            pairs.push(change)?;
        }
    }
    Ok(page(pairs, false))
}

fn page(pairs: Vec<Change>, more: bool) -> Page
    ensures pairs { result.pairs ≡ pairs.items }
    ensures more { result.more ≡ more }
{
    Page {
        pairs: Pairs::new(pairs),
        more,
    }
}

// What has changed at the point, if it comes after the other one.
fn change_after(
    old: &Paged<Point, Star>,
    new: &Paged<Point, Star>,
    after: Option<Point>,
    point: Point,
) -> Result<Option<Change>, AllocError>
    ensures { IfOk result (λ change. option_map change_shown change ≡ difference_at old.now new.now after point) }
{
    if !is_past(after, point) {
        return Ok(None);
    }
    let star = star_at(new, point);
    if is_same(old.get(&point), star) {
        return Ok(None);
    }
    let star = match star {
        Some(star) => Some(Arc::try_clone(star)?),
        None => None,
    };
    Ok(Some(Change { at: point, star }))
}

fn is_past(after: Option<Point>, point: Point) -> bool
    ensures { result ≡ is_past point_cmp after point }
{
    match after {
        Some(after) => after < point,
        None => true,
    }
}

// Whether the two stars are the same, or there is none in both topologies.
fn is_same(old: Option<&Star>, new: Option<&Arc<Star>>) -> bool
    ensures { result ≡ same_stars (option_copied old.entry) (value_held new.entry) }
{
    match (old, new) {
        (None, None) => true,
        (Some(old), Some(new)) => is_same_star(old, new),
        _ => false,
    }
}

// The shared star at the point.
fn star_at(map: &Paged<Point, Star>, point: Point) -> Option<&Arc<Star>>
    ensures { value_held result ≡ value_at point map.now }
{
    // For the proof alone.
    let _len = map.len();
    let (first, star) = map.range(Bound::Included(point)).next()?;
    if first == point { Some(star) } else { None }
}
