// The map.
ghost use Rattle.std.specs.Prelude.{◌≡◌, ◌↔◌, ◌++◌, [], map, flat_map, length, IfOk, OnOk, OnErr, IfSome, IfNone, IsNone};
ghost use Rattle.std.specs.Arc.{arc_value};
ghost use Rattle.std.specs.Map.{keys_of};
ghost use Rattle.un_points.specs.PointMaps.{covered};
ghost use Rattle.un_defs.specs.Star.{empty_star};
ghost use Rattle.un_index.specs.Kept.{is_empty_star, stars_of, replaced, errors_of, AreStars, HasStarAt, IsKept};

use std::alloc::{AllocError, Global};
use std::marker::Model;
use std::sync::Arc;
use un_defs::{Star, TopoError};
use un_geom::{Point, Rect};
use un_pages::Paged;
use un_points::PointMap;

/// The kept topology. `put` changes it, and none of those that share its pages.
#[derive(Drop)]
pub struct Index {
    stars: PointMap<Star>,
}

impl Model for Index {
    ghost use Rattle.std.specs.Prelude.{List};
    ghost use Rattle.un_geom.specs.declared.point.Point.{Point};
    ghost use Rattle.un_defs.specs.declared.star.Star.{Star};
    ghost use Rattle.un_index.specs.Kept.{AreStars};

    ghost Value = { List (Point × Star) };

    ghost view = { λ i. i.stars };

    ghost invariant = { λ i. AreStars i.stars };
}

impl Index {
    /// The topology before any validation. It takes no memory.
    pub fn new(_alloc: Global) -> Index
        ensures { result ≡ [] }
    {
        Index {
            stars: PointMap::new(),
        }
    }

    /// At how many points a star is kept.
    pub fn len(&self) -> u64
        ensures len { result ≡ length self.now }
        ensures kept { IsKept self.now }
    {
        self.stars.len()
    }

    /// The star at the point, if one is kept.
    pub fn star(&self, p: Point) -> Option<&Star>
        ensures some { IfSome result (λ star. star.now ≡ stars_of self.now p) }
        ensures none { IfNone result (stars_of self.now p ≡ empty_star) }
        ensures empty { IsNone result ↔ (stars_of self.now p ≡ empty_star) }
    {
        self.stars.get(p)
    }

    /// Puts this star at the point. An empty star takes the point out. Pages that no other topology shares are changed in place, and the
    /// others copied. After an `Err` the topology is as it was.
    pub fn put(&mut self, alloc: Global, p: Point, star: Arc<Star>) -> Result<(), AllocError>
        ensures list { OnOk result (self.new ≡ replaced self.old p (arc_value star)) }
        ensures stars { OnOk result (HasStarAt self.old self.new p (arc_value star)) }
        ensures err { OnErr result (self.new ≡ self.old) }
    {
        put_star(&mut self.stars, alloc, p, star)?;
        Ok(())
    }

    /// The points at which a star is kept and that the rectangle covers, rising.
    pub fn points(&self, alloc: Global, extent: Rect) -> Result<Vec<Point>, AllocError>
        ensures { IfOk result (λ points. points.items ≡ keys_of (covered extent self.now)) }
    {
        self.stars.points(alloc, &extent)
    }

    /// The errors at points that the rectangle covers, by point and then in the order of the star.
    pub fn errors(&self, alloc: Global, extent: Rect) -> Result<Vec<(Point, TopoError)>, AllocError>
        ensures { IfOk result (λ errors. errors.items ≡ flat_map errors_of (covered extent self.now)) }
    {
        errors_under(&self.stars, alloc, &extent)
    }

    /// The stars by their points, sorted by x, then y, then z. It takes no memory.
    pub fn map(&self) -> &Paged<Point, Star>
        ensures { result.now ≡ self.now }
    {
        self.stars.pairs()
    }

    /// An equal topology, which shares all pages.
    pub fn share(&self) -> Result<Index, AllocError>
        ensures { IfOk result (λ i. i ≡ self.now) }
    {
        Ok(Index {
            stars: self.stars.share()?,
        })
    }
}

// Whether the star is that of a point where nothing stands.
fn is_empty(star: &Star) -> bool
    ensures { result ≡ is_empty_star star.now }
{
    star.spots.as_slice().is_empty() && star.errors.as_slice().is_empty()
}

fn put_star(
    stars: &mut PointMap<Star>,
    alloc: Global,
    p: Point,
    star: Arc<Star>,
) -> Result<(), AllocError>
    requires { AreStars stars.old }
    ensures list { OnOk result (stars.new ≡ replaced stars.old p (arc_value star)) }
    ensures stars { OnOk result (HasStarAt stars.old stars.new p (arc_value star)) }
    ensures kept { AreStars stars.new }
    ensures err { OnErr result (stars.new ≡ stars.old) }
{
    if is_empty(&star) {
        return stars.take(alloc, p);
    }
    stars.put(alloc, p, star)
}

fn errors_under(
    stars: &PointMap<Star>,
    alloc: Global,
    extent: &Rect,
) -> Result<Vec<(Point, TopoError)>, AllocError>
    ensures { IfOk result (λ errors. errors.items ≡ flat_map errors_of (covered extent.now stars.now)) }
{
    let mut errors = Vec::new(alloc);
    for (point, star) in stars.under(extent) {
        add_errors(&mut errors, point, star.errors.as_slice())?;
    }
    Ok(errors)
}

fn add_errors(
    list: &mut Vec<(Point, TopoError)>,
    point: Point,
    errors: &[TopoError],
) -> Result<(), AllocError>
    ensures { IfOk result (λ _. list.new.items ≡ list.old.items ++ map (λ e. (point, e)) errors.now) }
{
    for error in errors {
        list.push((point, *error))?;
    }
    Ok(())
}
