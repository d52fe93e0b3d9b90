//! What makes stored rows dirty.

ghost use Rattle.std.specs.Prelude.{◌≡◌, ◌++◌, map, not, IfOk, OnOk};
ghost use Rattle.std.specs.List.Sorted.{IsStrictlySortedBy};
ghost use Rattle.std.specs.Map.Iter.{deref};
ghost use Rattle.std.specs.Option.{option_copied};
ghost use Rattle.un_defs.specs.SameStar.{same_star};
ghost use Rattle.un_subnet.specs.Changes.{star_or_empty, is_empty_star, controllers_in, with_point, gathered_at, changes_at};

use crate::sorted::sorted_points;
use std::alloc::{AllocError, Global};
use std::marker::Model;
use un_defs::{Controller, Ground, Star, is_same_star};
use un_geom::Point;

/// The points whose stars a validation has changed, and the controllers that these stars had before or have now.
#[derive(Drop)]
pub struct StarChanges<'a> {
    /// Rising.
    points: Vec<Point>,
    controllers: Vec<&'a Controller>,
}

impl<'a> Model for StarChanges<'a> {
    ghost use Rattle.std.specs.Prelude.{map};
    ghost use Rattle.std.specs.Map.Iter.{deref};
    ghost use Rattle.std.specs.List.Sorted.{IsStrictlySortedBy};
    ghost use Rattle.un_geom.specs.Places.{point_cmp};
    ghost use Rattle.un_subnet.specs.Changes.{Changed};

    ghost Value = { Changed };

    ghost view = { λ c. record { points = c.points.items; controllers = map deref c.controllers.items } };

    ghost invariant = { λ c. IsStrictlySortedBy point_cmp c.points.items };
}

/// The same, with the points in the order in which they were looked at.
#[derive(Drop)]
struct Gathered<'a> {
    points: Vec<Point>,
    controllers: Vec<&'a Controller>,
}

impl<'a> Model for Gathered<'a> {
    ghost use Rattle.std.specs.Prelude.{map};
    ghost use Rattle.std.specs.Map.Iter.{deref};
    ghost use Rattle.un_subnet.specs.Changes.{Changed};

    ghost Value = { Changed };

    ghost view = { λ c. record { points = c.points.items; controllers = map deref c.controllers.items } };
}

fn is_empty_star(star: &Star) -> bool
    ensures { result ≡ is_empty_star star.now }
{
    star.spots.as_slice().is_empty() && star.errors.as_slice().is_empty()
}

/// Whether the star has changed. No star is the same as an empty one.
fn is_changed(before: Option<&Star>, after: Option<&Star>) -> bool
    ensures { result ≡ not (same_star
        (star_or_empty (option_copied before.entry)) (star_or_empty (option_copied after.entry))) }
{
    match (before, after) {
        (Some(before), Some(after)) => !is_same_star(before, after),
        (Some(star), None) | (None, Some(star)) => !is_empty_star(star),
        (None, None) => false,
    }
}

/// Adds the controllers that the entries of a star have.
fn add_controllers<'a>(
    controllers: &mut Vec<&'a Controller>,
    star: Option<&'a Star>,
) -> Result<(), AllocError>
    ensures { OnOk result (map deref controllers.new.items
        ≡ map deref controllers.old.items ++ controllers_in (star_or_empty (option_copied star.entry))) }
{
    let Some(star) = star else {
        return Ok(());
    };
    for spot in star.spots.as_slice() {
        if let Some(controller) = spot.controller() {
            controllers.push(controller)?;
        }
    }
    Ok(())
}

impl<'a> Gathered<'a> {
    /// Adds the point if its star has changed.
    fn add(
        &mut self,
        point: Point,
        before: Option<&'a Star>,
        after: Option<&'a Star>,
    ) -> Result<(), AllocError>
        ensures { OnOk result (self.new ≡ with_point self.old point
            (star_or_empty (option_copied before.entry)) (star_or_empty (option_copied after.entry))) }
    {
        if is_changed(before, after) {
            self.points.push(point)?;
            add_controllers(&mut self.controllers, before)?;
            add_controllers(&mut self.controllers, after)?;
        }
        Ok(())
    }
}

/// What has changed at the points, in their order.
fn gather<'a, G: Ground, H: Ground>(
    alloc: Global,
    before: &'a G,
    after: &'a H,
    points: &[Point],
) -> Result<Gathered<'a>, AllocError>
    ensures { IfOk result (λ found. found ≡ gathered_at
        (G.stars_and_areas before.now).stars (H.stars_and_areas after.now).stars points.now) }
{
    let mut found = Gathered {
        points: Vec::new(alloc),
        controllers: Vec::new(alloc),
    };
    for point in points {
        found.add(*point, before.star(*point), after.star(*point))?;
    }
    Ok(found)
}

impl<'a> StarChanges<'a> {
    /// The points, rising.
    pub(crate) fn points(&self) -> &[Point]
        ensures { result.now ≡ self.now.points }
    {
        self.points.as_slice()
    }

    /// The controllers, some of them more than once.
    pub(crate) fn controllers(&self) -> &[&'a Controller]
        ensures { map deref result.now ≡ self.now.controllers }
    {
        self.controllers.as_slice()
    }
}

/// What has changed at the points between two topologies. It compares the two stars of each point.
pub fn star_changes<'a, G: Ground, H: Ground>(
    alloc: Global,
    before: &'a G,
    after: &'a H,
    points: &[Point],
) -> Result<StarChanges<'a>, AllocError>
    ensures { IfOk result (λ changes. changes ≡ changes_at
        (G.stars_and_areas before.now).stars (H.stars_and_areas after.now).stars points.now) }
{
    let Gathered {
        points,
        controllers,
    } = gather(alloc, before, after, points)?;
    Ok(StarChanges {
        points: sorted_points(points),
        controllers,
    })
}
