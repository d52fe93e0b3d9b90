// The run of points whose x is between the sides of a rectangle.
ghost use Rattle.std.specs.Prelude.{◌≡◌, ◌↔◌, Bool, true, false, Some, IsTrue, pos, neg_ℤ, ◌-ℤ◌, ◌<ℤ◌, ◌≤ℤ◌};
ghost use Rattle.std.specs.declared.cmp.Ordering.TheVariants.{Less};
ghost use Rattle.un_geom.specs.declared.point.Point.{Point};
ghost use Rattle.un_geom.specs.Places.{covers, point_cmp};
ghost use Rattle.un_pages.specs.Pairs.{is_past};

use un_geom::{Point, Rect};

// Where a walk over the points under the rectangle may begin that is to begin after a point, or at the first point.
pub(crate) fn start(extent: &Rect, after: Option<Point>) -> Option<Point>
    ensures { (q : Point) → covers extent.now q ≡ true
        → is_past point_cmp result q ≡ is_past point_cmp after q }
{
    let x0 = left(extent);
    let Some(point) = after else {
        return Some(left_of(x0));
    };
    if is_below(point.x, x0) {
        return Some(left_of(x0));
    }
    Some(point)
}

// Whether the point and all after it are beyond the rectangle.
pub(crate) fn is_beyond(extent: &Rect, point: Point) -> bool
    ensures own { result ≡ true → covers extent.now point ≡ false }
    ensures all { (q : Point) → result ≡ true → point_cmp point q ≡ Less → covers extent.now q ≡ false }
{
    is_below(right(extent), point.x)
}

// The point after which a walk that is at a point may go on. Where the point is below or above the rectangle, it is a later one of the
// same column, and the rectangle covers no point between the two. Otherwise it is the point itself.
pub(crate) fn skip(extent: &Rect, point: Point) -> Point
    ensures same { (q : Point) → covers extent.now q ≡ true
        → is_past point_cmp (Some point) q ≡ is_past point_cmp (Some result) q }
    ensures later { (q : Point) → is_past point_cmp (Some result) q ≡ true
        → is_past point_cmp (Some point) q ≡ true }
{
    let below = below_bottom(extent);
    let top = top(extent);
    if is_below(point.y, below) {
        return moved(point, below);
    }
    if is_below(top, point.y) && is_below(point.y, i32::MAX) {
        return moved(point, i32::MAX);
    }
    point
}

// The point with the same x and z and with this y.
fn moved(point: Point, y: i32) -> Point
    ensures column { result.x ≡ point.x }
    ensures y { result.y ≡ y }
{
    Point {
        x: point.x,
        y,
        z: point.z,
    }
}

// A point before all points that the rectangle covers.
pub(crate) fn before(extent: &Rect) -> Point
    ensures { (q : Point) → covers extent.now q ≡ true → is_past point_cmp (Some result) q ≡ true }
{
    left_of(left(extent))
}

// The greatest y below the rectangle.
fn below_bottom(extent: &Rect) -> i32
    ensures side { result <ℤ extent.now.y0 }
    ensures low { neg_ℤ (pos 1_000_000_001) ≤ℤ result }
{
    let [_, y0, _, _] = extent.sides();
    y0 - 1
}

fn top(extent: &Rect) -> i32
    ensures { result ≡ extent.now.y1 }
{
    let [_, _, _, y1] = extent.sides();
    y1
}

fn left(extent: &Rect) -> i32
    ensures side { result ≡ extent.now.x0 }
    ensures low { neg_ℤ (pos 1_000_000_000) ≤ℤ result }
{
    let [x0, _, _, _] = extent.sides();
    x0
}

fn right(extent: &Rect) -> i32
    ensures { result ≡ extent.now.x1 }
{
    let [_, _, x1, _] = extent.sides();
    x1
}

fn is_below(low: i32, high: i32) -> bool
    ensures { IsTrue result ↔ (low <ℤ high) }
{
    low < high
}

// The last point whose x is below the number.
fn left_of(x: i32) -> Point
    requires { neg_ℤ (pos 1_000_000_000) ≤ℤ x }
    ensures { result.x <ℤ x }
{
    Point {
        x: x - 1,
        y: i32::MAX,
        z: i32::MAX,
    }
}
