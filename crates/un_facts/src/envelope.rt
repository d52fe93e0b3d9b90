//! The envelope of some points.
ghost use Rattle.std.specs.Prelude.{◌≡◌, Some, All};
ghost use Rattle.un_geom.specs.Places.{IsPlace, envelope, envelope_from};

use un_geom::{Point, Rect};

// The same of points of which there is a first.
fn envelope_from(first: Point, rest: &[Point]) -> Option<Rect>
    requires first { IsPlace first }
    requires rest { All IsPlace rest.now }
    ensures { result ≡ Some (envelope_from first rest.now) }
{
    let mut x0 = first.x;
    let mut y0 = first.y;
    let mut x1 = first.x;
    let mut y1 = first.y;
    for p in rest {
        x0 = x0.min(p.x);
        y0 = y0.min(p.y);
        x1 = x1.max(p.x);
        y1 = y1.max(p.y);
    }
    Rect::new(i64::from(x0), i64::from(y0), i64::from(x1), i64::from(y1))
}

/// The least rectangle that covers the points, if there are any.
pub(crate) fn envelope(points: &[Point]) -> Option<Rect>
    requires { All IsPlace points.now }
    ensures { result ≡ envelope points.now }
{
    match points {
        [first, rest @ ..] => envelope_from(*first, rest),
        [] => None,
    }
}
