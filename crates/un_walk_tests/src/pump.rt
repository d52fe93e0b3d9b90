//! The ground of a pump whose inlet and outlet stand at two points, and which counts how often a star is asked for.
//!
//! A main begins at the inlet. The path through the pump leads from there 10 to the east, to the outlet, which area 7 covers.

ghost use Rattle.std.specs.Prelude.{◌≡◌, pos, [], ◌∷◌, if◌then◌else◌};
ghost use Rattle.std.proofs.Common.{arith};
ghost use Rattle.un_geom.specs.Places.{same_point, covers};
ghost use Rattle.un_defs.specs.Star.{empty_star};

use std::alloc::{AllocError, Global};
use std::cell::Cell;
use un_attrs::{Attrs, Cats};
use un_defs::link::{TieList, Ties};
use un_defs::star::{Spots, TopoErrors};
use un_defs::{Ground, Ids, LinkName, Node, PackedSpot, PackedTie, Port, Spot, Star, Tie};
use un_geom::Point;
use un_schema::Class;

/// The stars at the inlet and at the outlet, and how often a star was asked for.
#[derive(Drop)]
pub(crate) struct Pump {
    inlet: Star,
    outlet: Star,
    pub(crate) asked: Cell<u64>,
}

fn is_inlet(p: Point) -> bool
    ensures { result ≡ same_point p (record { x = pos 0; y = pos 0; z = pos 0 }) }
{
    p == Point { x: 0, y: 0, z: 0 }
}

fn is_outlet(p: Point) -> bool
    ensures { result ≡ same_point p (record { x = pos 10; y = pos 0; z = pos 0 }) }
{
    p == Point { x: 10, y: 0, z: 0 }
}

fn is_dirty(p: Point) -> bool
    ensures { result ≡ covers (record { x0 = pos 5; y0 = pos 0; x1 = pos 15; y1 = pos 5 }) p }
{
    5 <= p.x && p.x <= 15 && 0 <= p.y && p.y <= 5
}

impl Ground for Pump {
    ghost stars_and_areas = { λ pump. record {
      stars = λ p. if same_point p (record { x = pos 0; y = pos 0; z = pos 0 }) then pump.inlet
          else (if same_point p (record { x = pos 10; y = pos 0; z = pos 0 }) then pump.outlet else empty_star);
      areas = (7, record { x0 = pos 5; y0 = pos 0; x1 = pos 15; y1 = pos 5 }) ∷ [];
    } };

    ghost numbered = { λ pump i j d low high. absurd (Prim.omega arith) };

    fn star(&self, p: Point) -> Option<&Star> {
        self.asked.set(self.asked.get().wrapping_add(1));
        if is_inlet(p) {
            Some(&self.inlet)
        } else if is_outlet(p) {
            Some(&self.outlet)
        } else {
            None
        }
    }

    fn dirty(&self, p: Point) -> Option<u64> {
        if is_dirty(p) { Some(7) } else { None }
    }
}

/// The inlet of the pump.
const INLET: Node = Node {
    port: Port {
        feature: 1,
        number: 1,
    },
    at: Point { x: 0, y: 0, z: 0 },
};

/// The outlet of the pump.
pub(crate) const OUTLET: Node = Node {
    port: Port {
        feature: 1,
        number: 2,
    },
    at: Point { x: 10, y: 0, z: 0 },
};

/// The first vertex of the main, at the inlet.
pub(crate) const MAIN: Node = Node {
    port: Port {
        feature: 2,
        number: 0,
    },
    at: Point { x: 0, y: 0, z: 0 },
};

const PATH: LinkName = LinkName::Path {
    device: 1,
    low: 1,
    high: 2,
};

const COIN: LinkName = LinkName::Coin {
    junction: 1,
    terminal: 1,
    line: 2,
    vertex: 0,
};

/// The path as the inlet has it.
const TO_OUTLET: Tie = Tie {
    name: PATH,
    to: OUTLET,
    out: true,
    back: false,
};

/// The path as the outlet has it.
const TO_INLET: Tie = Tie {
    name: PATH,
    to: INLET,
    out: false,
    back: true,
};

/// What joins the inlet and the main, as the inlet has it.
const TO_MAIN: Tie = Tie {
    name: COIN,
    to: MAIN,
    out: true,
    back: true,
};

/// What joins the inlet and the main, as the main has it.
const FROM_MAIN: Tie = Tie {
    name: COIN,
    to: INLET,
    out: true,
    back: true,
};

fn spot(alloc: Global, node: Node, ties: &[Tie]) -> Result<PackedSpot, AllocError> {
    let Ok(attrs) = Attrs::new(&[]) else {
        return Err(AllocError);
    };
    let packed = ties.iter().map(|tie| PackedTie::new(*tie)).collect(alloc)?;
    let spot = Spot {
        port: node.port,
        ties: Ties::new(TieList::from_vec(packed)),
        kind: 0,
        class: Class::Device,
        controller: None,
        cats: Cats(0),
        container: 0,
        contents: Ids::new(Vec::new(alloc)),
        structures: Ids::new(Vec::new(alloc)),
        attrs,
    };
    PackedSpot::new(alloc, spot)
}

fn star(alloc: Global, spots: Vec<PackedSpot>) -> Star {
    Star {
        spots: Spots::new(spots),
        errors: TopoErrors::new(Vec::new(alloc)),
    }
}

fn at_inlet(alloc: Global) -> Result<Star, AllocError> {
    let inlet = spot(alloc, INLET, &[TO_OUTLET, TO_MAIN])?;
    let main = spot(alloc, MAIN, &[FROM_MAIN])?;
    Ok(star(alloc, vec![in alloc; inlet, main]?))
}

fn at_outlet(alloc: Global) -> Result<Star, AllocError> {
    let outlet = spot(alloc, OUTLET, &[TO_INLET])?;
    Ok(star(alloc, vec![in alloc; outlet]?))
}

impl Pump {
    /// The pump and the main, of which nothing was asked for yet.
    pub(crate) fn new(alloc: Global) -> Result<Pump, AllocError> {
        Ok(Pump {
            inlet: at_inlet(alloc)?,
            outlet: at_outlet(alloc)?,
            asked: Cell::new(0),
        })
    }
}
