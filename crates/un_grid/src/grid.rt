ghost use Rattle.std.specs.Prelude.{◌≡◌, [], IfOk, OnOk, filter, not, if◌then◌else◌};
ghost use Rattle.std.specs.BTreeSet.{insert_key};
ghost use Rattle.std.specs.Map.{keys_of};
ghost use Rattle.un_geom.specs.declared.point.Point.{Point};
ghost use Rattle.un_geom.specs.Places.{same_point};
ghost use Rattle.un_points.specs.PointMaps.{covered};
ghost use Rattle.un_defs.specs.Orders.{port_cmp, same_port};
ghost use Rattle.un_grid.specs.Grids.{ports_in, IsGrid, HasNodes, HasRow, LacksNodes, LacksRow, HasInPlace};

use crate::port_list::{with_port, without_port};
use std::alloc::{AllocError, Global};
use std::marker::Model;
use std::sync::Arc;
use un_defs::port::Ports;
use un_defs::{Node, Port, Row};
use un_geom::{Point, Rect};
use un_points::PointMap;

/// The points at which ports stand, each with its ports. `insert` and `remove` give a new grid, which shares its pages with this one;
/// `put`, `take` and `exchange` change the grid itself, and none of those that share its pages.
#[derive(Drop)]
pub struct Grid {
    points: PointMap<Ports>,
}

impl Model for Grid {
    ghost use Rattle.std.specs.Prelude.{List};
    ghost use Rattle.un_geom.specs.declared.point.Point.{Point};
    ghost use Rattle.un_defs.specs.declared.port.Port.{Port};
    ghost use Rattle.un_grid.specs.Grids.{IsGrid};

    ghost Value = { List (Point × List Port) };

    ghost view = { λ g. g.points };

    ghost invariant = { λ g. IsGrid g.points };
}

impl Grid {
    /// The grid where nothing stands, which takes no memory.
    pub fn new(_alloc: Global) -> Grid
        ensures { result ≡ [] }
    {
        Grid {
            points: PointMap::new(),
        }
    }

    /// An equal grid, which shares all pages.
    pub fn share(&self) -> Result<Grid, AllocError>
        ensures same { IfOk result (λ g. g ≡ self.now) }
        ensures grid { IsGrid self.now }
    {
        Ok(Grid {
            points: self.points.share()?,
        })
    }

    /// The ports that stand at the point, rising.
    pub fn at(&self, p: Point) -> &[Port]
        ensures ports { result.now ≡ ports_in self.now p }
        ensures grid { IsGrid self.now }
    {
        match self.points.get(p) {
            Some(ports) => ports.as_slice(),
            None => &[],
        }
    }

    /// The points at which a port stands and that the rectangle covers, rising.
    pub fn points(&self, alloc: Global, extent: Rect) -> Result<Vec<Point>, AllocError>
        ensures points { IfOk result (λ points. points.items ≡ keys_of (covered extent self.now)) }
        ensures grid { IsGrid self.now }
    {
        self.points.points(alloc, &extent)
    }

    // Puts one port more at a point.
    fn put_port(&mut self, alloc: Global, p: Point, port: Port) -> Result<(), AllocError>
        ensures { OnOk result ((r : Point) → ports_in self.new r
            ≡ (if same_point r p then insert_key port_cmp
            (ports_in self.old p) port else ports_in self.old r)) }
    {
        let ports = with_port(alloc, self.at(p), port)?;
        let shared = Arc::new(alloc, Ports::new(ports))?;
        self.points.put(alloc, p, shared)?;
        Ok(())
    }

    // Takes one port out at a point.
    fn take_port(&mut self, alloc: Global, p: Point, port: Port) -> Result<(), AllocError>
        ensures { OnOk result ((r : Point) → ports_in self.new r
            ≡ (if same_point r p then filter
            (λ q. not (same_port q port)) (ports_in self.old r) else ports_in self.old r)) }
    {
        let ports = without_port(alloc, self.at(p), port)?;
        if ports.is_empty() {
            self.points.take(alloc, p)?;
            return Ok(());
        }
        let shared = Arc::new(alloc, Ports::new(ports))?;
        self.points.put(alloc, p, shared)?;
        Ok(())
    }

    // Puts the ports of some nodes in.
    fn put_nodes(&mut self, alloc: Global, nodes: &[Node]) -> Result<(), AllocError>
        ensures { OnOk result (HasNodes self.old nodes.now self.new) }
    {
        let _ = &self.points;
        for node in nodes {
            self.put_port(alloc, node.at, node.port)?;
        }
        Ok(())
    }

    // Takes the ports of some nodes out.
    fn take_nodes(&mut self, alloc: Global, nodes: &[Node]) -> Result<(), AllocError>
        ensures { OnOk result (LacksNodes self.old nodes.now self.new) }
    {
        for node in nodes {
            self.take_port(alloc, node.at, node.port)?;
        }
        Ok(())
    }

    /// Puts the ports of the row in. Of a grid for which memory ran out only the form is known.
    pub fn put(&mut self, alloc: Global, row: &Row) -> Result<(), AllocError>
        ensures { OnOk result (HasRow self.old self.new row.now) }
    {
        let nodes = row.nodes(alloc)?;
        self.put_nodes(alloc, &nodes)
    }

    /// Takes the ports of the row out. Of a grid for which memory ran out only the form is known.
    pub fn take(&mut self, alloc: Global, row: &Row) -> Result<(), AllocError>
        ensures { OnOk result (LacksRow self.old self.new row.now) }
    {
        let nodes = row.nodes(alloc)?;
        self.take_nodes(alloc, &nodes)
    }

    /// Puts the ports of the second row in the place of those of the first. Of a grid for which memory ran out only the form is known.
    pub fn exchange(&mut self, alloc: Global, old: &Row, new: &Row) -> Result<(), AllocError>
        ensures { OnOk result (HasInPlace self.old self.new old.now new.now) }
    {
        let gone = old.nodes(alloc)?;
        let come = new.nodes(alloc)?;
        self.take_nodes(alloc, &gone)?;
        self.put_nodes(alloc, &come)
    }

    /// The grid with the ports of the row besides its own.
    pub fn insert(&self, alloc: Global, row: &Row) -> Result<Grid, AllocError>
        ensures { IfOk result (λ g. HasRow self.now g row.now) }
    {
        let mut grid = self.share()?;
        grid.put(alloc, row)?;
        Ok(grid)
    }

    /// The grid without the ports of the row.
    pub fn remove(&self, alloc: Global, row: &Row) -> Result<Grid, AllocError>
        ensures { IfOk result (λ g. LacksRow self.now g row.now) }
    {
        let mut grid = self.share()?;
        grid.take(alloc, row)?;
        Ok(grid)
    }
}
