//! The points to which a walk came, with what the ground has there, and a mark for each entry of their stars.

ghost use Rattle.std.specs.Prelude.{◌≡◌, ◌<◌, [], ◌++◌, List, length, map, OnOk};
ghost use Rattle.std.specs.List.{position};
ghost use Rattle.un_defs.specs.Orders.{same_port};
ghost use Rattle.un_walk.specs.Visits.{port_of, unfound, unfound_in, IsSiteAt, IsOneMore, IsInside, IsMarkedAt, WasMarkedAt, IsPlaceAt};

use crate::item::narrow;
use crate::room::make_room;
use crate::site::Site;
use std::alloc::{AllocError, Global};
use std::marker::Model;
use un_defs::{PackedSpot, Port};

/// An entry of a star: its port, and where its node stands among the found nodes, which is 0 where it was not found, and else its place and 1.
///
/// The port stands here too, so that it is found without the star, which may be in no cache.
#[derive(Clone, Copy)]
pub(crate) struct Mark {
    feature: u64,
    place: u32,
    number: u8,
}

/// What the ground has at a point, and where the marks of its entries begin and end.
#[derive(Clone, Copy)]
pub(crate) struct Visit<'a> {
    site: Site<'a>,
    begin: u32,
    end: u32,
}

/// The points in the order in which the walk came to them, by number. The marks of all points stand in one list.
///
/// Contracts see each site with the places of its marks.
#[derive(Drop)]
pub(crate) struct Visits<'a> {
    visits: Vec<Visit<'a>>,
    marks: Vec<Mark>,
}

impl<'a> Model for Visits<'a> {
    ghost use Rattle.std.specs.Prelude.{List, map};
    ghost use Rattle.un_walk.specs.Visits.{Visited, place_of, visited_of, AreKept};

    ghost Value = { List Visited };

    ghost view = { λ v. map (visited_of (map place_of v.marks.items)) v.visits.items };

    ghost invariant = { λ v. AreKept v.visits.items v.marks.items };
}

impl Mark {
    /// The entry of a port whose node was not found yet.
    fn new(port: Port) -> Mark
        ensures { result ≡ unfound port }
    {
        Mark {
            feature: port.feature,
            place: 0,
            number: port.number,
        }
    }

    fn port(&self) -> Port
        ensures { result ≡ port_of self.now }
    {
        Port {
            feature: self.feature,
            number: self.number,
        }
    }
}

// Adds a mark for each entry. If memory runs out, some of them may stay behind.
fn add_marks(marks: &mut Vec<Mark>, spots: &[PackedSpot]) -> Result<(), AllocError>
    ensures added { OnOk result (marks.new.items ≡ marks.old.items ++ unfound_in spots.now) }
    ensures longer { (more : List Mark) × (marks.new.items ≡ marks.old.items ++ more) }
{
    for spot in spots {
        marks.push(Mark::new(spot.port()))?;
    }
    Ok(())
}

// The place of the port's mark.
fn place_among(marks: &[Mark], port: Port) -> Option<usize>
    ensures { result ≡ position (λ m. same_port (port_of m) port) marks.now }
{
    marks.iter().position(|mark| mark.port() == port)
}

impl<'a> Visits<'a> {
    pub(crate) fn new(alloc: Global) -> Visits<'a>
        ensures { result ≡ [] }
    {
        Visits {
            visits: Vec::new(alloc),
            marks: Vec::new(alloc),
        }
    }

    /// How many points there are.
    pub(crate) fn len(&self) -> usize
        ensures { result ≡ length self.now }
    {
        self.visits.len()
    }

    /// The site with the number.
    pub(crate) fn site(&self, number: usize) -> Site<'a>
        requires { number < length self.now }
        ensures { IsSiteAt self.now number result }
    {
        self.visits[number].site
    }

    /// The place of a port's entry in the star of the site with the number, if it has one. The star is not read for that.
    pub(crate) fn place(&self, number: usize, port: Port) -> Option<usize>
        requires { number < length self.now }
        ensures { IsPlaceAt self.now number port result }
    {
        let visit = &self.visits[number];
        place_among(&self.marks[visit.begin as usize..visit.end as usize], port)
    }

    /// The mark at an entry.
    pub(crate) fn mark(&self, number: usize, place: usize) -> usize
        requires { IsInside self.now number place }
        ensures { WasMarkedAt self.now number place result }
    {
        let at = self.visits[number].begin as usize + place;
        self.marks[at].place as usize
    }

    /// Adds a site at which nothing is marked. If memory runs out, marks that nothing stands for may stay behind.
    pub(crate) fn push(&mut self, site: Site<'a>) -> Result<(), AllocError>
        ensures { OnOk result (IsOneMore self.old self.new site.entry) }
    {
        let begin = narrow(self.marks.len())?;
        add_marks(&mut self.marks, site.spots())?;
        let end = narrow(self.marks.len())?;
        make_room(&mut self.visits)?;
        self.visits.push(Visit { site, begin, end })?;
        Ok(())
    }

    /// Puts a mark at an entry, unless it has one. The mark that was there, which is 0 for none.
    pub(crate) fn put_mark(&mut self, number: usize, place: usize, mark: u32) -> usize
        requires { IsInside self.old number place }
        ensures new { result ≡ 0 → IsMarkedAt self.old self.new number place mark }
        ensures old { 0 < result → (self.new ≡ self.old) × WasMarkedAt self.old number place result }
    {
        let at = self.visits[number].begin as usize + place;
        let old = self.marks[at].place;
        if old == 0 {
            self.marks[at].place = mark;
        }
        old as usize
    }
}
