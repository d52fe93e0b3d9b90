//! The graph of the links between open nodes, with a forest that spans it. Its nodes are the places of the found nodes.

ghost use Rattle.std.specs.Prelude.{◌≡◌, ◌<◌, ◌↔◌, [], length, Some, IsTrue, true, false, IfOk, OnOk};
ghost use Rattle.un_defs.specs.declared.walk.Mode.TheVariants.{Any};
ghost use Rattle.un_walk.specs.Found.{nodes, IsFoundOver};
ghost use Rattle.un_walk.specs.Traced.{IsTraced};
ghost use Rattle.un_loops.specs.declared.graph.Parent.{Parent};
ghost use Rattle.un_loops.specs.Forest.{parent_at};
ghost use Rattle.un_loops.specs.Network.{is_passable, IsJoined, AreWellLinked, IsNetwork, IsGraphOver, AddsLink, AddsPlace, HasParentLink, IsTaken, IsLeftOut, AddsChordLink};

use crate::link::Link;
use crate::names::Names;
use std::alloc::{AllocError, Global};
use un_defs::{Barriers, Ground, LinkName, PackedTie};
use un_walk::{Chord, Found};

/// The place from which a place was found, and the link that led there.
#[derive(Clone, Copy, Debug, PartialEq, Eq)]
pub(crate) struct Parent {
    pub(crate) place: usize,
    pub(crate) link: usize,
}

/// The links between open nodes with their names, and of each place its parent, unless it is a root, and whether it is open.
#[derive(Drop)]
pub(crate) struct Graph<'a> {
    pub(crate) links: Vec<Link>,
    pub(crate) names: Names<'a>,
    pub(crate) parents: Vec<Option<Parent>>,
    pub(crate) opened: Vec<bool>,
}

fn is_same_name(one: LinkName, other: LinkName) -> bool
    ensures { IsTrue result ↔ (one ≡ other) }
{
    one == other
}

impl<'a> Graph<'a> {
    /// No links and no places, with room for so many.
    fn with_room(alloc: Global, links: usize, places: usize) -> Result<Self, AllocError>
        ensures links { IfOk result (λ g. g.links.items ≡ []) }
        ensures names { IfOk result (λ g. g.names ≡ []) }
        ensures parents { IfOk result (λ g. g.parents.items ≡ []) }
        ensures opened { IfOk result (λ g. g.opened.items ≡ []) }
    {
        Ok(Graph {
            links: Vec::with_capacity(alloc, links)?,
            names: Names::with_room(alloc, links)?,
            parents: Vec::with_capacity(alloc, places)?,
            opened: Vec::with_capacity(alloc, places)?,
        })
    }

    fn add_link(&mut self, link: Link, tie: &'a PackedTie) -> Result<(), AllocError>
        ensures adds { OnOk result (AddsLink self.old self.new link tie.now.name) }
        ensures parents { self.new.parents ≡ self.old.parents }
        ensures opened { self.new.opened ≡ self.old.opened }
    {
        self.links.push(link)?;
        self.names.add(tie)?;
        Ok(())
    }

    /// Adds the next place, with its parent link if it is open and no start. The node from which it was found is open, since the walk went on
    /// from there.
    fn add_place(
        &mut self,
        found: &Found<'a>,
        place: usize,
        is_open: bool,
    ) -> Result<(), AllocError>
        requires { place < length (nodes found.now) }
        ensures { OnOk result (AddsPlace found.now self.old self.new place is_open) }
    {
        self.opened.push(is_open)?;
        match found.origin(place) {
            Some(origin) if is_open => {
                let link = self.links.len();
                let from = origin.place;
                self.add_link(Link { a: from, b: place }, origin.tie)?;
                self.parents.push(Some(Parent { place: from, link }))?;
            }
            _ => self.parents.push(None)?,
        }
        Ok(())
    }

    /// The parent link of the chord's end comes from the same place and has the same name: it stands twice in the list of that node.
    fn has_parent_link(&self, chord: &Chord) -> bool
        requires inside { chord.now.to < length self.now.parents.items }
        requires named { (u : Parent) → parent_at self.now.parents.items chord.now.to ≡ Some u
            → u.link < length self.now.names }
        ensures { IsTrue result ↔ HasParentLink self.now chord.now }
    {
        match self.parents[chord.to] {
            Some(parent) => {
                parent.place == chord.from
                    && is_same_name(self.names.at(parent.link), chord.tie.name())
            }
            None => false,
        }
    }

    /// The chord leads to an open node, and is not there yet as a parent link.
    fn takes(&self, chord: &Chord) -> bool
        requires inside { chord.now.to < length self.now.parents.items }
        requires opened { chord.now.to < length self.now.opened.items }
        requires named { (u : Parent) → parent_at self.now.parents.items chord.now.to ≡ Some u
            → u.link < length self.now.names }
        ensures taken { result ≡ true → IsTaken self.now chord.now }
        ensures left_out { result ≡ false → IsLeftOut self.now chord.now }
    {
        self.opened[chord.to] && !self.has_parent_link(chord)
    }

    /// Adds the link of a chord, if it is one between open nodes that is not there yet as a parent link.
    fn add_chord(&mut self, chord: &Chord<'a>) -> Result<(), AllocError>
        requires inside { chord.now.to < length self.old.parents.items }
        requires opened { chord.now.to < length self.old.opened.items }
        requires named { (u : Parent) → parent_at self.old.parents.items chord.now.to ≡ Some u
            → u.link < length self.old.names }
        ensures { OnOk result (AddsChordLink self.old self.new chord.now) }
    {
        if self.takes(chord) {
            let link = Link {
                a: chord.from,
                b: chord.to,
            };
            self.add_link(link, chord.tie)?;
        }
        Ok(())
    }
}

/// The found node at the place is no barrier.
fn is_open_at<G: Ground>(over: &G, found: &Found, barriers: &Barriers, place: usize) -> bool
    requires over { IsFoundOver (G.stars_and_areas over.now) found.now }
    requires inside { place < length (nodes found.now) }
    ensures { result ≡ is_passable (G.stars_and_areas over.now) barriers.now (nodes found.now) place }
{
    let seen = found.seen_at(over, place);
    !seen.is_barrier(barriers)
}

/// The graph of the links by which open nodes were found.
fn forest<'a, G: Ground>(
    alloc: Global,
    over: &G,
    found: &Found<'a>,
    barriers: &Barriers,
) -> Result<Graph<'a>, AllocError>
    requires over { IsFoundOver (G.stars_and_areas over.now) found.now }
    requires traced { IsTraced (G.stars_and_areas over.now) barriers.now Any found.now }
    ensures { IfOk result (λ g. IsGraphOver (G.stars_and_areas over.now) barriers.now found.now g
        (length (nodes found.now))) }
{
    let count = found.len();
    let links = count.saturating_add(found.chords().len());
    let mut graph = Graph::with_room(alloc, links, count)?;
    for place in 0..count {
        let is_open = is_open_at(over, found, barriers, place);
        graph.add_place(found, place, is_open)?;
    }
    Ok(graph)
}

/// The graph of all links between the open nodes of those that a walk found.
pub(crate) fn graph_of<'a, G: Ground>(
    alloc: Global,
    over: &G,
    found: &Found<'a>,
    barriers: &Barriers,
) -> Result<Graph<'a>, AllocError>
    requires over { IsFoundOver (G.stars_and_areas over.now) found.now }
    requires traced { IsTraced (G.stars_and_areas over.now) barriers.now Any found.now }
    requires linked { AreWellLinked (G.stars_and_areas over.now) barriers.now (nodes found.now) }
    ensures { IfOk result (λ g. IsNetwork
        (IsJoined (G.stars_and_areas over.now) barriers.now (nodes found.now))
        g.links.items g.names g.parents.items) }
{
    let mut graph = forest(alloc, over, found, barriers)?;
    for chord in found.chords() {
        graph.add_chord(chord)?;
    }
    Ok(graph)
}
