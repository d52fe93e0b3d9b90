//! The nodes that a walk has found, each once, in the order in which they were found.

ghost use Rattle.std.specs.Prelude.{◌≡◌, ◌<◌, ◌≤◌, ◌+◌, ◌++◌, ◌∷◌, ◌⊎◌, [], false, length, map, slice_get, Some, None, All, IsTrue, IsSome, IfSome, IfNone, IfOk, OnOk};
ghost use Rattle.std.specs.Option.{option_copied};
ghost use Rattle.un_defs.specs.Ground.{Ground, entry};
ghost use Rattle.std.specs.List.Sorted.{IsPermutation, IsSorted};
ghost use Rattle.un_defs.specs.Orders.{same_node, node_cmp, rising};
ghost use Rattle.un_walk.specs.Growth.{has_node, with_node};
ghost use Rattle.un_walk.specs.Seen.{spot_of, nodes_of, HaveEntries};
ghost use Rattle.un_walk.specs.Site.{IsSite};
ghost use Rattle.un_walk.specs.Traced.{chords, IsOrigin, IsStart, chord_if, IsFoundFrom, AddsNode, AddsChord, AddsNothing, Adds};
ghost use Rattle.un_walk.specs.Found.{seens, nodes, IsPlaceIn, IsNumberOf, IsWithoutNumber, IsItemOver, IsFoundOver};

use crate::item::{Item, PackedItem, narrow};
use crate::points::Points;
use crate::ranked::nearly_sorted;
use crate::room::make_room;
use crate::seen::{Seen, sort_by_node};
use crate::site::{Site, looked_up};
use crate::strays::Strays;
use crate::traversal::is_same_point;
use crate::visits::Visits;
use std::alloc::{AllocError, Global};
use un_defs::{Ground, Node, PackedTie};
use un_geom::Point;
use un_steps::Steps;

/// How a node was found: from the node at a place, by a link.
#[derive(Clone, Copy)]
pub struct Origin<'a> {
    pub place: usize,
    pub tie: &'a PackedTie,
}

/// A link that led a walk from the node at a place to one that it had found before, at the same place or a later one.
#[derive(Clone, Copy)]
pub struct Chord<'a> {
    pub from: usize,
    pub to: usize,
    pub tie: &'a PackedTie,
}

/// A list of distinct nodes that knows how each was found, and which links led to nodes found before.
#[derive(Drop)]
pub struct Found<'a> {
    pub(crate) points: Points,
    /// By the numbers of the points.
    pub(crate) visited: Visits<'a>,
    /// The nodes without an entry, which have no mark.
    pub(crate) strays: Strays,
    pub(crate) items: Vec<PackedItem<'a>>,
    pub(crate) chords: Vec<Chord<'a>>,
}

// Adds a node at the end.
#[inline(always)]
fn push<'a>(items: &mut Vec<PackedItem<'a>>, item: Item<'a>) -> Result<(), AllocError>
    ensures { OnOk result (items.new.items ≡ items.old.items ++ item.entry ∷ []) }
{
    make_room(items)?;
    items.push(PackedItem::new(item)?)?;
    Ok(())
}

fn is_same_node(a: Node, b: Node) -> bool
    ensures { result ≡ same_node a b }
{
    a == b
}

fn nodes_in(alloc: Global, items: &[PackedItem]) -> Result<Vec<Node>, AllocError>
    ensures { IfOk result (λ list. list.items ≡ map (λ i. i.seen.node) items.now) }
{
    items.iter().map(|item| item.node()).collect(alloc)
}

impl<'a> Found<'a> {
    pub(crate) fn new(alloc: Global) -> Self
        ensures empty { nodes result ≡ [] }
        ensures no_chords { chords result ≡ [] }
        ensures over { (G : Ground) → IsFoundOver G result }
    {
        Found {
            points: Points::new(alloc),
            visited: Visits::new(alloc),
            strays: Strays::new(alloc),
            items: Vec::new(alloc),
            chords: Vec::new(alloc),
        }
    }

    /// How many nodes there are.
    pub fn len(&self) -> usize
        ensures { result ≡ length (nodes self.now) }
    {
        self.items.len()
    }

    /// The node at a place with its entry. The ground is there for the contract alone.
    pub fn seen_at<G: Ground>(&self, _over: &G, place: usize) -> Seen<'a>
        requires over { IsFoundOver (G.stars_and_areas _over.now) self.now }
        requires inside { place < length (nodes self.now) }
        ensures node { slice_get (nodes self.now) place ≡ Some result.node }
        ensures entry { spot_of result ≡ entry (G.stars_and_areas _over.now) result.node }
    {
        self.items[place].seen()
    }

    /// The node at a place with its entry, and what the ground has at its point. The ground is there for the contract alone.
    pub(crate) fn at<G: Ground>(&self, _over: &G, place: usize) -> (Seen<'a>, Site<'a>)
        requires over { IsFoundOver (G.stars_and_areas _over.now) self.now }
        requires inside { place < length (nodes self.now) }
        ensures node { slice_get (nodes self.now) place ≡ Some result.0.node }
        ensures entry { spot_of result.0 ≡ entry (G.stars_and_areas _over.now) result.0.node }
        ensures site { IsSite (G.stars_and_areas _over.now) result.1 }
        ensures at { result.1.at ≡ result.0.node.at }
    {
        let item = &self.items[place];
        (item.seen(), self.visited.site(item.number()))
    }

    /// How the node at a place was found, unless it is a start.
    pub fn origin(&self, place: usize) -> Option<Origin<'a>>
        requires { place < length (nodes self.now) }
        ensures some { IfSome result (λ o. IsOrigin self.now o.place place o.tie.now) }
        ensures none { IfNone result (IsStart self.now place) }
    {
        let item = &self.items[place];
        let tie = item.via()?;
        Some(Origin {
            place: item.from(),
            tie,
        })
    }

    /// The links that led to nodes found before, at the same place or a later one, in the order in which they were met.
    pub fn chords(&self) -> &[Chord<'a>]
        ensures { result.now ≡ chords self.now }
    {
        self.chords.as_slice()
    }

    // The nodes with their entries, sorted.
    fn in_order(&self, alloc: Global) -> Result<Vec<Seen<'a>>, AllocError>
        ensures permutation { IfOk result (λ seen. IsPermutation (seens self.now) seen.items) }
        ensures sorted { IfOk result (λ seen. IsSorted node_cmp (nodes_of seen.items)) }
    {
        let mut seen = nearly_sorted(alloc, self.items.as_slice())?;
        sort_by_node(&mut seen);
        Ok(seen)
    }

    /// The nodes, rising, each with its entry. The ground is there for the contract alone.
    pub fn sorted<G: Ground>(&self, alloc: Global, _over: &G) -> Result<Vec<Seen<'a>>, AllocError>
        requires { IsFoundOver (G.stars_and_areas _over.now) self.now }
        ensures nodes { IfOk result (λ seen. rising node_cmp (nodes self.now) ≡ nodes_of seen.items) }
        ensures entries { IfOk result (λ seen. HaveEntries (G.stars_and_areas _over.now) seen.items) }
    {
        let seen = self.in_order(alloc)?;
        Ok(seen)
    }

    /// The nodes alone, in the order in which they were found.
    pub(crate) fn nodes(&self, alloc: Global) -> Result<Vec<Node>, AllocError>
        ensures { IfOk result (λ list. list.items ≡ nodes self.now) }
    {
        nodes_in(alloc, self.items.as_slice())
    }

    // Whether the node at the place was found from this one, by a link. Nothing is looked up for that.
    #[inline(always)]
    pub(crate) fn was_found_from(&self, place: usize, node: Node) -> bool
        requires { All (λ i. i.from < length self.now.items.items) self.now.items.items }
        ensures found { IsTrue result → IsTrue (has_node (nodes self.now) node) }
        ensures from { IsTrue result → IsFoundFrom self.now place node }
    {
        match self.items.get(place) {
            Some(item) if item.via().is_some() => {
                is_same_node(self.items[item.from()].node(), node)
            }
            _ => false,
        }
    }

    // Adds a chord, if a link led from the one place to the other, and the other is the same or a later one.
    fn add_chord(
        &mut self,
        from: usize,
        to: usize,
        via: Option<&'a PackedTie>,
    ) -> Result<(), AllocError>
        ensures chords { OnOk result (chords self.new ≡ chords self.old ++ chord_if from to via.entry) }
        ensures points { self.new.points ≡ self.old.points }
        ensures visited { self.new.visited ≡ self.old.visited }
        ensures strays { self.new.strays ≡ self.old.strays }
        ensures items { self.new.items ≡ self.old.items }
    {
        if let Some(tie) = via {
            if from <= to {
                self.chords.push(Chord { from, to, tie })?;
            }
        }
        Ok(())
    }

    // The number of a point. What the ground has there is looked up where the point had no number, and there is room for as many chords more as
    // links lead away from it.
    #[inline(never)]
    fn number<G: Ground, L>(
        &mut self,
        alloc: Global,
        over: &'a G,
        at: Point,
        steps: &mut Steps<L>,
    ) -> Result<usize, AllocError>
        requires { IsFoundOver (G.stars_and_areas over.now) self.old }
        ensures over { OnOk result (IsFoundOver (G.stars_and_areas over.now) self.new) }
        ensures items { OnOk result (self.new.items ≡ self.old.items) }
        ensures chords { OnOk result (chords self.new ≡ chords self.old) }
        ensures number { IfOk result (IsNumberOf self.new.points at) }
        ensures once { OnOk result ((steps.new ≡ steps.old)
            ⊎ ((steps.new ≤ steps.old + 1) × IsWithoutNumber self.old.points at)) }
        ensures never_falls { steps.old ≤ steps.new }
    {
        let count = self.visited.len();
        let number = self.points.number(at)?;
        if number < count {
            return Ok(number);
        }
        let site = looked_up(over, at, steps);
        self.chords.reserve(site.links_away())?;
        self.visited.push(site)?;
        Ok(number)
    }

    // The number of a point to which a link leads from the node at the place `from`. Most links stay at a point.
    #[inline(always)]
    fn number_from<G: Ground, L>(
        &mut self,
        alloc: Global,
        over: &'a G,
        at: Point,
        from: usize,
        steps: &mut Steps<L>,
    ) -> Result<usize, AllocError>
        requires { IsFoundOver (G.stars_and_areas over.now) self.old }
        ensures over { OnOk result (IsFoundOver (G.stars_and_areas over.now) self.new) }
        ensures items { OnOk result (self.new.items ≡ self.old.items) }
        ensures chords { OnOk result (chords self.new ≡ chords self.old) }
        ensures number { IfOk result (IsNumberOf self.new.points at) }
        ensures once { OnOk result ((steps.new ≡ steps.old)
            ⊎ ((steps.new ≤ steps.old + 1) × IsWithoutNumber self.old.points at)) }
        ensures never_falls { steps.old ≤ steps.new }
    {
        match self.items.get(from) {
            Some(item) if is_same_point(item.at(), at) => Ok(item.number()),
            _ => self.number(alloc, over, at, steps),
        }
    }

    // Adds a node with the entry at the place, unless it is marked. The ground is there for the contract alone.
    #[inline(always)]
    fn add_marked<G: Ground>(
        &mut self,
        _over: &G,
        item: Item<'a>,
        place: usize,
    ) -> Result<(), AllocError>
        requires over { IsFoundOver (G.stars_and_areas _over.now) self.old }
        requires item { IsItemOver (G.stars_and_areas _over.now) self.old item }
        requires place { IsPlaceIn ((G.stars_and_areas _over.now).stars item.seen.node.at) item.seen.node.port place }
        ensures over { OnOk result (IsFoundOver (G.stars_and_areas _over.now) self.new) }
        ensures nodes { OnOk result (nodes self.new ≡ with_node (nodes self.old) item.entry.seen.node) }
        ensures adds { OnOk result
            (AddsNode self.old self.new item.entry.seen.node item.entry.from item.entry.via
            ⊎ AddsChord self.old self.new item.entry.seen.node item.entry.from item.entry.via) }
    {
        let mark = narrow(self.items.len() + 1)?;
        let old = self.visited.put_mark(item.number, place, mark);
        match old.checked_sub(1) {
            Some(there) => self.add_chord(item.from, there, item.via),
            None => push(&mut self.items, item),
        }
    }

    // Adds a node without an entry, unless it is among the strays. The ground is there for the contract alone.
    #[inline(never)]
    fn add_stray<G: Ground>(&mut self, _over: &G, item: Item<'a>) -> Result<(), AllocError>
        requires over { IsFoundOver (G.stars_and_areas _over.now) self.old }
        requires item { IsItemOver (G.stars_and_areas _over.now) self.old item }
        requires none { entry (G.stars_and_areas _over.now) item.seen.node ≡ None }
        ensures over { OnOk result (IsFoundOver (G.stars_and_areas _over.now) self.new) }
        ensures nodes { OnOk result (nodes self.new ≡ with_node (nodes self.old) item.entry.seen.node) }
        ensures adds { OnOk result
            (AddsNode self.old self.new item.entry.seen.node item.entry.from item.entry.via
            ⊎ AddsNothing (G.stars_and_areas _over.now) self.old self.new item.entry.seen.node item.entry.from) }
    {
        if self.strays.add(item.seen.node)? {
            push(&mut self.items, item)?;
        }
        Ok(())
    }

    // The place of the node, where it was found and has an entry. Its point has the number. Neither the star nor the list of nodes is read for that.
    // The ground is there for the contract alone.
    fn marked_place<G: Ground>(&self, _over: &G, number: usize, node: Node) -> Option<usize>
        requires over { IsFoundOver (G.stars_and_areas _over.now) self.now }
        requires number { IsNumberOf self.now.points node.at number }
        ensures { IfSome result (λ place. slice_get (nodes self.now) place ≡ Some node) }
    {
        let place = self.visited.place(number, node.port)?;
        self.visited.mark(number, place).checked_sub(1)
    }

    // Adds the node at the end, unless it is there. Its point has the number.
    #[inline(always)]
    fn add_at<G: Ground>(
        &mut self,
        over: &G,
        node: Node,
        number: usize,
        from: usize,
        via: Option<&'a PackedTie>,
    ) -> Result<(), AllocError>
        requires over { IsFoundOver (G.stars_and_areas over.now) self.old }
        requires number { IsNumberOf self.old.points node.at number }
        requires from { from ≤ length (nodes self.old) }
        ensures over { OnOk result (IsFoundOver (G.stars_and_areas over.now) self.new) }
        ensures nodes { OnOk result (nodes self.new ≡ with_node (nodes self.old) node) }
        ensures adds { OnOk result (Adds (G.stars_and_areas over.now) self.old self.new node from via.entry) }
    {
        match self.visited.place(number, node.port) {
            Some(place) => {
                let spot = self.visited.site(number).spot_at(place);
                let seen = Seen { node, spot };
                let item = Item {
                    seen,
                    number,
                    from,
                    via,
                };
                self.add_marked(over, item, place)
            }
            None => {
                let seen = Seen { node, spot: None };
                let item = Item {
                    seen,
                    number,
                    from,
                    via,
                };
                self.add_stray(over, item)
            }
        }
    }

    /// Adds the node at the end, unless it is there. A link leads to it from the node at the place `from`, at which the walk is.
    #[inline(always)]
    pub(crate) fn add<G: Ground, L>(
        &mut self,
        alloc: Global,
        over: &'a G,
        node: Node,
        from: usize,
        via: Option<&'a PackedTie>,
        steps: &mut Steps<L>,
    ) -> Result<(), AllocError>
        requires over { IsFoundOver (G.stars_and_areas over.now) self.old }
        requires from { from ≤ length (nodes self.old) }
        ensures over { OnOk result (IsFoundOver (G.stars_and_areas over.now) self.new) }
        ensures nodes { OnOk result (nodes self.new ≡ with_node (nodes self.old) node) }
        ensures adds { OnOk result (Adds (G.stars_and_areas over.now) self.old self.new node from via.entry) }
        // A star is looked up where the node is the first at its point.
        ensures once { OnOk result
            (steps.new + length (nodes self.old) ≤ steps.old + length (nodes self.new)) }
        ensures never_falls { steps.old ≤ steps.new }
    {
        if self.was_found_from(from, node) {
            return Ok(());
        }
        let number = self.number_from(alloc, over, node.at, from, steps)?;
        self.add_at(over, node, number, from, via)
    }

    /// Adds the node at the end, unless it is there. A link that was put off leads to it from the node at the place `from`, or it is a start, and
    /// `from` is the number of nodes found before.
    #[inline(never)]
    pub(crate) fn add_far<G: Ground, L>(
        &mut self,
        alloc: Global,
        over: &'a G,
        node: Node,
        from: usize,
        via: Option<&'a PackedTie>,
        steps: &mut Steps<L>,
    ) -> Result<(), AllocError>
        requires over { IsFoundOver (G.stars_and_areas over.now) self.old }
        requires from { from ≤ length (nodes self.old) }
        ensures over { OnOk result (IsFoundOver (G.stars_and_areas over.now) self.new) }
        ensures nodes { OnOk result (nodes self.new ≡ with_node (nodes self.old) node) }
        ensures adds { OnOk result (Adds (G.stars_and_areas over.now) self.old self.new node from via.entry) }
        // A star is looked up where the node is the first at its point.
        ensures once { OnOk result
            (steps.new + length (nodes self.old) ≤ steps.old + length (nodes self.new)) }
        ensures never_falls { steps.old ≤ steps.new }
    {
        let number = self.number(alloc, over, node.at, steps)?;
        match self.marked_place(over, number, node) {
            Some(place) => self.add_chord(from, place, via),
            None => self.add_at(over, node, number, from, via),
        }
    }
}
