//! The rules in force, to which a rule is added.
//!
//! A rule may change what stands where its kinds meet: for lines at terminals, each vertex of a line of its kind at which a device or
//! junction of its kind stands; for associations, all points of both ends of each that is between rows of its kinds. There is no index of
//! features by kind, so one pass goes over the rows, or over the associations of the sort; whether a device or junction of a kind stands at
//! a vertex is told by the ports at that point.
ghost use Rattle.std.specs.Prelude.{◌≡◌, ◌++◌, ◌&&◌, None, All, IsTrue, IfOk, OnOk, filter, flat_map};
ghost use Rattle.std.specs.List.{list_any};
ghost use Rattle.un_geom.specs.Places.{IsPlace};
ghost use Rattle.un_schema.specs.Fits.{has_classes};
ghost use Rattle.un_defs.specs.declared.edit.Edit.TheVariants as edit;
ghost use Rattle.un_defs.specs.Dirtied.{dirtied, points_of, rule_points, joint_points, has_joint_of, is_of_kind, is_between, points_of_ends};
ghost use Rattle.un_defs.specs.Refusing.{Refuses};
ghost use Rattle.un_assoc.specs.Links.{is_sort};
ghost use Rattle.un_facts.specs.Known.{ruled, in_force, with_rules};
ghost use Rattle.un_facts.specs.Frames.{schema_of, with_rule};
ghost use Rattle.un_facts.specs.Ruling.{rule_refusal, refusal_by, is_joint_of, is_of_kinds, points_between};

use crate::envelope::envelope;
use crate::facts::{Facts, Parts};
use crate::frame::Frame;
use crate::rectangles::add;
use std::alloc::{AllocError, Global};
use std::sync::Arc;
use un_defs::ports::is_joint;
use un_defs::{Assoc, AssocKind, Limit, Port, Refusal};
use un_geom::{Point, Rect};
use un_schema::{Rule, RuleFault};

/// The features once a rule is in force, and the rectangle that covers the points which it may change, if there are any.
#[derive(Drop)]
pub struct Ruled {
    pub facts: Facts,
    pub dirtied: Vec<Rect>,
}

// The refusal of a fault.
fn refusal_of(fault: RuleFault) -> Refusal
    ensures { result ≡ refusal_by fault }
{
    match fault {
        RuleFault::BadRuleTerminal { place } => Refusal::BadRuleTerminal { place },
        RuleFault::RuleExists { place } => Refusal::RuleExists { place },
        RuleFault::Full => Refusal::Full { what: Limit::Rules },
        RuleFault::Memory => Refusal::Memory,
    }
}

// The frame with one rule more, or why not.
fn with_rule(frame: &Frame, alloc: Global, rule: &Rule) -> Result<Frame, Refusal>
    requires { IsTrue (has_classes (schema_of frame.now) rule.now) }
    ensures frame { IfOk result (λ f. f ≡ with_rule frame.now rule.now) }
    ensures good { OnOk result (rule_refusal (schema_of frame.now) rule.now ≡ None) }
    ensures bad { Refuses result (rule_refusal (schema_of frame.now) rule.now) }
{
    match frame.with_rule(alloc, rule) {
        Ok(frame) => Ok(frame),
        Err(fault) => Err(refusal_of(fault)),
    }
}

impl Facts {
    // Whether the row with this id is a device or junction of a kind.
    fn is_joint_of(&self, kind: u16, id: u64) -> bool
        ensures { result ≡ is_joint_of self.now.features kind id }
    {
        match self.row(id) {
            Some(row) => is_joint(row.class) && row.kind == kind,
            None => false,
        }
    }

    // Whether one of some ports is a terminal of a device or junction of a kind.
    fn is_joint_among(&self, kind: u16, ports: &[Port]) -> bool
        ensures { result ≡ list_any (λ q. is_joint_of self.now.features kind q.feature) ports.now }
    {
        ports
            .iter()
            .any(|port| self.is_joint_of(kind, port.feature))
    }

    // Whether a device or junction of a kind stands at a point.
    fn has_joint_of(&self, kind: u16, p: Point) -> bool
        ensures { result ≡ has_joint_of self.now.features kind p }
    {
        // For the proof alone.
        let _parts = self.parts();
        self.is_joint_among(kind, self.ports_at(p))
    }

    // Of some points, those at which a device or junction of a kind stands.
    fn with_joints(
        &self,
        alloc: Global,
        points: &[Point],
        kind: u16,
    ) -> Result<Vec<Point>, AllocError>
        ensures { IfOk result (λ found. found.items ≡ filter (has_joint_of self.now.features kind) points.now) }
    {
        let mut found = Vec::new(alloc);
        for p in points {
            if self.has_joint_of(kind, *p) {
                found.push(*p)?;
            }
        }
        Ok(found)
    }

    // The vertices of lines of a kind at which a device or junction of a kind stands.
    fn joint_points(
        &self,
        alloc: Global,
        junction: u16,
        line: u16,
    ) -> Result<Vec<Point>, AllocError>
        ensures points { IfOk result (λ points. points.items ≡ joint_points self.now.features junction line) }
        ensures placed { IfOk result (λ points. All IsPlace points.items) }
    {
        let vertices = self.parts().rows.points_of_lines(alloc, line)?;
        let points = self.with_joints(alloc, &vertices, junction)?;
        Ok(points)
    }

    // Whether the row with this id is of a kind.
    fn is_of_kind(&self, kind: u16, id: u64) -> bool
        ensures { result ≡ is_of_kind self.now.features kind id }
    {
        match self.row(id) {
            Some(row) => row.kind == kind,
            None => false,
        }
    }

    // Whether an association is from a row of a kind to one of another.
    fn is_between(&self, first: u16, second: u16, assoc: &Assoc) -> bool
        ensures { result ≡ is_between self.now.features first second assoc.now }
    {
        self.is_of_kind(first, assoc.from.feature) && self.is_of_kind(second, assoc.to.feature)
    }

    fn is_of_kinds(&self, sort: AssocKind, first: u16, second: u16, assoc: &Assoc) -> bool
        ensures { result ≡ is_of_kinds self.now.features sort first second assoc.now }
    {
        let there = self.is_between(first, second, assoc);
        match sort {
            AssocKind::Connectivity => there || self.is_between(second, first, assoc),
            AssocKind::Containment | AssocKind::Attachment => there,
        }
    }

    // Adds the points of a row, if there is one.
    fn add_points(&self, points: &mut Vec<Point>, id: u64) -> Result<(), AllocError>
        ensures points { OnOk result (points.new.items ≡ points.old.items ++ points_of self.now.features id) }
        ensures placed { OnOk result (All IsPlace points.old.items → All IsPlace points.new.items) }
    {
        if let Some(row) = self.row(id) {
            points.extend_from_slice(row.shape.points())?;
        }
        Ok(())
    }

    // Adds the points of both rows of an association, if it is between rows of two kinds.
    fn add_ends(
        &self,
        points: &mut Vec<Point>,
        sort: AssocKind,
        first: u16,
        second: u16,
        assoc: &Assoc,
    ) -> Result<(), AllocError>
        ensures points { OnOk result (points.new.items
            ≡ points.old.items ++ points_between self.now.features sort first second assoc.now) }
        ensures placed { OnOk result (All IsPlace points.old.items → All IsPlace points.new.items) }
    {
        if self.is_of_kinds(sort, first, second, assoc) {
            self.add_points(points, assoc.from.feature)?;
            self.add_points(points, assoc.to.feature)?;
        }
        Ok(())
    }

    // All points of both rows of each of some associations that is between rows of two kinds.
    fn points_of_ends(
        &self,
        alloc: Global,
        found: &[Assoc],
        sort: AssocKind,
        first: u16,
        second: u16,
    ) -> Result<Vec<Point>, AllocError>
        ensures points { IfOk result (λ points. points.items
            ≡ flat_map (points_between self.now.features sort first second) found.now) }
        ensures placed { IfOk result (λ points. All IsPlace points.items) }
    {
        let mut points = Vec::new(alloc);
        for assoc in found {
            self.add_ends(&mut points, sort, first, second, assoc)?;
        }
        Ok(points)
    }

    // The same, of all associations of a sort.
    fn points_between(
        &self,
        alloc: Global,
        sort: AssocKind,
        first: u16,
        second: u16,
    ) -> Result<Vec<Point>, AllocError>
        ensures points { IfOk result (λ points. points.items
            ≡ flat_map (points_of_ends self.now.features) (filter
            (λ a. is_sort sort a.sort && is_of_kinds self.now.features sort first second a) self.now.features.associations)) }
        ensures placed { IfOk result (λ points. All IsPlace points.items) }
    {
        let found = self.parts().assocs.of_sort(alloc, sort)?;
        let points = self.points_of_ends(alloc, &found, sort, first, second)?;
        Ok(points)
    }

    // The points that a new rule may change.
    fn rule_points(&self, alloc: Global, rule: &Rule) -> Result<Vec<Point>, AllocError>
        ensures points { IfOk result (λ points. points.items ≡ rule_points self.now.features rule.now) }
        ensures placed { IfOk result (λ points. All IsPlace points.items) }
    {
        match *rule {
            Rule::JunctionEdge { junction, line, .. }
            | Rule::EdgeJunctionEdge { line, junction, .. } => {
                self.joint_points(alloc, junction, line)
            }
            Rule::JunctionJunction { first, second, .. } => {
                self.points_between(alloc, AssocKind::Connectivity, first, second)
            }
            Rule::Containment { container, content } => {
                self.points_between(alloc, AssocKind::Containment, container, content)
            }
            Rule::Attachment { structure, content } => {
                self.points_between(alloc, AssocKind::Attachment, structure, content)
            }
        }
    }

    // The rectangle that covers the points which a new rule may change, if there are any.
    fn rule_rectangles(&self, alloc: Global, rule: &Rule) -> Result<Vec<Rect>, AllocError>
        ensures { IfOk result (λ rects. rects.items ≡ dirtied self.now.features (edit.Rule rule.now)) }
    {
        let points = self.rule_points(alloc, rule)?;
        let mut rects = Vec::new(alloc);
        add(&mut rects, envelope(&points))?;
        Ok(rects)
    }

    // The same features under the rules of another frame.
    fn with_frame(&self, alloc: Global, frame: Frame) -> Result<Facts, AllocError>
        requires { frame.setup ≡ self.now.setup }
        ensures { IfOk result (λ facts. facts ≡ with_rules self.now frame.rules) }
    {
        let parts = self.parts();
        let ruled = Parts {
            frame: Arc::new(alloc, frame)?,
            rows: parts.rows.share()?,
            assocs: parts.assocs.share()?,
            grid: parts.grid.share()?,
        };
        Facts::of(alloc, ruled)
    }

    /// The features once a rule is in force, with the rectangle that covers the points which it may change, if there are any.
    ///
    /// It is refused, in this order: by `BadRuleTerminal` for the first terminal that its kind has not, with its place in the rule's list; by
    /// `RuleExists` with the least place of an equal rule; by `Full` where 4,096 rules are in force. It answers `Memory` only for want of
    /// memory, and no refusal changes anything.
    pub fn add_rule(&self, alloc: Global, rule: &Rule) -> Result<Ruled, Refusal>
        requires { IsTrue (has_classes self.now.setup.schema rule.now) }
        ensures features { IfOk result (λ m. m.facts ≡ ruled self.now rule.now) }
        ensures dirtied { IfOk result (λ m. m.dirtied.items
            ≡ dirtied self.now.features (edit.Rule rule.now)) }
        ensures good { OnOk result (rule_refusal (in_force self.now) rule.now ≡ None) }
        ensures bad { Refuses result (rule_refusal (in_force self.now) rule.now) }
    {
        let frame = with_rule(&self.parts().frame, alloc, rule)?;
        let dirtied = self.rule_rectangles(alloc, rule)?;
        let facts = self.with_frame(alloc, frame)?;
        Ok(Ruled { facts, dirtied })
    }
}
