//! The names of the links of a graph.

ghost use Rattle.std.specs.Prelude.{◌≡◌, ◌<◌, ◌++◌, ◌∷◌, [], length, slice_get, Some, IfOk, OnOk};
ghost use Rattle.std.specs.List.{filter_map, zip};
ghost use Rattle.un_loops.specs.Marked.{segment_if, marked_segments};

use std::alloc::{AllocError, Global};
use std::marker::Model;
use un_ask::Segment;
use un_defs::{LinkName, PackedTie};

/// A list of names. Each is read where it stands, in the link of an entry.
///
/// Contracts see the names.
#[derive(Drop)]
pub(crate) struct Names<'a> {
    ties: Vec<&'a PackedTie>,
}

impl<'a> Model for Names<'a> {
    ghost use Rattle.std.specs.Prelude.{List, map};
    ghost use Rattle.un_defs.specs.declared.link.LinkName.{LinkName};

    ghost Value = { List LinkName };

    ghost view = { λ n. map (λ t. t.now.name) n.ties.items };
}

// The segment of a link, if it has one and is marked. A link without a mark is not read.
fn segment_if(tie: &PackedTie, is_marked: bool) -> Option<Segment>
    ensures { result ≡ segment_if tie.now.name is_marked }
{
    if !is_marked {
        return None;
    }
    match tie.name() {
        LinkName::Seg { line, index } => Some(Segment { line, index }),
        _ => None,
    }
}

// The segments among the names of links whose marks are on.
fn marked_among(
    alloc: Global,
    ties: &[&PackedTie],
    marks: &[bool],
) -> Result<Vec<Segment>, AllocError>
    ensures { IfOk result (λ found. found.items
        ≡ filter_map (λ p. segment_if p.0.now.name p.1) (zip ties.now marks.now)) }
{
    ties.iter()
        .zip(marks)
        .filter_map(|(tie, is_marked)| segment_if(tie, *is_marked))
        .collect(alloc)
}

impl<'a> Names<'a> {
    /// No names, with room for so many.
    pub(crate) fn with_room(alloc: Global, count: usize) -> Result<Self, AllocError>
        ensures { IfOk result (λ names. names ≡ []) }
    {
        Ok(Names {
            ties: Vec::with_capacity(alloc, count)?,
        })
    }

    /// Adds the name of a link.
    pub(crate) fn add(&mut self, tie: &'a PackedTie) -> Result<(), AllocError>
        ensures { OnOk result (self.new ≡ self.old ++ tie.now.name ∷ []) }
    {
        self.ties.push(tie)?;
        Ok(())
    }

    /// The name at a place of the list.
    pub(crate) fn at(&self, index: usize) -> LinkName
        requires { index < length self.now }
        ensures { slice_get self.now index ≡ Some result }
    {
        self.ties[index].name()
    }

    /// The segments among the names whose marks are on.
    pub(crate) fn marked_segments(
        &self,
        alloc: Global,
        marks: &[bool],
    ) -> Result<Vec<Segment>, AllocError>
        ensures { IfOk result (λ found. found.items ≡ marked_segments self.now marks.now) }
    {
        marked_among(alloc, &self.ties, marks)
    }
}
