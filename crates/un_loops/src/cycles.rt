//! Which links lie on a cycle, once the heads are known.

ghost use Rattle.std.specs.Prelude.{◌≡◌, ◌↔◌, ℕ, ◌<◌, length, vec_len, slice_get, Some, IsTrue, true, IfOk, MatchOption};
ghost use Rattle.un_loops.specs.declared.graph.Parent.{Parent};
ghost use Rattle.un_loops.specs.Graph.{IsOnCycle};
ghost use Rattle.un_loops.specs.Forest.{IsForest, IsParentLink, parent_at};
ghost use Rattle.un_loops.specs.Heads.{AreHeads, AreOwnHeads, AreSpanned};

use crate::graph::Parent;
use crate::heads::climb;
use crate::link::Link;
use std::alloc::{AllocError, Global};

/// The link is the parent link of the place.
fn is_parent_link(parents: &[Option<Parent>], place: usize, index: usize) -> bool
    requires { place < length parents.now }
    ensures { IsTrue result
        ↔ ((u : Parent) × (parent_at parents.now place ≡ Some u) × (u.link ≡ index)) }
{
    match parents[place] {
        Some(parent) => parent.link == index,
        None => false,
    }
}

/// The end of the link that has it as its parent link, if the forest has the link.
fn child_end(links: &[Link], parents: &[Option<Parent>], index: usize) -> Option<usize>
    requires forest { IsForest links.now parents.now }
    requires inside { index < length links.now }
    ensures { MatchOption result (IsParentLink parents.now index → ⊥)
        (λ v. (u : Parent) × (v < length parents.now) × (parent_at parents.now v ≡ Some u)
        × (u.link ≡ index)) }
{
    let Link { a, b } = links[index];
    if is_parent_link(parents, a, index) {
        return Some(a);
    }
    if is_parent_link(parents, b, index) {
        return Some(b);
    }
    None
}

fn own_heads(alloc: Global, count: usize) -> Result<Vec<usize>, AllocError>
    ensures { IfOk result (λ heads. AreOwnHeads heads.items count) }
{
    let mut heads = Vec::with_capacity(alloc, count)?;
    for place in 0..count {
        heads.push(place)?;
    }
    Ok(heads)
}

/// Has each link outside the forest mark the parent links on its cycle.
fn climb_all(links: &[Link], parents: &[Option<Parent>], heads: &mut [usize])
    requires forest { IsForest links.now parents.now }
    requires own { AreOwnHeads heads.old (length parents.now) }
    ensures heads { AreHeads links.now parents.now heads.new }
    ensures spanned { AreSpanned links.now parents.now heads.new (length links.now) }
{
    for index in 0..links.len() {
        if child_end(links, parents, index).is_none() {
            climb(links, parents, heads, index);
        }
    }
}

fn is_on_cycle(links: &[Link], parents: &[Option<Parent>], heads: &[usize], index: usize) -> bool
    requires forest { IsForest links.now parents.now }
    requires heads { AreHeads links.now parents.now heads.now }
    requires spanned { AreSpanned links.now parents.now heads.now (length links.now) }
    requires inside { index < length links.now }
    ensures { IsTrue result ↔ IsOnCycle links.now index }
{
    match child_end(links, parents, index) {
        Some(place) => heads[place] != place,
        None => true,
    }
}

/// Whether each link of a graph that the forest spans lies on a cycle: a walk without the link joins its ends.
///
/// It answers an error only for want of memory.
pub(crate) fn on_cycles(
    alloc: Global,
    links: &[Link],
    parents: &[Option<Parent>],
) -> Result<Vec<bool>, AllocError>
    requires { IsForest links.now parents.now }
    ensures count { IfOk result (λ marks. vec_len marks ≡ length links.now) }
    ensures exact { IfOk result (λ marks. (i : ℕ) → i < length links.now
        → (slice_get marks.items i ≡ Some true) ↔ IsOnCycle links.now i) }
{
    let mut heads = own_heads(alloc, parents.len())?;
    climb_all(links, parents, &mut heads);
    let mut marks = Vec::with_capacity(alloc, links.len())?;
    for index in 0..links.len() {
        marks.push(is_on_cycle(links, parents, &heads, index))?;
    }
    Ok(marks)
}
