//! Heads: how far towards the root the parent links from each place are known to lie on cycles.

ghost use Rattle.std.specs.Prelude.{◌≡◌, ◌≢◌, ℕ, ◌<◌, ◌≤◌, length, slice_index, slice_get, Some};
ghost use Rattle.un_loops.specs.declared.link.Link.{Link};
ghost use Rattle.un_loops.specs.declared.graph.Parent.{Parent};
ghost use Rattle.un_loops.specs.Graph.{IsJoinedBy, IsOnCycle};
ghost use Rattle.un_loops.specs.Forest.{IsForest, IsParentLink, parent_at};
ghost use Rattle.un_loops.specs.Heads.{AreHeadsBelow, AreShortened, AreHeads, IsMarked, nth_head};

use crate::graph::Parent;
use crate::link::Link;

/// The last place along heads from this one. It shortens the way for later calls.
pub(crate) fn find(heads: &mut [usize], from: usize) -> usize
    requires inside { from < length heads.old }
    requires below { AreHeadsBelow heads.old }
    ensures shortened { AreShortened heads.old heads.new }
    ensures along { (k : ℕ) × (result ≡ nth_head k heads.old from) }
    ensures last { slice_index heads.new result ≡ result }
    ensures above { result ≤ from }
{
    let mut place = from;
    while heads[place] != place {
        let above = heads[heads[place]];
        heads[place] = above;
        place = above;
    }
    place
}

/// Marks the parent link of the place, and finds the last place along heads from there.
fn raise(links: &[Link], parents: &[Option<Parent>], heads: &mut [usize], place: usize) -> usize
    requires forest { IsForest links.now parents.now }
    requires heads { AreHeads links.now parents.now heads.old }
    requires inside { place < length heads.old }
    requires cycle { (u : Parent) × (parent_at parents.now place ≡ Some u)
        × IsOnCycle links.now u.link }
    ensures heads { AreHeads links.now parents.now heads.new }
    ensures kept { (j : ℕ) → IsMarked parents.now heads.old j → IsMarked parents.now heads.new j }
    ensures joined { IsJoinedBy links.now (IsMarked parents.now heads.new) place result }
    ensures last { slice_index heads.new result ≡ result }
    ensures less { result < place }
    ensures stays { (v : ℕ) → v < length heads.old → v ≢ place → slice_index heads.old v ≡ v
        → slice_index heads.new v ≡ v }
{
    let above = parents[place].unwrap().place;
    heads[place] = above;
    find(heads, above)
}

/// Marks the parent links on the cycle that the link closes.
pub(crate) fn climb(links: &[Link], parents: &[Option<Parent>], heads: &mut [usize], index: usize)
    requires forest { IsForest links.now parents.now }
    requires heads { AreHeads links.now parents.now heads.old }
    requires inside { index < length links.now }
    requires chord { IsParentLink parents.now index → ⊥ }
    ensures heads { AreHeads links.now parents.now heads.new }
    ensures kept { (j : ℕ) → IsMarked parents.now heads.old j → IsMarked parents.now heads.new j }
    ensures closed { (l : Link) → slice_get links.now index ≡ Some l
        → IsJoinedBy links.now (IsMarked parents.now heads.new) l.a l.b }
{
    let Link { a, b } = links[index];
    let mut one = find(heads, a);
    let mut other = find(heads, b);
    while one != other {
        if one < other {
            other = raise(links, parents, heads, other);
        } else {
            one = raise(links, parents, heads, one);
        }
    }
}
