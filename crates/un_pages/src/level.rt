// What a page, a block and a shelf have in common: pairs in the order of their keys.
ghost use Rattle.std.specs.Prelude.{◌≡◌, ◌≤◌, ◌++◌, slice_get, Some, IfOk, OnErr};
ghost use Rattle.std.specs.Arc.{arc_value};
ghost use Rattle.std.specs.Map.{lookup, remove_entry};
ghost use Rattle.std.specs.BTreeMap.{is_at, insert_entry};
ghost use Rattle.un_pages.specs.Pairs.{spread, left, held, pair_held, value_held, past, IsOrdered};
ghost use Rattle.un_pages.specs.Changes.{IsPut, IsTaken};

use std::alloc::{AllocError, Global};
use std::sync::Arc;

/// The most entries of a page, a block or a shelf.
pub(crate) const ROOM: usize = 32;

/// A node with fewer entries is joined with a neighbour, or filled from it.
pub(crate) const LEAST_FILL: usize = ROOM / 3;

// What became of a change in place.
#[derive(Clone, Copy)]
pub(crate) enum Put {
    Added,
    Replaced,
    // A node on the way is shared, or has no room.
    Refused,
}

// What became of a removal in place.
#[derive(Clone, Copy)]
pub(crate) enum Taken {
    Removed,
    Absent,
    // A node on the way is shared, or would become thin.
    Kept,
}

pub(crate) trait Level<K: Ord + Copy, V>: Drop {
    ghost use Rattle.std.specs.Prelude.{List};

    ghost pairs: { Self → List (K × V) };

    // How many entries of its own the node has.
    fn size(&self) -> usize;

    fn first(&self) -> (K, &Arc<V>)
        ensures { slice_get (pairs self.now) 0 ≡ Some (pair_held result) };

    fn get(&self, key: &K) -> Option<&Arc<V>>
        ensures { value_held result ≡ lookup (is_at (K.cmp key.now)) (pairs self.now) };

    // The first pair whose key is over `after`.
    fn next(&self, after: &K) -> Option<(K, &Arc<V>)>
        ensures { held result ≡ slice_get (past K.cmp (Some after.now) (pairs self.now)) 0 };

    // One node, or two where the entries of one are too many.
    fn with(&self, alloc: Global, key: K, value: Arc<V>) -> Result<(Self, Option<Self>), AllocError>
        ensures { IfOk result (λ r. spread pairs r
            ≡ insert_entry K.cmp (pairs self.now) key (arc_value value)) };

    // `with`, in the node itself.
    fn put(&mut self, alloc: Global, key: K, value: &Arc<V>) -> Result<Put, AllocError>
        ensures put { IfOk result (IsPut K.cmp pairs self.old self.new key (arc_value value.now)) }
        ensures err { OnErr result (self.new ≡ self.old) };

    // `without`, in the node itself.
    fn take(&mut self, alloc: Global, key: &K) -> Result<Taken, AllocError>
        ensures taken { IfOk result (IsTaken K.cmp pairs self.old self.new key.now) }
        ensures err { OnErr result (self.new ≡ self.old) };

    // None where no pair is left.
    fn without(&self, alloc: Global, key: &K) -> Result<Option<Self>, AllocError>
        ensures { IfOk result (λ r. left pairs r ≡ remove_entry (is_at (K.cmp key.now)) (pairs self.now)) };

    // The pairs of both in one node, or in two with as many entries each.
    fn joined(alloc: Global, low: &Self, high: &Self) -> Result<(Self, Option<Self>), AllocError>
        requires { IsOrdered K.cmp (pairs low.now ++ pairs high.now) }
        ensures { IfOk result (λ r. spread pairs r ≡ pairs low.now ++ pairs high.now) };
}
