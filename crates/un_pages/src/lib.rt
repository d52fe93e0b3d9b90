//! An ordered map on shared pages, of which an old version never changes.
//!
//! A map is a tree of four kinds of nodes. A page holds 1 to 32 pairs in the order of their keys, a
//! block 1 to 32 pages, a shelf 1 to 32 blocks, and the root list any number of shelves. Each node
//! and each value stands in an `Arc`, and beside each node stands its first key.
//!
//! To find a key, each level takes the last part whose first key is not above it, by a binary search:
//! all keys of the parts before it are smaller, and all keys of those after it greater. So whatever is
//! done to the pairs of the whole map is done by that part alone.
//!
//! `with` and `without` copy the one page, block, shelf and root list on the way to the key, and share
//! all else with the old map. A node with more than 32 entries is split in halves. One with fewer than
//! 10 is joined with a neighbour, or the two share their entries evenly. A change copies about 200
//! entries of 16 bytes, whatever the size of the map. A page is read from its first pair on, so a look-up
//! in a million compares about 30 keys: some 16 on the way down, and half of those in a page.
//!
//! `put` and `take` do the same in the map itself. On the way down each node asks its `Arc` whether it
//! is the only owner. Where it is, and the page has room, or is left with more than a third of it, the
//! page is changed in place, and nothing is copied. Where a node is shared, or a page has to be split or
//! joined, the nearest node above it that is not shared, and may gain or lose a part, gets a copy of the
//! way from itself down, as `with` or `without` makes it. So of many changes in a row each copies only
//! what it is the first to touch, and what another map shares never changes: an `Arc` lends what it
//! holds to its sole owner alone.
//!
//! `range` notes on the way down which parts come after the one that it enters (`range`).
//!
//! A block, a shelf and the root list do the same with their parts, so that is written once, in
//! `parts`, over any `Level`.
#![tactic(auto)]

mod branch;
mod level;
mod page;
mod paged;
mod parts;
mod range;
mod root;
mod row;

pub use paged::Paged;
pub use range::Range;
pub use std::alloc::AllocError as Memory;
