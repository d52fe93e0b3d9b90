//! Found nodes as the list of a walk keeps them.

ghost use Rattle.std.specs.Prelude.{◌≡◌, IfOk};

use crate::seen::Seen;
use std::alloc::AllocError;
use std::marker::Model;
use un_defs::{Node, PackedSpot, PackedTie, Port};
use un_geom::Point;

/// A found node with its entry, the number of its point, and the place of the node from which it was found, with the link that led to it. A
/// start has no link, and its own place.
#[derive(Clone, Copy)]
pub(crate) struct Item<'a> {
    pub(crate) seen: Seen<'a>,
    pub(crate) number: usize,
    pub(crate) from: usize,
    pub(crate) via: Option<&'a PackedTie>,
}

/// A found node in 64 bytes in place of 80, since a walk over a large network waits for memory most of its time. Contracts see an item.
#[derive(Drop)]
pub(crate) struct PackedItem<'a> {
    feature: u64,
    at: Point,
    terminal: u8,
    number: u32,
    from: u32,
    spot: Option<&'a PackedSpot>,
    via: Option<&'a PackedTie>,
}

impl<'a> Model for PackedItem<'a> {
    ghost use Rattle.un_walk.specs.declared.item.Item.{Item};
    ghost use Rattle.un_walk.specs.Packed.{unpacked};

    ghost Value = { Item };

    ghost view = { unpacked };
}

/// A number in 32 bits. A list with more than 2^32 nodes is taken as want of memory: it would fill 256 GB.
pub(crate) fn narrow(number: usize) -> Result<u32, AllocError>
    ensures { IfOk result (λ narrow. narrow ≡ number) }
{
    match u32::try_from(number) {
        Ok(number) => Ok(number),
        Err(_) => Err(AllocError),
    }
}

impl<'a> PackedItem<'a> {
    /// The item, packed.
    #[inline(always)]
    pub(crate) fn new(item: Item<'a>) -> Result<PackedItem<'a>, AllocError>
        ensures { IfOk result (λ packed. packed ≡ item.entry) }
    {
        Ok(PackedItem {
            feature: item.seen.node.port.feature,
            at: item.seen.node.at,
            terminal: item.seen.node.port.number,
            number: narrow(item.number)?,
            from: narrow(item.from)?,
            spot: item.seen.spot,
            via: item.via,
        })
    }

    /// The node's port.
    pub(crate) fn port(&self) -> Port
        ensures { result ≡ self.now.seen.node.port }
    {
        Port {
            feature: self.feature,
            number: self.terminal,
        }
    }

    /// The node's point.
    pub(crate) fn at(&self) -> Point
        ensures { result ≡ self.now.seen.node.at }
    {
        self.at
    }

    /// The node itself.
    pub(crate) fn node(&self) -> Node
        ensures { result ≡ self.now.seen.node }
    {
        Node {
            port: self.port(),
            at: self.at,
        }
    }

    /// The node with its entry.
    pub(crate) fn seen(&self) -> Seen<'a>
        ensures { result ≡ self.now.seen }
    {
        Seen {
            node: self.node(),
            spot: self.spot,
        }
    }

    /// The number of the node's point.
    pub(crate) fn number(&self) -> usize
        ensures { result ≡ self.now.number }
    {
        self.number as usize
    }

    /// The place of the node from which it was found.
    pub(crate) fn from(&self) -> usize
        ensures { result ≡ self.now.from }
    {
        self.from as usize
    }

    /// The link that led to it.
    pub(crate) fn via(&self) -> Option<&'a PackedTie>
        ensures { result ≡ self.now.via }
    {
        self.via
    }
}
