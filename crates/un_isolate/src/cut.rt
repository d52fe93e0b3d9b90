//! The needed ports of the border, and the part that they cut off.

ghost use Rattle.std.specs.Prelude.{◌≡◌, List, length, None, IfOk};
ghost use Rattle.std.specs.List.Sorted.{IsStrictlySortedBy};
ghost use Rattle.un_defs.specs.declared.port.Node.{Node};
ghost use Rattle.un_defs.specs.Orders.{node_cmp};
ghost use Rattle.un_isolate.specs.Isolation.{Isolation};
ghost use Rattle.un_isolate.specs.Network.{IsWhole, IsUnblocked, AreNeededMarks};
ghost use Rattle.un_isolate.specs.Answer.{isolation_given_way};

use crate::links::links_back;
use crate::marks::{both_marks, marked_nodes, ports_of};
use crate::network::Network;
use crate::parts::parts_of;
use crate::spread::spread;
use std::alloc::{AllocError, Global};
use un_ask::{Parts, Reply};
use un_defs::Node;
use un_defs::port::Ports;

/// Marks the needed ports of the border, given the marks on the inner nodes and the border.
fn needed_marks(alloc: Global, network: &Network, zone: &[bool]) -> Result<Vec<bool>, AllocError>
    requires whole { IsWhole network.now }
    requires count { length zone.now ≡ length network.now.onward.items }
    ensures count { IfOk result (λ needed. length needed.items ≡ length network.now.onward.items) }
    ensures needed { (I : Isolation) (reached : List Node) → IsUnblocked I reached network.now zone.now
        → IfOk result (λ needed. AreNeededMarks I reached needed.items) }
{
    let border = both_marks(alloc, zone, &network.isolating)?;
    let back = links_back(alloc, &network.onward)?;
    let before = spread(alloc, &back, &network.controlled, &border)?;
    both_marks(alloc, &border, &before)
}

/// The needed ports, and the part that they cut off, where no controller stands in the way.
pub(crate) fn cut_off(
    alloc: Global,
    network: &Network,
    reached: &[Node],
    zone: &[bool],
) -> Result<Reply, AllocError>
    requires sorted { IsStrictlySortedBy node_cmp reached.now }
    requires whole { IsWhole network.now }
    requires count { length zone.now ≡ length network.now.onward.items }
    ensures { (I : Isolation) → IsUnblocked I reached.now network.now zone.now
        → IfOk result (λ reply. reply ≡ isolation_given_way None I reached.now) }
{
    let needed = needed_marks(alloc, network, zone)?;
    let part = spread(alloc, &network.onward, &network.starts, &needed)?;
    let borders = ports_of(alloc, &marked_nodes(alloc, reached, &needed)?)?;
    let features = parts_of(alloc, &marked_nodes(alloc, reached, &part)?)?;
    Ok(Reply::Isolation {
        borders: Ports::new(borders),
        features: Parts::new(features),
        version: 0,
    })
}
