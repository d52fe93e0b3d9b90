// The controllers by their ports.
ghost use Rattle.std.specs.Prelude.{◌≡◌, ◌==◌, not, [], filter, find, length, map, None, IfOk};
ghost use Rattle.std.specs.List.{list_any};
ghost use Rattle.std.specs.Option.{option_copied};
ghost use Rattle.std.specs.BTreeSet.{insert_key};
ghost use Rattle.std.specs.Map.{values_of};
ghost use Rattle.un_defs.specs.Features.{is_of_subnet};
ghost use Rattle.un_defs.specs.Orders.{same_port};
ghost use Rattle.un_defs.specs.Result.{controller_cmp};

use std::alloc::{AllocError, Global};
use std::marker::Model;
use std::ops::Bound;
use un_defs::{Controller, Port};
use un_pages::Paged;

#[derive(Drop)]
pub(crate) struct Controllers {
    pairs: Paged<Port, Controller>,
}

impl Model for Controllers {
    ghost use Rattle.std.specs.Prelude.{List};
    ghost use Rattle.std.specs.Map.{values_of};
    ghost use Rattle.un_defs.specs.declared.assoc.Controller.{Controller};
    ghost use Rattle.un_assoc.specs.Indexes.{AreKeyed};

    ghost Value = { List Controller };

    ghost view = { λ m. values_of m.pairs };

    ghost invariant = { λ m. AreKeyed (λ c. c.port) m.pairs };
}

fn is_of_subnet(controller: &Controller, tier: u8, subnet: &str) -> bool
    ensures { result ≡ is_of_subnet tier subnet.now controller.now }
{
    controller.tier == tier && subnet == controller.subnet.text()
}

// The ports of those of a subnetwork, which are looked for among all.
fn ports_of_subnet(
    alloc: Global,
    pairs: &Paged<Port, Controller>,
    tier: u8,
    subnet: &str,
) -> Result<Vec<Port>, AllocError>
    ensures { IfOk result (λ ports. ports.items
        ≡ map (λ c. c.port) (filter (is_of_subnet tier subnet.now) (values_of pairs.now))) }
{
    let mut ports = Vec::new(alloc);
    for (_, controller) in pairs.range(Bound::Unbounded) {
        if is_of_subnet(controller, tier, subnet) {
            ports.push(controller.port)?;
        }
    }
    Ok(ports)
}

impl Controllers {
    // No controllers.
    pub(crate) fn new() -> Controllers
        ensures { result ≡ [] }
    {
        Controllers {
            pairs: Paged::new(),
        }
    }

    // The same controllers. All pages are shared.
    pub(crate) fn share(&self) -> Result<Controllers, AllocError>
        ensures { IfOk result (λ m. m ≡ self.now) }
    {
        let pairs = self.pairs.share()?;
        Ok(Controllers { pairs })
    }

    // How many controllers there are.
    pub(crate) fn len(&self) -> u64
        ensures { result ≡ length self.now }
    {
        self.pairs.len()
    }

    // The controller on a port.
    pub(crate) fn get(&self, port: Port) -> Option<&Controller>
        ensures { option_copied result ≡ find (λ c. same_port c.port port) self.now }
    {
        self.pairs.get(&port)
    }

    // Whether a feature has a controller.
    pub(crate) fn has(&self, feature: u64) -> bool
        ensures { result ≡ list_any (λ c. c.port.feature == feature) self.now }
    {
        // For the proof alone.
        let _len = self.pairs.len();
        let first = Port { feature, number: 0 };
        match self.pairs.range(Bound::Included(first)).next() {
            Some((port, _)) => port.feature == feature,
            None => false,
        }
    }

    // The ports of the controllers of a subnetwork, in their order.
    pub(crate) fn of_subnet(
        &self,
        alloc: Global,
        tier: u8,
        subnet: &str,
    ) -> Result<Vec<Port>, AllocError>
        ensures { IfOk result (λ ports. ports.items
            ≡ map (λ c. c.port) (filter (is_of_subnet tier subnet.now) self.now)) }
    {
        ports_of_subnet(alloc, &self.pairs, tier, subnet)
    }

    // The controllers with one on a port that has none.
    pub(crate) fn with(
        &self,
        alloc: Global,
        controller: Controller,
    ) -> Result<Controllers, AllocError>
        requires { find (λ c. same_port c.port controller.port) self.now ≡ None }
        ensures { IfOk result (λ m. m ≡ insert_key controller_cmp self.now controller) }
    {
        let pairs = self.pairs.with(alloc, controller.port, controller)?;
        Ok(Controllers { pairs })
    }

    // The controllers without the one on a port.
    pub(crate) fn without(&self, alloc: Global, port: Port) -> Result<Controllers, AllocError>
        ensures { IfOk result (λ m. m ≡ filter (λ c. not (same_port c.port port)) self.now) }
    {
        // For the proof alone.
        let _len = self.pairs.len();
        let pairs = self.pairs.without(alloc, &port)?;
        Ok(Controllers { pairs })
    }
}
