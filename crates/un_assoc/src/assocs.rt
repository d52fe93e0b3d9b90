//! The associations and controllers, and what is asked of them.
ghost use Rattle.std.specs.Prelude.{◌≡◌, ◌≢◌, ◌<◌, ◌==◌, not, ◌++◌, ◌∷◌, [], filter, find, length, slice_get, All, IsTrue, Some, None, IfOk};
ghost use Rattle.std.specs.List.{list_any};
ghost use Rattle.std.specs.BTreeSet.{insert_key};
ghost use Rattle.std.specs.Option.{option_copied};
ghost use Rattle.un_defs.specs.Features.{association, associations_of};
ghost use Rattle.un_defs.specs.Star.{is_containment, controller_at};
ghost use Rattle.un_defs.specs.Orders.{same_port};
ghost use Rattle.un_defs.specs.Result.{controller_cmp};
ghost use Rattle.un_assoc.specs.Links.{no_links, only_links, controller_ports, is_of_sort};
ghost use Rattle.un_assoc.specs.Containing.{container_of, contents_count, containers_above};
ghost use Rattle.un_assoc.specs.Indexes.{IsRising};

use crate::by_id::ById;
use crate::containers::Containers;
use crate::controllers::Controllers;
use crate::ends::Ends;
use std::alloc::{AllocError, Global};
use std::marker::Model;
use un_defs::{Assoc, AssocKind, Controller, Port};

/// The live associations and controllers of a network. An edit gives a new one, which shares its pages with the old one.
///
/// Contracts see the associations by rising id, and the controllers in the order of their ports.
#[derive(Drop)]
pub struct Assocs {
    by_id: ById,
    ends: Ends,
    containers: Containers,
    controllers: Controllers,
}

impl Model for Assocs {
    ghost use Rattle.un_assoc.specs.Links.{Links};
    ghost use Rattle.un_assoc.specs.Indexes.{AreIndexed};

    ghost Value = { Links };

    ghost view = { λ s. record { associations = s.by_id; controllers = s.controllers } };

    ghost invariant = { λ s. AreIndexed s.ends.pairs s.containers.containers s.containers.counts s.by_id };
}

impl Assocs {
    /// No associations and no controllers. It takes no memory.
    pub fn new(_alloc: Global) -> Assocs
        ensures { result ≡ no_links }
    {
        Assocs {
            by_id: ById::new(),
            ends: Ends::new(),
            containers: Containers::new(),
            controllers: Controllers::new(),
        }
    }

    /// The same associations and controllers. All pages are shared.
    pub fn share(&self) -> Result<Assocs, AllocError>
        ensures { IfOk result (λ same. same ≡ self.now) }
    {
        Ok(Assocs {
            by_id: self.by_id.share()?,
            ends: self.ends.share()?,
            containers: self.containers.share()?,
            controllers: self.controllers.share()?,
        })
    }

    /// How many associations there are.
    pub fn len(&self) -> u64
        ensures count { result ≡ length self.now.associations }
        ensures rising { IsRising self.now.associations }
    {
        self.by_id.len()
    }

    /// The association with this id, if there is one.
    pub fn get(&self, id: u64) -> Option<&Assoc>
        ensures { option_copied result ≡ association (only_links self.now) id }
    {
        self.by_id.get(id)
    }

    /// The associations of which the row with this id is an end, by rising id.
    pub fn of(&self, alloc: Global, id: u64) -> Result<Vec<Assoc>, AllocError>
        ensures { IfOk result (λ found. found.items ≡ associations_of (only_links self.now) id) }
    {
        // For the proof alone.
        let _len = self.by_id.len();
        let found = self.ends.of(alloc, id)?;
        Ok(found)
    }

    /// Of the associations of a row, the one with the least id. It takes no memory.
    pub fn first_of(&self, id: u64) -> Option<&Assoc>
        ensures { option_copied result ≡ slice_get (associations_of (only_links self.now) id) 0 }
    {
        // For the proof alone.
        let _len = self.by_id.len();
        self.ends.first(id)
    }

    /// The associations of a sort, by rising id. All associations are looked at.
    pub fn of_sort(&self, alloc: Global, sort: AssocKind) -> Result<Vec<Assoc>, AllocError>
        ensures { IfOk result (λ found. found.items ≡ filter (is_of_sort sort) self.now.associations) }
    {
        self.by_id.of_sort(alloc, sort)
    }

    /// The controller on a terminal, if there is one.
    pub fn controller_at(&self, port: Port) -> Option<&Controller>
        ensures { option_copied result ≡ controller_at (only_links self.now) port }
    {
        self.controllers.get(port)
    }

    /// The ports of the controllers of a subnetwork, in their order. All controllers are looked at.
    pub fn controllers_of(
        &self,
        alloc: Global,
        tier: u8,
        subnet: &str,
    ) -> Result<Vec<Port>, AllocError>
        ensures { IfOk result (λ ports. ports.items ≡ controller_ports self.now tier subnet.now) }
    {
        self.controllers.of_subnet(alloc, tier, subnet)
    }

    /// Whether a controller sits on one of the terminals of a feature.
    pub fn has_controller(&self, feature: u64) -> bool
        ensures { result ≡ list_any (λ c. c.port.feature == feature) self.now.controllers }
    {
        self.controllers.has(feature)
    }
}

impl Assocs {
    // How many controllers there are.
    pub(crate) fn controllers_len(&self) -> u64
        ensures { result ≡ length self.now.controllers }
    {
        self.controllers.len()
    }

    // The container of a row.
    pub(crate) fn container(&self, id: u64) -> Option<u64>
        ensures { result ≡ container_of self.now.associations id }
    {
        self.containers.of(id)
    }

    // How many contents a row has.
    pub(crate) fn contents(&self, id: u64) -> u64
        ensures { result ≡ contents_count self.now.associations id }
    {
        self.containers.count(id)
    }

    // Whether a row is one of the containers above another.
    pub(crate) fn is_above(&self, id: u64, sought: u64) -> bool
        ensures { result ≡ list_any (λ c. c == sought) (containers_above self.now.associations id) }
    {
        self.containers.is_above(self.by_id.len(), id, sought)
    }

    // One association more, whose id is over all others.
    pub(crate) fn with_assoc(&self, alloc: Global, assoc: Assoc) -> Result<Assocs, AllocError>
        requires next { All (λ a. a.id < assoc.id) self.now.associations }
        requires apart { assoc.from.feature ≢ assoc.to.feature }
        requires alone { IsTrue (is_containment assoc.sort)
            → container_of self.now.associations assoc.to.feature ≡ None }
        ensures { IfOk result (λ after. after
            ≡ record self.now { associations = self.now.associations ++ assoc ∷ [] }) }
    {
        Ok(Assocs {
            by_id: self.by_id.with(alloc, assoc)?,
            ends: self.ends.with(alloc, assoc)?,
            containers: self.containers.with(alloc, &assoc)?,
            controllers: self.controllers.share()?,
        })
    }

    // All but one association.
    pub(crate) fn without_assoc(&self, alloc: Global, gone: Assoc) -> Result<Assocs, AllocError>
        requires { find (λ a. a.id == gone.id) self.now.associations ≡ Some gone }
        ensures { IfOk result (λ after. after
            ≡ record self.now {
              associations = filter
                  (λ a. not (a.id == gone.id)) self.now.associations;
            }) }
    {
        // For the proof alone.
        let _len = self.by_id.len();
        Ok(Assocs {
            by_id: self.by_id.without(alloc, gone.id)?,
            ends: self.ends.without(alloc, &gone)?,
            containers: self.containers.without(alloc, &gone)?,
            controllers: self.controllers.share()?,
        })
    }

    // One controller more, on a port that has none.
    pub(crate) fn with_controller(
        &self,
        alloc: Global,
        controller: Controller,
    ) -> Result<Assocs, AllocError>
        requires { find (λ c. same_port c.port controller.port) self.now.controllers ≡ None }
        ensures { IfOk result (λ after. after
            ≡ record self.now { controllers = insert_key controller_cmp self.now.controllers controller }) }
    {
        Ok(Assocs {
            by_id: self.by_id.share()?,
            ends: self.ends.share()?,
            containers: self.containers.share()?,
            controllers: self.controllers.with(alloc, controller)?,
        })
    }

    // All but the controller on a port.
    pub(crate) fn without_controller(&self, alloc: Global, port: Port) -> Result<Assocs, AllocError>
        ensures { IfOk result (λ after. after
            ≡ record self.now {
              controllers = filter
                  (λ c. not (same_port c.port port)) self.now.controllers;
            }) }
    {
        Ok(Assocs {
            by_id: self.by_id.share()?,
            ends: self.ends.share()?,
            containers: self.containers.share()?,
            controllers: self.controllers.without(alloc, port)?,
        })
    }
}
