//! Edits of associations and controllers, each by its word.
ghost use Rattle.std.specs.Prelude.{◌≡◌, ◌<◌, All, IfOk, OnOk, IfErr};
ghost use Rattle.un_defs.specs.Sound.{FitsKind};
ghost use Rattle.un_assoc.specs.Words.{IsConnect, IsContain, IsAttach, IsDetach, IsController, IsUncontroller};
ghost use Rattle.un_assoc.specs.Edits.{IsMadeInAnySetting, IsMadeWithAnyId, IsMadeInAnySettingWithAnyId, IsMadeInAnyNetwork, IsGoodIn, IsGoodInAnySetting, IsGoodInAnyNetwork, IsDueIn, IsDueInAnySetting, IsDueInAnyNetwork};

use crate::assocs::Assocs;
use crate::checks::{
    alive, check_alone, check_attaching, check_chain, check_container, check_controlled,
    check_free, check_joints, check_kind, check_room, check_room_in, check_room_to_control,
    check_terminal, found, tier_number,
};
use std::alloc::Global;
use un_defs::{Assoc, AssocKind, Controller, Edit, Lookup, Port, Refusal};
use un_schema::Schema;
use un_tiers::Tiers;

// A feature as an end that has no terminals.
fn whole(feature: u64) -> Port
    ensures { result ≡ record { feature = feature; number = 0 } }
{
    Port { feature, number: 0 }
}

impl Assocs {
    /// The associations with one between two terminals. `next` is the id that it gets, over every id there is.
    ///
    /// In this order the edit is refused: `NoSuchFeature`, of the first end and then of the second; `WrongKind`, where an end is no device
    /// or junction, or both are one feature; `BadTerminal`, of the first end and then of the second; `Full`, where there are 200,000
    /// associations.
    pub fn connect<K: Lookup>(
        &self,
        alloc: Global,
        edit: &Edit,
        rows: &K,
        next: u64,
    ) -> Result<Assocs, Refusal>
        requires word { IsConnect edit.now }
        requires next { All (λ a. a.id < next) self.now.associations }
        ensures links { IfOk result (IsMadeInAnySetting next (K.features rows.now) self.now edit.now) }
        ensures good { OnOk result (IsGoodInAnySetting (K.features rows.now) self.now edit.now) }
        ensures bad { IfErr result (IsDueInAnySetting (K.features rows.now) self.now edit.now) }
    {
        let Edit::Connect { from, to } = edit else {
            unreachable!()
        };
        let a = found(rows, from.feature)?;
        let b = found(rows, to.feature)?;
        check_joints(from, to, a, b)?;
        check_terminal(from, a)?;
        check_terminal(to, b)?;
        check_room(self)?;
        Ok(self.with_assoc(
            alloc,
            Assoc {
                id: next,
                sort: AssocKind::Connectivity,
                from: *from,
                to: *to,
            },
        )?)
    }

    /// The associations with a containment. `next` is the id that it gets, over every id there is.
    ///
    /// In this order the edit is refused: `NoSuchFeature`, of the container and then of the content; `WrongKind`, where the container is no
    /// assembly or structure; `ContainsItself`, where the content is the container or one of those above it; `AlreadyContained`, where the
    /// content has a container; `Full`, where there are 200,000 associations, or the container has 4,096 contents.
    pub fn contain<K: Lookup>(
        &self,
        alloc: Global,
        edit: &Edit,
        rows: &K,
        next: u64,
    ) -> Result<Assocs, Refusal>
        requires word { IsContain edit.now }
        requires next { All (λ a. a.id < next) self.now.associations }
        ensures links { IfOk result (IsMadeInAnySetting next (K.features rows.now) self.now edit.now) }
        ensures good { OnOk result (IsGoodInAnySetting (K.features rows.now) self.now edit.now) }
        ensures bad { IfErr result (IsDueInAnySetting (K.features rows.now) self.now edit.now) }
    {
        let Edit::Contain { container, content } = edit else {
            unreachable!()
        };
        let above = found(rows, *container)?;
        let _below = found(rows, *content)?;
        check_container(above)?;
        check_chain(self, *container, *content)?;
        check_alone(self, *content)?;
        check_room(self)?;
        check_room_in(self, *container)?;
        Ok(self.with_assoc(
            alloc,
            Assoc {
                id: next,
                sort: AssocKind::Containment,
                from: whole(*container),
                to: whole(*content),
            },
        )?)
    }

    /// The associations with an attachment. `next` is the id that it gets, over every id there is.
    ///
    /// In this order the edit is refused: `NoSuchFeature`, of the structure and then of the content; `WrongKind`, where the first is no
    /// structure or the second is one; `Full`, where there are 200,000 associations.
    pub fn attach<K: Lookup>(
        &self,
        alloc: Global,
        edit: &Edit,
        rows: &K,
        next: u64,
    ) -> Result<Assocs, Refusal>
        requires word { IsAttach edit.now }
        requires next { All (λ a. a.id < next) self.now.associations }
        ensures links { IfOk result (IsMadeInAnySetting next (K.features rows.now) self.now edit.now) }
        ensures good { OnOk result (IsGoodInAnySetting (K.features rows.now) self.now edit.now) }
        ensures bad { IfErr result (IsDueInAnySetting (K.features rows.now) self.now edit.now) }
    {
        let Edit::Attach { structure, content } = edit else {
            unreachable!()
        };
        let above = found(rows, *structure)?;
        let below = found(rows, *content)?;
        check_attaching(above, below)?;
        check_room(self)?;
        Ok(self.with_assoc(
            alloc,
            Assoc {
                id: next,
                sort: AssocKind::Attachment,
                from: whole(*structure),
                to: whole(*content),
            },
        )?)
    }

    /// The associations without one. The edit is refused with `NoSuchAssociation`.
    pub fn detach(&self, alloc: Global, edit: &Edit) -> Result<Assocs, Refusal>
        requires word { IsDetach edit.now }
        ensures links { IfOk result (IsMadeInAnyNetwork self.now edit.now) }
        ensures good { OnOk result (IsGoodInAnyNetwork self.now edit.now) }
        ensures bad { IfErr result (IsDueInAnyNetwork self.now edit.now) }
    {
        let Edit::Detach { assoc } = edit else {
            unreachable!()
        };
        let gone = alive(self, *assoc)?;
        Ok(self.without_assoc(alloc, gone)?)
    }

    /// The controllers with one on a terminal.
    ///
    /// In this order the edit is refused: `NoSuchFeature`; `NotController`, where the feature's kind may not be a controller; `BadTerminal`;
    /// `NoSuchTier`; `ControllerExists`; `Full`, where there are 4,096 controllers.
    pub fn controller<K: Lookup>(
        &self,
        alloc: Global,
        edit: &Edit,
        rows: &K,
        schema: &Schema,
        tiers: &Tiers,
    ) -> Result<Assocs, Refusal>
        requires word { IsController edit.now }
        requires kinds { All (FitsKind schema.now) (K.features rows.now).rows }
        ensures links { IfOk result
            (IsMadeWithAnyId schema.now tiers.now (K.features rows.now) self.now edit.now) }
        ensures good { OnOk result (IsGoodIn schema.now tiers.now (K.features rows.now) self.now edit.now) }
        ensures bad { IfErr result (IsDueIn schema.now tiers.now (K.features rows.now) self.now edit.now) }
    {
        let Edit::Controller {
            id,
            terminal,
            tier,
            subnet,
        } = edit
        else {
            unreachable!()
        };
        let port = Port {
            feature: *id,
            number: *terminal,
        };
        let row = found(rows, *id)?;
        check_kind(schema, row)?;
        check_terminal(&port, row)?;
        let tier = tier_number(tiers, tier)?;
        check_free(self, port)?;
        check_room_to_control(self)?;
        let subnet = subnet.copy(alloc)?;
        Ok(self.with_controller(alloc, Controller { port, tier, subnet })?)
    }

    /// The controllers without the one on a terminal.
    ///
    /// In this order the edit is refused: `NoSuchFeature`; `NoSuchController`.
    pub fn uncontroller<K: Lookup>(
        &self,
        alloc: Global,
        edit: &Edit,
        rows: &K,
    ) -> Result<Assocs, Refusal>
        requires word { IsUncontroller edit.now }
        ensures links { IfOk result (IsMadeInAnySettingWithAnyId (K.features rows.now) self.now edit.now) }
        ensures good { OnOk result (IsGoodInAnySetting (K.features rows.now) self.now edit.now) }
        ensures bad { IfErr result (IsDueInAnySetting (K.features rows.now) self.now edit.now) }
    {
        let Edit::Uncontroller { id, terminal } = edit else {
            unreachable!()
        };
        let port = Port {
            feature: *id,
            number: *terminal,
        };
        let _row = found(rows, *id)?;
        check_controlled(self, port)?;
        Ok(self.without_controller(alloc, port)?)
    }
}
