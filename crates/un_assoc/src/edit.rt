//! Any edit of associations or controllers.
ghost use Rattle.std.specs.Prelude.{◌<◌, All, IfOk, OnOk, IfErr};
ghost use Rattle.un_defs.specs.Sound.{FitsKind};
ghost use Rattle.un_assoc.specs.Words.{IsLinkEdit};
ghost use Rattle.un_assoc.specs.Edits.{IsMadeIn, IsGoodIn, IsDueIn};

use crate::assocs::Assocs;
use std::alloc::Global;
use un_defs::{Edit, Lookup, Refusal};
use un_schema::Schema;
use un_tiers::Tiers;

impl Assocs {
    /// The associations and controllers after an edit of them, by its word.
    ///
    /// `next` is the id that a new association gets. The edit is refused as by the call of its word: `NoSuchFeature`, `WrongKind`,
    /// `BadTerminal`, `ContainsItself`, `AlreadyContained`, `NoSuchAssociation`, `NotController`, `NoSuchTier`, `ControllerExists`,
    /// `NoSuchController` or `Full`, whichever of them is due first there.
    pub fn edit<K: Lookup>(
        &self,
        alloc: Global,
        edit: &Edit,
        rows: &K,
        schema: &Schema,
        tiers: &Tiers,
        next: u64,
    ) -> Result<Assocs, Refusal>
        requires word { IsLinkEdit edit.now }
        requires next { All (λ a. a.id < next) self.now.associations }
        requires kinds { All (FitsKind schema.now) (K.features rows.now).rows }
        ensures links { IfOk result
            (IsMadeIn schema.now tiers.now next (K.features rows.now) self.now edit.now) }
        ensures good { OnOk result (IsGoodIn schema.now tiers.now (K.features rows.now) self.now edit.now) }
        ensures bad { IfErr result (IsDueIn schema.now tiers.now (K.features rows.now) self.now edit.now) }
    {
        match edit {
            Edit::Connect { .. } => self.connect(alloc, edit, rows, next),
            Edit::Contain { .. } => self.contain(alloc, edit, rows, next),
            Edit::Attach { .. } => self.attach(alloc, edit, rows, next),
            Edit::Detach { .. } => self.detach(alloc, edit),
            Edit::Controller { .. } => self.controller(alloc, edit, rows, schema, tiers),
            Edit::Uncontroller { .. } => self.uncontroller(alloc, edit, rows),
            _ => unreachable!(),
        }
    }
}
