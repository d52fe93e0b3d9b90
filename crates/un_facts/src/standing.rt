//! What stands on a row and keeps an edit from it.
ghost use Rattle.std.specs.Prelude.{◌≡◌, Some, None, OnOk, IfErr};
ghost use Rattle.un_facts.specs.Refusals.{has_associations, has_controllers, standing_refusal};

use crate::facts::Facts;
use un_defs::{Edit, Refusal};

impl Facts {
    /// Refuses where the row is an end of an association.
    fn check_associations(&self, id: u64) -> Result<(), Refusal>
        ensures good { OnOk result (has_associations self.now.features id ≡ None) }
        ensures bad { IfErr result (λ refusal. has_associations self.now.features id ≡ Some refusal) }
    {
        match self.parts().assocs.first_of(id) {
            Some(assoc) => Err(Refusal::HasAssociations { least: assoc.id }),
            None => Ok(()),
        }
    }

    /// Refuses where a controller sits on the row.
    fn check_controllers(&self, id: u64) -> Result<(), Refusal>
        ensures good { OnOk result (has_controllers self.now.features id ≡ None) }
        ensures bad { IfErr result (λ refusal. has_controllers self.now.features id ≡ Some refusal) }
    {
        if self.parts().assocs.has_controller(id) {
            Err(Refusal::HasControllers)
        } else {
            Ok(())
        }
    }

    /// Refuses what stands on a row that is to become of another kind or to go.
    pub(crate) fn check_standing(&self, edit: &Edit) -> Result<(), Refusal>
        ensures good { OnOk result (standing_refusal self.now.features edit.now ≡ None) }
        ensures bad { IfErr result (λ refusal. standing_refusal self.now.features edit.now ≡ Some refusal) }
    {
        match edit {
            Edit::Kind { id, .. } => self.check_controllers(*id),
            Edit::Delete { id, .. } => {
                self.check_associations(*id)?;
                self.check_controllers(*id)
            }
            Edit::Insert { .. }
            | Edit::Reshape { .. }
            | Edit::Attrs { .. }
            | Edit::Path { .. }
            | Edit::Flow { .. }
            | Edit::Ends { .. }
            | Edit::Note { .. }
            | Edit::Connect { .. }
            | Edit::Contain { .. }
            | Edit::Attach { .. }
            | Edit::Detach { .. }
            | Edit::Controller { .. }
            | Edit::Uncontroller { .. }
            | Edit::Rule { .. } => Ok(()),
        }
    }
}
