//! The ids that are given next.
ghost use Rattle.std.specs.Prelude.{◌≡◌, ◌<◌};
ghost use Rattle.un_defs.specs.Change.{after};
ghost use Rattle.un_facts.specs.Known.{next_at};

use un_defs::Edit;

/// The id that the next new row gets, and the one of the next new association. An id is never given again.
#[derive(Clone, Copy, Debug, PartialEq, Eq)]
pub struct NextIds {
    pub feature: u64,
    pub association: u64,
}

impl NextIds {
    /// The next ids after an edit.
    pub fn after(self, edit: &Edit) -> NextIds
        requires feature { self.feature < 9_000_000_000_100_000 }
        requires association { self.association < 9_000_000_000_100_000 }
        ensures { next_at result 0 ≡ after (next_at self 0) edit.now }
    {
        let NextIds {
            feature,
            association,
        } = self;
        match edit {
            Edit::Insert { .. } => NextIds {
                feature: feature + 1,
                association,
            },
            Edit::Connect { .. } | Edit::Contain { .. } | Edit::Attach { .. } => NextIds {
                feature,
                association: association + 1,
            },
            Edit::Reshape { .. }
            | Edit::Attrs { .. }
            | Edit::Kind { .. }
            | Edit::Path { .. }
            | Edit::Flow { .. }
            | Edit::Ends { .. }
            | Edit::Note { .. }
            | Edit::Delete { .. }
            | Edit::Detach { .. }
            | Edit::Controller { .. }
            | Edit::Uncontroller { .. }
            | Edit::Rule { .. } => self,
        }
    }
}
