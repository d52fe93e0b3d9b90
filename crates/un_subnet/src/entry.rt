//! A stored row, whose status alone changes.

ghost use Rattle.std.specs.Prelude.{◌≡◌, unwrap_or, IfOk};
ghost use Rattle.un_subnet.specs.Outcome.{is_row_of};
ghost use Rattle.un_subnet.specs.Stored.{under};
ghost use Rattle.un_subnet.specs.RowIndex.{dirty};

use std::alloc::{AllocError, Global};
use std::marker::Model;
use std::sync::Arc;
use un_ask::{Status, StoredSubnet};
use un_schema::Name;

/// A stored row. Its status stands apart from the rest, which is shared: it alone changes.
#[derive(Drop)]
pub(crate) struct Entry {
    pub(crate) row: Arc<StoredSubnet>,
    pub(crate) status: Status,
}

impl Model for Entry {
    ghost use Rattle.std.specs.Arc.{arc_value};
    ghost use Rattle.un_ask.specs.declared.stored.StoredSubnet.{StoredSubnet};
    ghost use Rattle.un_subnet.specs.Stored.{under};

    ghost Value = { StoredSubnet };

    ghost view = { λ e. under (arc_value e.row, e.status) };
}

impl Entry {
    pub(crate) fn new(alloc: Global, row: StoredSubnet) -> Result<Entry, AllocError>
        ensures { IfOk result (λ entry. entry ≡ row) }
    {
        let status = row.status;
        let row = Arc::new(alloc, row)?;
        Ok(Entry { row, status })
    }

    /// Whether it is the row of this subnetwork of the tier.
    pub(crate) fn is_of(&self, tier: u8, subnet: &Name) -> bool
        ensures { result ≡ is_row_of tier subnet.now self.now }
    {
        self.row.tier == tier && subnet.text() == self.row.subnet.text()
    }

    /// The same row, dirty, or none where it is dirty already.
    pub(crate) fn dirty(&self) -> Result<Option<Entry>, AllocError>
        ensures { IfOk result (λ entry. unwrap_or entry self.now ≡ dirty self.now) }
    {
        if self.status == Status::Dirty {
            return Ok(None);
        }
        Ok(Some(Entry {
            row: Arc::try_clone(&self.row)?,
            status: Status::Dirty,
        }))
    }
}
