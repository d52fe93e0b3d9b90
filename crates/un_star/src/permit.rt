//! Which associations the rules permit.

ghost use Rattle.std.specs.Prelude.{◌≡◌};
ghost use Rattle.un_defs.specs.Permit.{allowed, permitted};

use un_defs::{Assoc, AssocKind, Row, Rows};
use un_schema::Schema;

/// Whether a rule allows the association between two rows.
fn allowed(schema: &Schema, assoc: &Assoc, from: &Row, to: &Row) -> bool
    ensures { result ≡ allowed schema.now.rules assoc.now.sort assoc.now.from assoc.now.to from.now to.now }
{
    match assoc.sort {
        AssocKind::Connectivity => {
            from.has_terminal(assoc.from.number)
                && to.has_terminal(assoc.to.number)
                && schema.allows_pair(from.kind, assoc.from.number, to.kind, assoc.to.number)
        }
        AssocKind::Containment => schema.allows_content(from.kind, to.kind),
        AssocKind::Attachment => schema.allows_attach(from.kind, to.kind),
    }
}

/// Whether the rules in force allow the association between its rows.
pub(crate) fn permitted<R: Rows>(rows: &R, assoc: &Assoc) -> bool
    ensures { result ≡ permitted (R.features rows.now) assoc.now }
{
    match (rows.row(assoc.from.feature), rows.row(assoc.to.feature)) {
        (Some(from), Some(to)) => allowed(rows.schema(), assoc, from, to),
        _ => false,
    }
}
