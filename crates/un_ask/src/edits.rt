ghost use Rattle.std.specs.Prelude.{◌≡◌, if◌then◌else◌, Some, None};
ghost use Rattle.std.specs.List.{list_any};
ghost use Rattle.un_ask.specs.Batches.{is_rule, is_batch, IsBatch};

use std::marker::Model;
use un_defs::Edit;

/// The edits of a batch, in order: 1 to 256 of them, none of which adds a rule.
#[derive(Drop)]
pub struct Edits {
    items: Vec<Edit>,
}

impl Model for Edits {
    ghost use Rattle.std.specs.Prelude.{List};
    ghost use Rattle.un_defs.specs.declared.edit.Edit.{Edit};
    ghost use Rattle.un_ask.specs.Batches.{IsBatch};

    ghost Value = { List Edit };

    ghost view = { λ l. l.items.items };

    ghost invariant = { λ l. IsBatch l.items.items };
}

impl Edits {
    /// The batch of these edits, or none where their number is not from 1 to 256 or one of them adds a rule. It takes no memory.
    pub fn new(items: Vec<Edit>) -> Option<Edits>
        ensures { result ≡ (if is_batch items.items then Some items.items else None) }
    {
        if items.is_empty() || items.len() > 256 || has_rule(&items) {
            return None;
        }
        Some(Edits { items })
    }

    /// The edits, in order.
    pub fn as_slice(&self) -> &[Edit]
        ensures edits { result.now ≡ self.now }
        ensures batch { IsBatch self.now }
    {
        self.items.as_slice()
    }
}

/// Whether one of the edits adds a rule.
fn has_rule(edits: &[Edit]) -> bool
    ensures { result ≡ list_any is_rule edits.now }
{
    edits.iter().any(is_rule)
}

/// Whether the edit adds a rule.
fn is_rule(edit: &Edit) -> bool
    ensures { result ≡ is_rule edit.now }
{
    matches!(edit, Edit::Rule { .. })
}
