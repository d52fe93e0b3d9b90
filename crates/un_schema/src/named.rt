ghost use Rattle.std.specs.Prelude.{◌≡◌, List, ℕ, true, map, IfOk};
ghost use Rattle.std.specs.List.{list_all, list_any};
ghost use Rattle.un_conds.specs.Names.{same_text};
ghost use Rattle.un_schema.specs.Names.{is_name};
ghost use Rattle.un_schema.specs.Lists.{are_distinct, are_named};

use crate::name::{Name, is_name};
use std::alloc::{AllocError, Global};
use un_conds::Text;

/// What has a name, of which nothing is known yet.
pub(crate) trait Named {
    ghost text: { Self → List ℕ };

    fn name(&self) -> &str
        ensures { result.now ≡ text self.now };
}

impl Named for Text {
    ghost text = { λ t. t };

    fn name(&self) -> &str {
        self.as_str()
    }
}

/// Whether one of the items has this name.
pub(crate) fn has_name<T: Named>(name: &str, items: &[T]) -> bool
    ensures { result ≡ list_any (λ x. same_text name.now (T.text x)) items.now }
{
    items.iter().any(|item| name == item.name())
}

/// Whether no name stands twice. It goes on only as long as none does.
pub(crate) fn are_distinct<T: Named>(items: &[T]) -> bool
    ensures { result ≡ are_distinct (λ x y. same_text (T.text x) (T.text y)) items.now }
{
    let Some((first, others)) = items.split_first() else {
        return true;
    };
    !has_name(first.name(), others) && are_distinct(others)
}

fn have_names<T: Named>(items: &[T]) -> bool
    ensures { result ≡ list_all (λ x. is_name (T.text x)) items.now }
{
    items.iter().all(|item| is_name(item.name()))
}

/// Whether the count of items is in range, and all their names are valid and distinct.
pub(crate) fn are_named<T: Named>(least: usize, most: usize, items: &[T]) -> bool
    ensures { result ≡ are_named T.text least most items.now }
{
    least <= items.len() && items.len() <= most && have_names(items) && are_distinct(items)
}

/// A name of its own from a text that has the form of a name.
pub(crate) fn own_name(alloc: Global, text: &str) -> Result<Name, AllocError>
    requires { is_name text.now ≡ true }
    ensures { IfOk result (λ name. name ≡ text.now) }
{
    let text = String::from_str(alloc, text)?;
    Ok(Name::known(text))
}

/// The names of the items.
pub(crate) fn own_names<T: Named>(alloc: Global, items: &[T]) -> Result<Vec<Name>, AllocError>
    requires { list_all (λ x. is_name (T.text x)) items.now ≡ true }
    ensures { IfOk result (λ names. names.items ≡ map T.text items.now) }
{
    let mut names = Vec::with_capacity(alloc, items.len())?;
    for item in items {
        names.push(own_name(alloc, item.name())?)?;
    }
    Ok(names)
}
