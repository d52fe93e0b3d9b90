// The associations by id.
ghost use Rattle.std.specs.Prelude.{◌≡◌, ◌<◌, ◌==◌, not, ◌++◌, ◌∷◌, [], filter, find, length, All, IfOk};
ghost use Rattle.std.specs.Option.{option_copied};
ghost use Rattle.std.specs.Map.{values_of};
ghost use Rattle.un_assoc.specs.Indexes.{IsRising};
ghost use Rattle.un_assoc.specs.Links.{is_of_sort};

use std::alloc::{AllocError, Global};
use std::marker::Model;
use std::ops::Bound;
use un_defs::{Assoc, AssocKind};
use un_pages::Paged;

#[derive(Drop)]
pub(crate) struct ById {
    pairs: Paged<u64, Assoc>,
}

impl Model for ById {
    ghost use Rattle.std.specs.Prelude.{List};
    ghost use Rattle.std.specs.Map.{values_of};
    ghost use Rattle.un_defs.specs.declared.assoc.Assoc.{Assoc};
    ghost use Rattle.un_assoc.specs.Indexes.{AreKeyed};

    ghost Value = { List Assoc };

    ghost view = { λ m. values_of m.pairs };

    ghost invariant = { λ m. AreKeyed (λ a. a.id) m.pairs };
}

fn is_of_sort(sort: AssocKind, assoc: &Assoc) -> bool
    ensures { result ≡ is_of_sort sort assoc.now }
{
    assoc.sort == sort
}

// Those of a sort, which are looked for among all.
fn assocs_of_sort(
    alloc: Global,
    pairs: &Paged<u64, Assoc>,
    sort: AssocKind,
) -> Result<Vec<Assoc>, AllocError>
    ensures { IfOk result (λ found. found.items ≡ filter (is_of_sort sort) (values_of pairs.now)) }
{
    let mut found = Vec::new(alloc);
    for (_, assoc) in pairs.range(Bound::Unbounded) {
        if is_of_sort(sort, assoc) {
            found.push(**assoc)?;
        }
    }
    Ok(found)
}

impl ById {
    pub(crate) fn new() -> ById
        ensures { result ≡ [] }
    {
        ById {
            pairs: Paged::new(),
        }
    }

    // The same associations. All pages are shared.
    pub(crate) fn share(&self) -> Result<ById, AllocError>
        ensures { IfOk result (λ m. m ≡ self.now) }
    {
        let pairs = self.pairs.share()?;
        Ok(ById { pairs })
    }

    pub(crate) fn len(&self) -> u64
        ensures count { result ≡ length self.now }
        ensures rising { IsRising self.now }
    {
        self.pairs.len()
    }

    pub(crate) fn get(&self, id: u64) -> Option<&Assoc>
        ensures { option_copied result ≡ find (λ a. a.id == id) self.now }
    {
        self.pairs.get(&id)
    }

    // The associations of a sort, by rising id.
    pub(crate) fn of_sort(&self, alloc: Global, sort: AssocKind) -> Result<Vec<Assoc>, AllocError>
        ensures { IfOk result (λ found. found.items ≡ filter (is_of_sort sort) self.now) }
    {
        assocs_of_sort(alloc, &self.pairs, sort)
    }

    // The map with one association more, whose id is over all others.
    pub(crate) fn with(&self, alloc: Global, assoc: Assoc) -> Result<ById, AllocError>
        requires { All (λ a. a.id < assoc.id) self.now }
        ensures { IfOk result (λ m. m ≡ self.now ++ assoc ∷ []) }
    {
        let pairs = self.pairs.with(alloc, assoc.id, assoc)?;
        Ok(ById { pairs })
    }

    // The map without the association of this id.
    pub(crate) fn without(&self, alloc: Global, id: u64) -> Result<ById, AllocError>
        ensures { IfOk result (λ m. m ≡ filter (λ a. not (a.id == id)) self.now) }
    {
        // For the proof alone.
        let _len = self.pairs.len();
        let pairs = self.pairs.without(alloc, &id)?;
        Ok(ById { pairs })
    }
}
