// The associations by each of their two ends.
ghost use Rattle.std.specs.Prelude.{◌≡◌, ◌≢◌, ◌<◌, ◌==◌, not, ◌++◌, ◌∷◌, [], List, filter, find, All, Some, IfOk, slice_get};
ghost use Rattle.std.specs.Option.{option_copied};
ghost use Rattle.un_defs.specs.declared.assoc.Assoc.{Assoc};

use std::alloc::{AllocError, Global};
use std::ops::Bound;
use std::sync::Arc;
use un_defs::{Assoc, Port};
use un_pages::Paged;

/// A feature, and an association of which it is an end.
#[derive(Clone, Copy, Debug, PartialEq, Eq, PartialOrd, Ord, Hash)]
pub(crate) struct End {
    pub(crate) feature: u64,
    pub(crate) assoc: u64,
}

#[derive(Drop)]
pub(crate) struct Ends {
    pub(crate) pairs: Paged<End, Assoc>,
}

// Where an association stands that has this port.
fn end_of(port: Port, assoc: &Assoc) -> End
    ensures { result ≡ record { feature = port.feature; assoc = assoc.now.id } }
{
    End {
        feature: port.feature,
        assoc: assoc.id,
    }
}

// Where the associations of a feature begin.
fn first_end(feature: u64) -> Bound<End>
    ensures { result ≡ Bound.Included (record { feature = feature; assoc = 0 }) }
{
    Bound::Included(End { feature, assoc: 0 })
}

impl Ends {
    ghost use Rattle.un_assoc.specs.Indexes.{at_feature, AreEnds, IsRising};

    pub(crate) fn new() -> Ends
        ensures { result.pairs ≡ [] }
    {
        Ends {
            pairs: Paged::new(),
        }
    }

    // The same ends. All pages are shared.
    pub(crate) fn share(&self) -> Result<Ends, AllocError>
        ensures { IfOk result (λ ends. ends.pairs ≡ self.now.pairs) }
    {
        let pairs = self.pairs.share()?;
        Ok(Ends { pairs })
    }

    // The associations of a feature.
    pub(crate) fn of(&self, alloc: Global, feature: u64) -> Result<Vec<Assoc>, AllocError>
        ensures { IfOk result (λ found. found.items ≡ at_feature feature self.now.pairs) }
    {
        // For the proof alone.
        let _len = self.pairs.len();
        let mut found = Vec::new(alloc);
        for (end, assoc) in self.pairs.range(first_end(feature)) {
            if end.feature != feature {
                break;
            }
            found.push(**assoc)?;
        }
        Ok(found)
    }

    // The first association of a feature.
    pub(crate) fn first(&self, feature: u64) -> Option<&Assoc>
        ensures { option_copied result ≡ slice_get (at_feature feature self.now.pairs) 0 }
    {
        // For the proof alone.
        let _len = self.pairs.len();
        let (end, assoc) = self.pairs.range(first_end(feature)).next()?;
        if end.feature != feature {
            return None;
        }
        Some(&**assoc)
    }

    // The ends with those of one association more, whose id is over all others.
    pub(crate) fn with(&self, alloc: Global, assoc: Assoc) -> Result<Ends, AllocError>
        requires { assoc.from.feature ≢ assoc.to.feature }
        ensures { IfOk result (λ ends. (associations : List Assoc) → AreEnds self.now.pairs associations
            → All (λ a. a.id < assoc.id) associations → AreEnds ends.pairs (associations ++ assoc ∷ [])) }
    {
        // For the proof alone.
        let _len = self.pairs.len();
        let from = self.pairs.with(alloc, end_of(assoc.from, &assoc), assoc)?;
        // For the proof alone.
        let _more = from.len();
        let pairs = from.with(alloc, end_of(assoc.to, &assoc), assoc)?;
        Ok(Ends { pairs })
    }

    // The ends without those of an association.
    pub(crate) fn without(&self, alloc: Global, assoc: &Assoc) -> Result<Ends, AllocError>
        ensures { IfOk result (λ ends. (associations : List Assoc)
            → AreEnds self.now.pairs associations → IsRising associations
            → find (λ a. a.id == assoc.now.id) associations ≡ Some assoc.now
            → AreEnds ends.pairs (filter (λ a. not (a.id == assoc.now.id)) associations)) }
    {
        // For the proof alone.
        let _len = self.pairs.len();
        let from = self.pairs.without(alloc, &end_of(assoc.from, assoc))?;
        // For the proof alone.
        let _less = from.len();
        let pairs = from.without(alloc, &end_of(assoc.to, assoc))?;
        Ok(Ends { pairs })
    }
}
