// The container of each content, and how many contents each container has.
ghost use Rattle.std.specs.Prelude.{◌≡◌, ℕ, ◌+◌, ◌-◌, if◌then◌else◌, ◌==◌, not, ◌++◌, ◌∷◌, [], List, filter, find, IsTrue, None, Some, IfOk};
ghost use Rattle.std.specs.List.{list_any};
ghost use Rattle.std.specs.Ordering.{nat_cmp};
ghost use Rattle.std.specs.Map.{lookup};
ghost use Rattle.std.specs.BTreeMap.{is_at};
ghost use Rattle.un_defs.specs.declared.assoc.Assoc.{Assoc};
ghost use Rattle.un_defs.specs.Star.{is_containment};
ghost use Rattle.un_assoc.specs.Containing.{container_of, chain_of};
ghost use Rattle.un_assoc.specs.Indexes.{count_in, AreContained, IsRising};

use std::alloc::{AllocError, Global};
use un_defs::{Assoc, AssocKind};
use un_pages::Paged;

#[derive(Drop)]
pub(crate) struct Containers {
    pub(crate) containers: Paged<u64, u64>,
    pub(crate) counts: Paged<u64, u64>,
}

// Whether an association says what contains what.
fn is_containment(sort: AssocKind) -> bool
    ensures { result ≡ is_containment sort }
{
    match sort {
        AssocKind::Containment => true,
        AssocKind::Connectivity | AssocKind::Attachment => false,
    }
}

impl Containers {
    pub(crate) fn new() -> Containers
        ensures containers { result.containers ≡ [] }
        ensures counts { result.counts ≡ [] }
    {
        Containers {
            containers: Paged::new(),
            counts: Paged::new(),
        }
    }

    // The same containers. All pages are shared.
    pub(crate) fn share(&self) -> Result<Containers, AllocError>
        ensures { IfOk result (λ same. same ≡ self.now) }
    {
        Ok(Containers {
            containers: self.containers.share()?,
            counts: self.counts.share()?,
        })
    }

    // The container of a row.
    pub(crate) fn of(&self, id: u64) -> Option<u64>
        ensures { result ≡ lookup (is_at (nat_cmp id)) self.now.containers }
    {
        self.containers.get(&id).copied()
    }

    // How many contents a row has.
    pub(crate) fn count(&self, id: u64) -> u64
        ensures { result ≡ count_in self.now.counts id }
    {
        count_of(&self.counts, id)
    }

    // Whether a row is one of the first containers above another, of which so many are looked at.
    pub(crate) fn is_above(&self, most: u64, id: u64, sought: u64) -> bool
        ensures { result
            ≡ list_any (λ c. c == sought)
            (chain_of most (λ c. lookup (is_at (nat_cmp c)) self.now.containers) id) }
    {
        let mut left = most;
        let mut at = id;
        while left > 0 {
            let Some(container) = self.of(at) else {
                return false;
            };
            if container == sought {
                return true;
            }
            at = container;
            left -= 1;
        }
        false
    }

    // The containers with one association more.
    pub(crate) fn with(&self, alloc: Global, assoc: &Assoc) -> Result<Containers, AllocError>
        ensures { IfOk result (λ new. (associations : List Assoc)
            → AreContained self.now.containers self.now.counts associations
            → (IsTrue (is_containment assoc.now.sort) → container_of associations assoc.now.to.feature ≡ None)
            → AreContained new.containers new.counts (associations ++ assoc.now ∷ [])) }
    {
        if !is_containment(assoc.sort) {
            let same = self.share()?;
            return Ok(same);
        }
        let containers = self
            .containers
            .with(alloc, assoc.to.feature, assoc.from.feature)?;
        let counts = counts_with(&self.counts, alloc, assoc.from.feature)?;
        Ok(Containers { containers, counts })
    }

    // The containers without an association.
    pub(crate) fn without(&self, alloc: Global, assoc: &Assoc) -> Result<Containers, AllocError>
        ensures { IfOk result (λ new. (associations : List Assoc)
            → AreContained self.now.containers self.now.counts associations → IsRising associations
            → find (λ a. a.id == assoc.now.id) associations ≡ Some assoc.now
            → AreContained new.containers new.counts (filter (λ a. not (a.id == assoc.now.id)) associations)) }
    {
        if !is_containment(assoc.sort) {
            let same = self.share()?;
            return Ok(same);
        }
        // For the proof alone.
        let _len = self.containers.len();
        let containers = self.containers.without(alloc, &assoc.to.feature)?;
        let counts = counts_without(&self.counts, alloc, assoc.from.feature)?;
        Ok(Containers { containers, counts })
    }
}

// How many contents a row has, by these counts.
fn count_of(counts: &Paged<u64, u64>, id: u64) -> u64
    ensures { result ≡ count_in counts.now id }
{
    counts.get(&id).copied().unwrap_or(0)
}

// One content more than a row has.
fn count_more(counts: &Paged<u64, u64>, id: u64) -> Result<u64, AllocError>
    ensures { IfOk result (λ more. more ≡ count_in counts.now id + 1) }
{
    Ok(count_of(counts, id).checked_add(1).ok_or(AllocError)?)
}

// The counts with one content more of a container.
fn counts_with(
    counts: &Paged<u64, u64>,
    alloc: Global,
    container: u64,
) -> Result<Paged<u64, u64>, AllocError>
    ensures { IfOk result (λ new. (id : ℕ)
        → count_in new id ≡ count_in counts.now id + (if id == container then 1 else 0)) }
{
    let more = count_more(counts, container)?;
    let new = counts.with(alloc, container, more)?;
    Ok(new)
}

// The counts with one content less of a container.
fn counts_without(
    counts: &Paged<u64, u64>,
    alloc: Global,
    container: u64,
) -> Result<Paged<u64, u64>, AllocError>
    ensures { IfOk result (λ new. (id : ℕ)
        → count_in new id ≡ count_in counts.now id - (if id == container then 1 else 0)) }
{
    // For the proof alone.
    let _len = counts.len();
    let count = count_of(counts, container);
    let new = if count <= 1 {
        counts.without(alloc, &container)?
    } else {
        counts.with(alloc, container, count - 1)?
    };
    Ok(new)
}
