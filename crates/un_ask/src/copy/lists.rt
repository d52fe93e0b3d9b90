//! Copies of the lists that replies hold.
ghost use Rattle.std.specs.Prelude.{◌≡◌, IfOk};

use crate::results::{Controllers, Part, Parts};
use std::alloc::{AllocError, Global};
use un_defs::{Controller, NamedAttrs};
use un_schema::Name;

/// An element that owns memory.
pub(super) trait Element: Sized + Drop {
    /// An equal element of its own.
    fn copy(&self, alloc: Global) -> Result<Self, AllocError>
        ensures { IfOk result (λ copy. copy ≡ self.now) };
}

impl Element for (Name, i64) {
    fn copy(&self, alloc: Global) -> Result<(Name, i64), AllocError> {
        Ok((self.0.copy(alloc)?, self.1))
    }
}

impl Element for Controller {
    fn copy(&self, alloc: Global) -> Result<Controller, AllocError> {
        Ok(Controller {
            port: self.port,
            tier: self.tier,
            subnet: self.subnet.copy(alloc)?,
        })
    }
}

impl Element for Part {
    fn copy(&self, alloc: Global) -> Result<Part, AllocError> {
        Ok(Part {
            feature: self.feature,
            numbers: self.numbers.copy(alloc)?,
        })
    }
}

/// A copy of each element, in order.
fn copy_each<T: Element>(alloc: Global, items: &[T]) -> Result<Vec<T>, AllocError>
    ensures { IfOk result (λ copies. copies.items ≡ items.now) }
{
    let mut copies = Vec::with_capacity(alloc, items.len())?;
    for item in items {
        copies.push(item.copy(alloc)?)?;
    }
    Ok(copies)
}

/// These attributes with their names, in a list of its own.
pub(super) fn copy_attrs(alloc: Global, attrs: &NamedAttrs) -> Result<NamedAttrs, AllocError>
    ensures { IfOk result (λ copy. copy ≡ attrs.now) }
{
    let pairs = copy_each(alloc, attrs.as_slice())?;
    Ok(NamedAttrs::new(pairs))
}

/// These controllers with their names, in a list of its own.
pub(super) fn copy_controllers(
    alloc: Global,
    controllers: &Controllers,
) -> Result<Controllers, AllocError>
    ensures { IfOk result (λ copy. copy ≡ controllers.now) }
{
    Ok(Controllers::new(copy_each(alloc, controllers.as_slice())?))
}

/// These features with their ports, in a list of its own.
pub(super) fn copy_parts(alloc: Global, parts: &Parts) -> Result<Parts, AllocError>
    ensures { IfOk result (λ copy. copy ≡ parts.now) }
{
    Ok(Parts::new(copy_each(alloc, parts.as_slice())?))
}
