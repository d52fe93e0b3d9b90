//! An entry of a star as the star keeps it.
//!
//! Few ports have a controller, a container, contents, structures or attributes. What there is of these stands in memory of its own, so that an
//! entry without any takes 128 bytes in place of 376, and a walk reads the rest only where it asks for it.
ghost use Rattle.std.specs.Prelude.{◌≡◌, true, false, IfOk};
ghost use Rattle.std.specs.Option.{option_copied};
ghost use Rattle.un_attrs.specs.Attributes.{attribute, IsAttributes};
ghost use Rattle.un_defs.specs.Entry.{no_extras, extras_in, container_list};

use crate::assoc::Controller;
use crate::link::{PackedTie, Ties};
use crate::lists::Ids;
use crate::port::Port;
use crate::star::Spot;
use std::alloc::{AllocError, Global};
use std::marker::Model;
use std::slice;
use un_attrs::{Attrs, Cats};
use un_schema::Class;

/// What few ports have.
#[derive(Drop)]
struct Extras {
    controller: Option<Controller>,
    container: u64,
    contents: Ids,
    structures: Ids,
    attrs: Attrs,
}

/// A port in the topology as a star keeps it. Contracts see a spot.
#[derive(Drop)]
pub struct PackedSpot {
    feature: u64,
    ties: Ties,
    extras: Option<Box<Extras>>,
    cats: Cats,
    kind: u16,
    class: Class,
    number: u8,
}

impl Model for PackedSpot {
    ghost use Rattle.un_defs.specs.declared.star.Spot.{Spot};
    ghost use Rattle.un_defs.specs.Entry.{unpacked};

    ghost Value = { Spot };

    ghost view = { unpacked };
}

impl Extras {
    // There is none of it.
    fn is_empty(&self) -> bool
        ensures { result ≡ true → self.now ≡ no_extras }
    {
        self.controller.is_none()
            && self.container == 0
            && self.contents.as_slice().is_empty()
            && self.structures.as_slice().is_empty()
            && self.attrs.pairs().is_empty()
    }

    // In memory of their own, if there are any.
    fn kept(self, alloc: Global) -> Result<Option<Box<Extras>>, AllocError>
        ensures { IfOk result (λ kept. extras_in kept ≡ self) }
    {
        if self.is_empty() {
            return Ok(None);
        }
        Ok(Some(Box::new(alloc, self)?))
    }
}

impl PackedSpot {
    /// The spot, as a star keeps it.
    pub fn new(alloc: Global, spot: Spot) -> Result<PackedSpot, AllocError>
        ensures { IfOk result (λ packed. packed ≡ spot) }
    {
        let Spot {
            port,
            ties,
            kind,
            class,
            controller,
            cats,
            container,
            contents,
            structures,
            attrs,
        } = spot;
        let extras = Extras {
            controller,
            container,
            contents,
            structures,
            attrs,
        };
        Ok(PackedSpot {
            feature: port.feature,
            ties,
            extras: extras.kept(alloc)?,
            cats,
            kind,
            class,
            number: port.number,
        })
    }

    /// Its port.
    pub fn port(&self) -> Port
        ensures { result ≡ self.now.port }
    {
        Port {
            feature: self.feature,
            number: self.number,
        }
    }

    /// Its links.
    pub fn ties(&self) -> &[PackedTie]
        ensures { result.now ≡ self.now.ties }
    {
        self.ties.as_slice()
    }

    /// The number of its kind.
    pub fn kind(&self) -> u16
        ensures { result ≡ self.now.kind }
    {
        self.kind
    }

    /// The class of its kind.
    pub fn class(&self) -> Class
        ensures { result ≡ self.now.class }
    {
        self.class
    }

    /// The categories of its kind.
    pub fn cats(&self) -> Cats
        ensures { result ≡ self.now.cats }
    {
        self.cats
    }

    /// The controller on it.
    pub fn controller(&self) -> Option<&Controller>
        ensures { option_copied result ≡ self.now.controller }
    {
        match &self.extras {
            Some(extras) => extras.controller.as_ref(),
            None => None,
        }
    }

    /// The id of its feature's container, 0 for none.
    pub fn container(&self) -> u64
        ensures { result ≡ self.now.container }
    {
        match &self.extras {
            Some(extras) => extras.container,
            None => 0,
        }
    }

    /// The id of its feature's container, if it has one, as a list.
    pub fn containers(&self) -> &[u64]
        ensures { result.now ≡ container_list self.now.container }
    {
        match &self.extras {
            Some(extras) if extras.container != 0 => slice::from_ref(&extras.container),
            _ => &[],
        }
    }

    /// The ids of what its feature contains, rising.
    pub fn contents(&self) -> &[u64]
        ensures { result.now ≡ self.now.contents }
    {
        match &self.extras {
            Some(extras) => extras.contents.as_slice(),
            None => &[],
        }
    }

    /// The ids of the structures to which its feature is attached, rising.
    pub fn structures(&self) -> &[u64]
        ensures { result.now ≡ self.now.structures }
    {
        match &self.extras {
            Some(extras) => extras.structures.as_slice(),
            None => &[],
        }
    }

    /// The attributes of its feature, by rising number.
    pub fn attrs(&self) -> &[(u8, i64)]
        ensures value { result.now ≡ self.now.attrs }
        ensures rules { IsAttributes self.now.attrs }
    {
        match &self.extras {
            Some(extras) => extras.attrs.pairs(),
            None => &[],
        }
    }

    /// The value of the attribute with this number, if its feature has it.
    pub fn attribute(&self, name: u8) -> Option<i64>
        ensures { result ≡ attribute self.now.attrs name }
    {
        match &self.extras {
            Some(extras) => extras.attrs.get(name),
            None => None,
        }
    }
}
