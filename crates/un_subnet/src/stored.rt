//! The stored rows of subnetworks.
//!
//! # What is to be found
//!
//! The rows stand in the order of their updates. Asked for is the row of a subnetwork. An update puts a row in place of that of its
//! subnetwork, behind all others. A validation makes each row dirty that a star concerns which it has changed.
//!
//! # How it is found
//!
//! The rows stand in an ordered map on shared pages, by a number that rises from update to update. A second map holds a key for each row and
//! each subject that concerns it: its subnetwork and its points (`row_index`). A look-up goes over the keys of the name to the first row of
//! that name. An update takes the old row and its keys out, and puts the new ones in. A validation looks up the rows at each point that has
//! changed, and those of the subnetwork of each controller that a changed star had or has, and makes them dirty (`marking`).
//!
//! # Why that is enough
//!
//! The keys are those that the rows tell, and no others. A row becomes dirty by a change at one of its points or of a controller of its
//! subnetwork, so it has a key under what has changed. Each new row has the greatest number, so the order of the numbers is that of the updates.
//!
//! # What it costs
//!
//! A look-up takes time by the logarithm of the count of keys, and so does each key that is put in or taken out. An update has one for the
//! subnetwork and one for each point of the old row and of the new one. A validation takes such a look-up for each point that has changed and
//! each controller, and a step and a look-up of a row for each row that it finds. The first change of a page copies it, with the nodes on the
//! way to it; later ones of the same call are made in place; all other pages are shared with the rows before. A key takes some 32 bytes.

ghost use Rattle.std.specs.Prelude.{◌≡◌, ◌<◌, ◌∷◌, ◌++◌, [], map, length, IfOk, OnOk, IfSome};
ghost use Rattle.std.specs.List.{AllByRecursion};
ghost use Rattle.std.specs.List.Sorted.{IsStrictlySortedBy};
ghost use Rattle.std.specs.BTreeMap.{is_at};
ghost use Rattle.std.specs.Map.{values_of, remove_entry};
ghost use Rattle.std.specs.Ordering.{nat_cmp};
ghost use Rattle.std.specs.Option.{option_map};
ghost use Rattle.un_geom.specs.Places.{point_cmp};
ghost use Rattle.un_subnet.specs.Outcome.{has_row, other_rows};
ghost use Rattle.un_subnet.specs.Stored.{row_for, under, with_row, marked, AreOrdered};
ghost use Rattle.un_subnet.specs.RowIndex.{IsIndex, found_row, others_in};

use crate::changes::StarChanges;
use crate::entry::Entry;
use crate::marking::{changed_numbers, mark_all};
use crate::row_index::{Key, Subject, first_key, put_keys, take_keys};
use std::alloc::{AllocError, Global};
use std::marker::Model;
use std::sync::Arc;
use un_ask::{Status, StoredSubnet};
use un_pages::Paged;
use un_schema::Name;

/// The first row of a subnetwork, and its number.
fn found_row<'a>(
    rows: &'a Paged<u64, Entry>,
    keys: &Paged<Key, ()>,
    tier: u8,
    subnet: &Name,
) -> Option<(u64, &'a Entry)>
    requires { IsIndex rows.now keys.now }
    ensures { option_map (λ pair. (pair.0, pair.1.now)) result ≡ found_row rows.now tier subnet.now }
{
    // For the proof alone.
    let (_rows, _keys) = (rows.len(), keys.len());
    let subject = Subject::of_subnet(tier, subnet);
    for (key, _) in keys.range(first_key(subject)) {
        if !key.is_under(subject) {
            return None;
        }
        if let Some(entry) = rows.get(&key.number) {
            if entry.is_of(tier, subnet) {
                return Some((key.number, entry));
            }
        }
    }
    None
}

/// Takes a row and its keys out.
fn take_row(
    alloc: Global,
    rows: &mut Paged<u64, Entry>,
    keys: &mut Paged<Key, ()>,
    number: u64,
) -> Result<(), AllocError>
    requires { IsIndex rows.old keys.old }
    ensures rows { OnOk result (rows.new ≡ remove_entry (is_at (nat_cmp number)) rows.old) }
    ensures index { OnOk result (IsIndex rows.new keys.new) }
{
    // For the proof alone.
    let _len = rows.len();
    if let Some(entry) = rows.get(&number) {
        take_keys(alloc, keys, number, &entry.row)?;
    }
    rows.take(alloc, &number)?;
    Ok(())
}

/// Takes the rows of a subnetwork out.
fn take_rows_of(
    alloc: Global,
    rows: &mut Paged<u64, Entry>,
    keys: &mut Paged<Key, ()>,
    tier: u8,
    subnet: &Name,
) -> Result<(), AllocError>
    requires { IsIndex rows.old keys.old }
    ensures rows { OnOk result (rows.new ≡ others_in rows.old tier subnet.now) }
    ensures index { OnOk result (IsIndex rows.new keys.new) }
{
    while let Some((number, _)) = found_row(rows, keys, tier, subnet) {
        // For the proof alone.
        let _len = rows.len();
        take_row(alloc, rows, keys, number)?;
    }
    Ok(())
}

/// Adds a row behind all others.
fn add_row(
    alloc: Global,
    rows: &mut Paged<u64, Entry>,
    keys: &mut Paged<Key, ()>,
    number: u64,
    row: StoredSubnet,
) -> Result<(), AllocError>
    requires index { IsIndex rows.old keys.old }
    requires below { AllByRecursion (λ e. e.0 < number) rows.old }
    ensures rows { OnOk result (rows.new ≡ rows.old ++ (number, row) ∷ []) }
    ensures index { OnOk result (IsIndex rows.new keys.new) }
{
    put_keys(alloc, keys, number, &row)?;
    let entry = Entry::new(alloc, row)?;
    rows.put(alloc, number, Arc::new(alloc, entry)?)?;
    Ok(())
}

/// The stored rows, one for each subnetwork. They never change: each call that would change them gives new ones, which share what is stored.
#[derive(Drop)]
pub struct StoredRows {
    /// By a number that rises from update to update.
    rows: Paged<u64, Entry>,
    keys: Paged<Key, ()>,
    /// The number of the next row.
    next: u64,
}

impl Model for StoredRows {
    ghost use Rattle.std.specs.Prelude.{List};
    ghost use Rattle.std.specs.Map.{values_of};
    ghost use Rattle.un_ask.specs.declared.stored.StoredSubnet.{StoredSubnet};
    ghost use Rattle.un_subnet.specs.RowIndex.{AreKept};

    ghost Value = { List StoredSubnet };

    ghost view = { λ r. values_of r.rows };

    ghost invariant = { λ r. AreKept r.rows r.keys r.next };
}

impl StoredRows {
    /// No rows, which take no memory.
    pub fn new(_alloc: Global) -> Result<StoredRows, AllocError>
        ensures { IfOk result (λ rows. rows ≡ []) }
    {
        Ok(StoredRows {
            rows: Paged::new(),
            keys: Paged::new(),
            next: 0,
        })
    }

    /// How many there are.
    pub fn len(&self) -> usize
        ensures len { result ≡ length self.now }
        ensures ordered { AreOrdered self.now }
    {
        self.rows.len() as usize
    }

    /// Equal rows, which are shared.
    pub fn share(&self) -> Result<StoredRows, AllocError>
        ensures { IfOk result (λ rows. rows ≡ self.now) }
    {
        Ok(StoredRows {
            rows: self.rows.share()?,
            keys: self.keys.share()?,
            next: self.next,
        })
    }

    /// Whether there is a row of the subnetwork.
    pub fn has(&self, tier: u8, subnet: &Name) -> bool
        ensures { result ≡ has_row self.now tier subnet.now }
    {
        found_row(&self.rows, &self.keys, tier, subnet).is_some()
    }

    /// The row of a subnetwork, with the status that it has now.
    pub fn get(&self, tier: u8, subnet: &Name) -> Option<(&StoredSubnet, Status)>
        ensures { option_map (λ pair. under (pair.0.now, pair.1)) result ≡ row_for self.now tier subnet.now }
    {
        let (_, entry) = found_row(&self.rows, &self.keys, tier, subnet)?;
        Some((&entry.row, entry.status))
    }

    /// The rows of other subnetworks.
    fn others(&self, alloc: Global, tier: u8, subnet: &Name) -> Result<StoredRows, AllocError>
        ensures { IfOk result (λ rows. rows ≡ other_rows self.now tier subnet.now) }
    {
        let mut rows = self.rows.share()?;
        let mut keys = self.keys.share()?;
        take_rows_of(alloc, &mut rows, &mut keys, tier, subnet)?;
        Ok(StoredRows {
            rows,
            keys,
            next: self.next,
        })
    }

    /// The rows with this one behind them. Where the numbers are used up, there is no room for it.
    fn added(self, alloc: Global, row: StoredSubnet) -> Result<StoredRows, AllocError>
        requires { IsStrictlySortedBy point_cmp row.points }
        ensures { IfOk result (λ rows. rows ≡ self ++ row ∷ []) }
    {
        let StoredRows {
            mut rows,
            mut keys,
            next: number,
        } = self;
        let next = number.checked_add(1).ok_or(AllocError)?;
        add_row(alloc, &mut rows, &mut keys, number, row)?;
        Ok(StoredRows { rows, keys, next })
    }

    /// The rows with this one in place of that of a subnetwork, or without it. The points of a row are in order.
    pub fn with(
        &self,
        alloc: Global,
        tier: u8,
        subnet: &Name,
        row: Option<StoredSubnet>,
    ) -> Result<StoredRows, AllocError>
        requires { IfSome row (λ row. IsStrictlySortedBy point_cmp row.points) }
        ensures { IfOk result (λ rows. rows ≡ with_row self.now tier subnet.now row) }
    {
        let others = self.others(alloc, tier, subnet)?;
        match row {
            Some(row) => others.added(alloc, row),
            None => Ok(others),
        }
    }

    /// The rows once stars have changed: each that this concerns is dirty.
    pub fn marked(&self, alloc: Global, changes: &StarChanges<'_>) -> Result<StoredRows, AllocError>
        ensures { IfOk result (λ rows. rows ≡ map (marked changes.now) self.now) }
    {
        // For the proof alone.
        let (_rows, _keys) = (self.rows.len(), self.keys.len());
        let numbers = changed_numbers(alloc, &self.rows, &self.keys, changes)?;
        let mut rows = self.rows.share()?;
        let keys = self.keys.share()?;
        mark_all(alloc, &mut rows, &numbers)?;
        Ok(StoredRows {
            rows,
            keys,
            next: self.next,
        })
    }
}
