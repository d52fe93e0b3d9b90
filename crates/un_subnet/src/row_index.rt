//! The keys under which the stored rows are looked up: the name of the subnetwork, and the points.
//!
//! A key is a subject and the number of a row that it concerns. The keys stand in an ordered map, so those of one subject stand in one run, by
//! rising number. Of a name the map keeps a hash alone: whether a row is of the subnetwork says its own name. Names with the same hash share a
//! run, and cost a look-up of a row each.

ghost use Rattle.std.specs.Prelude.{◌≡◌, ◌++◌, not, ◌==◌, ◌&&◌, ◌||◌, OnOk};
ghost use Rattle.un_subnet.specs.RowIndex.{mixed, name_hash, subnet_subject, same_subject, same_key, has_key, concerns, numbers_at};

use std::alloc::{AllocError, Global};
use std::ops::Bound;
use std::sync::Arc;
use un_ask::StoredSubnet;
use un_geom::Point;
use un_pages::Paged;
use un_schema::Name;

/// What concerns a stored row.
#[derive(Clone, Copy, Debug, PartialEq, Eq, PartialOrd, Ord)]
pub(crate) enum Subject {
    /// Its subnetwork, by a hash of the tier and the name.
    Subnet(u64),
    /// One of its points.
    At(Point),
}

/// A subject, and the number of a row that it concerns.
#[derive(Clone, Copy, Debug, PartialEq, Eq, PartialOrd, Ord)]
pub(crate) struct Key {
    pub(crate) subject: Subject,
    pub(crate) number: u64,
}

/// A hash with one more byte.
fn mixed(hash: u64, byte: u8) -> u64
    ensures { result ≡ mixed hash byte }
{
    hash.wrapping_mul(1_099_511_628_211)
        .wrapping_add(u64::from(byte))
}

/// The hash of a subnetwork's tier and name.
fn name_hash(tier: u8, subnet: &Name) -> u64
    ensures { result ≡ name_hash tier subnet.now }
{
    let mut hash = u64::from(tier);
    for byte in subnet.text().as_bytes() {
        hash = mixed(hash, *byte);
    }
    hash
}

impl Subject {
    /// The subject of a subnetwork, which others with the same hash share.
    pub(crate) fn of_subnet(tier: u8, subnet: &Name) -> Subject
        ensures { result ≡ subnet_subject tier subnet.now }
    {
        Subject::Subnet(name_hash(tier, subnet))
    }
}

fn put_key(
    alloc: Global,
    keys: &mut Paged<Key, ()>,
    key: Key,
    unit: &Arc<()>,
) -> Result<(), AllocError>
    ensures { OnOk result ((q : Key) → has_key q keys.new ≡ (same_key q key || has_key q keys.old)) }
{
    keys.put(alloc, key, Arc::try_clone(unit)?)?;
    Ok(())
}

fn take_key(alloc: Global, keys: &mut Paged<Key, ()>, key: Key) -> Result<(), AllocError>
    ensures { OnOk result ((q : Key) → has_key q keys.new ≡ (not (same_key q key) && has_key q keys.old)) }
{
    // For the proof alone.
    let _len = keys.len();
    keys.take(alloc, &key)?;
    Ok(())
}

/// Adds the keys of a row. Those of one update share what they hold, which is nothing.
pub(crate) fn put_keys(
    alloc: Global,
    keys: &mut Paged<Key, ()>,
    number: u64,
    row: &StoredSubnet,
) -> Result<(), AllocError>
    ensures { OnOk result ((q : Key) → has_key q keys.new
        ≡ ((q.number == number && concerns q.subject row.now) || has_key q keys.old)) }
{
    let unit = Arc::new(alloc, ())?;
    let subject = Subject::of_subnet(row.tier, &row.subnet);
    put_key(alloc, keys, Key { subject, number }, &unit)?;
    for point in row.points.as_slice() {
        let subject = Subject::At(*point);
        put_key(alloc, keys, Key { subject, number }, &unit)?;
    }
    Ok(())
}

/// Takes the keys of a row out.
pub(crate) fn take_keys(
    alloc: Global,
    keys: &mut Paged<Key, ()>,
    number: u64,
    row: &StoredSubnet,
) -> Result<(), AllocError>
    ensures { OnOk result ((q : Key) → has_key q keys.new
        ≡ (not (q.number == number && concerns q.subject row.now) && has_key q keys.old)) }
{
    let subject = Subject::of_subnet(row.tier, &row.subnet);
    take_key(alloc, keys, Key { subject, number })?;
    for point in row.points.as_slice() {
        let subject = Subject::At(*point);
        take_key(alloc, keys, Key { subject, number })?;
    }
    Ok(())
}

impl Key {
    /// Whether the subject is this one.
    pub(crate) fn is_under(self, subject: Subject) -> bool
        ensures { result ≡ same_subject subject self.subject }
    {
        subject == self.subject
    }
}

/// Where the keys of a subject begin.
pub(crate) fn first_key(subject: Subject) -> Bound<Key>
    ensures { result ≡ Bound.Included (record { subject = subject; number = 0 }) }
{
    Bound::Included(Key { subject, number: 0 })
}

/// Adds the numbers of the rows that a subject concerns, rising.
pub(crate) fn push_numbers(
    keys: &Paged<Key, ()>,
    subject: Subject,
    numbers: &mut Vec<u64>,
) -> Result<(), AllocError>
    ensures { OnOk result (numbers.new.items ≡ numbers.old.items ++ numbers_at keys.now subject) }
{
    // For the proof alone.
    let _len = keys.len();
    for (key, _) in keys.range(first_key(subject)) {
        if !key.is_under(subject) {
            break;
        }
        numbers.push(key.number)?;
    }
    Ok(())
}
