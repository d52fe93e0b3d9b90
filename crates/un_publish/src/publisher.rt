//! A writer to which each new value is handed over whole.
//!
//! `left_right` keeps two copies of a value and a list of operations that the spare copy lacks. Here an operation is a
//! whole new value, so the last one counts, and once it is published readers find exactly the value handed over.
//! To tell a reader what the writer has seen, a new place is made for that reader: a place that was just made is known
//! to belong to this writer, while one that has been used is not.
ghost use Rattle.std.specs.Prelude.{◌≡◌, IfOk, IfSome, IfNone, MatchResult};
ghost use Rattle.left_right.specs.Sides.{view};
ghost use Rattle.left_right.specs.Register.{Admits};
ghost use Rattle.un_publish.specs.Places.{MayShow, MayTell, MayLearn};

use crate::published::Snapshot;
use atomic_table::{Join, Split};
use core::mem::replace_with;
use crossbeam_utils::rule::{Outcome, Protocol};
use left_right::reader::Reader;
use left_right::writer::Writer;
use std::alloc::AllocError;
use std::sync::Wait;

pub(crate) type Publisher<T, V, P> = Writer<T, T, V, P>;

// Publishes `next`, which readers then find. On an error they still find the old value.
pub(crate) fn publish_whole<T: Snapshot, V, P: Protocol<T, V>, L: Outcome<T, V>, R: Wait>(
    writer: Publisher<T, V, P>,
    rt: &R,
    next: T,
) -> (Publisher<T, V, P>, Result<(), AllocError>)
    requires { MayShow P.holds writer.desk.place writer.desk.shown.value next L.then }
    ensures { MatchResult result.1
        (λ _. (result.0.desk.shown.value ≡ next)
        × L.then (view writer.desk.place) writer.desk.shown.value next (view result.0.desk.place))
        (λ _. (result.0.desk.shown.value ≡ writer.desk.shown.value)
        × (view result.0.desk.place ≡ view writer.desk.place)) }
{
    let mut writer = writer;
    if writer.append(next).is_err() {
        return (writer, Err(AllocError));
    }
    match writer.publish_as::<L, R>(rt) {
        (writer, Ok(())) => (writer, Ok(())),
        (writer, Err(_)) => (writer, Err(AllocError)),
    }
}

// Publishes `next`, and ends the writer on an error. It waits for readers.
pub(crate) fn publish_or_end<T: Snapshot, V, P: Protocol<T, V>, L: Outcome<T, V>, R: Wait>(
    writer: Publisher<T, V, P>,
    rt: &R,
    next: T,
) -> Result<Publisher<T, V, P>, AllocError>
    requires { MayShow P.holds writer.desk.place writer.desk.shown.value next L.then }
    ensures { IfOk result (λ w. (w.desk.shown.value ≡ next)
        × L.then (view writer.desk.place) writer.desk.shown.value next (view w.desk.place)) }
{
    let (writer, published) = publish_whole::<T, V, P, L, R>(writer, rt, next);
    if published.is_err() {
        drop(writer.take(rt));
        return Err(AllocError);
    }
    Ok(writer)
}

// The same as `publish_whole`, in place.
pub(crate) fn publish_whole_in<T: Snapshot, V, P: Protocol<T, V>, L: Outcome<T, V>, R: Wait>(
    writer: &mut Publisher<T, V, P>,
    rt: &R,
    next: T,
) -> Result<(), AllocError>
    requires { MayShow P.holds writer.old.desk.place writer.old.desk.shown.value next L.then }
    ensures { MatchResult result
        (λ _. (writer.new.desk.shown.value ≡ next)
        × L.then (view writer.old.desk.place) writer.old.desk.shown.value next
        (view writer.new.desk.place))
        (λ _. (writer.new.desk.shown.value ≡ writer.old.desk.shown.value)
        × (view writer.new.desk.place ≡ view writer.old.desk.place)) }
{
    replace_with(
        writer,
        next,
        |writer, next| publish_whole::<T, V, P, L, R>(writer, rt, next),
    )
}

// A new reader that has learned what the writer tells, or `None` if every place is in use.
pub(crate) fn informed_reader<T: Snapshot, V, P: Protocol<T, V>, N: Split<V> + Join<V>>(
    writer: &mut Publisher<T, V, P>,
) -> Option<Reader<T, V, P>>
    requires admits { Admits P.holds P.first }
    requires tells { MayTell P.holds writer.old.desk.place N.left N.right }
    requires learns { MayLearn P.holds P.first (N.right (view writer.old.desk.place)) N.both N.spent }
    ensures informed { IfSome result (λ r.
        view r.place ≡ N.both P.first (N.right (view writer.old.desk.place))) }
    ensures shown { IfSome result (λ _. writer.new.desk.shown.value ≡ writer.old.desk.shown.value) }
    ensures kept { IfSome result (λ _.
        view writer.new.desk.place ≡ N.left (view writer.old.desk.place)) }
    ensures none { IfNone result (writer.new ≡ writer.old) }
{
    let mut reader = writer.factory().reader().ok()?;
    reader.learn::<N>(writer.tell::<N>());
    Some(reader)
}

// The same, but waits while every place is in use.
pub(crate) fn informed_reader_at_last<
    T: Snapshot,
    V,
    P: Protocol<T, V>,
    N: Split<V> + Join<V>,
    R: Wait,
>(writer: &mut Publisher<T, V, P>, rt: &R) -> Reader<T, V, P>
    requires admits { Admits P.holds P.first }
    requires tells { MayTell P.holds writer.old.desk.place N.left N.right }
    requires learns { MayLearn P.holds P.first (N.right (view writer.old.desk.place)) N.both N.spent }
    ensures informed { view result.place ≡ N.both P.first (N.right (view writer.old.desk.place)) }
    ensures shown { writer.new.desk.shown.value ≡ writer.old.desk.shown.value }
    ensures kept { view writer.new.desk.place ≡ N.left (view writer.old.desk.place) }
{
    for _ in rt.forever() {
        if let Some(reader) = informed_reader::<T, V, P, N>(writer) {
            return reader;
        }
    }
    unreachable!()
}
