//! Two sessions at the desk of one network, on two threads.
ghost use Rattle.std.specs.Prelude.{◌≡◌, ◌∷◌, []};

use crate::features::{FeatureMachine, network};
use std::alloc::Global;
use std::marker::Brand;
use std::process::Abort;
use std::sync::Wait;
use std::test::*;
use std::thread::{Threads, join};
use un_core::Net;
use un_desk::desk::{Desk, ViewFault};
use un_machine::{Entry, Machine};
use un_publish::prefix::NewLog;
use un_publish::published::BoardName;
use un_publish::session::Session;

/// A session, and what its thread did.
#[derive(Drop)]
struct Worker<M: Machine, J: BoardName<M>> {
    session: Session<M, J>,
    /// The ids in its receipts.
    ids: Vec<u64>,
    /// The versions of its receipts.
    versions: Vec<u64>,
    /// How many of its reads were at the version of the receipt before them, or later.
    late_reads: u64,
}

impl<M: FeatureMachine, J: BoardName<M>> Worker<M, J> {
    fn new(alloc: Global, session: Session<M, J>) -> Worker<M, J> {
        Worker {
            session,
            ids: Vec::new(alloc),
            versions: Vec::new(alloc),
            late_reads: 0,
        }
    }
}

// Submits an insert, and reads after it.
fn submit_one<M: FeatureMachine, J: BoardName<M>, R: Wait>(
    rt: &R,
    alloc: Global,
    desk: &Desk<M, J>,
    worker: &mut Worker<M, J>,
) {
    let Some(insert) = M::insert(alloc) else {
        return;
    };
    let Ok(receipt) = desk.submit(rt, alloc, &mut worker.session, insert) else {
        return;
    };
    if let Some(id) = M::edited_id(&receipt.reply) {
        let _ = worker.ids.push(id);
    }
    let _ = worker.versions.push(receipt.version);
    if worker
        .session
        .read()
        .is_ok_and(|view| view.version >= receipt.version)
    {
        worker.late_reads = worker.late_reads.saturating_add(1);
    }
}

// Submits 200 inserts, and reads after each.
fn submit_many<M: FeatureMachine, J: BoardName<M>, R: Wait>(
    rt: &R,
    alloc: Global,
    desk: &Desk<M, J>,
    session: Session<M, J>,
) -> Worker<M, J> {
    let mut worker = Worker::new(alloc, session);
    for _ in 0..200u32 {
        submit_one(rt, alloc, desk, &mut worker);
    }
    worker
}

// Both sessions submit at once, each on a thread of its own.
fn submit_both<M: FeatureMachine, J: BoardName<M> + Send + Sync, R: Threads + Wait + Sync>(
    rt: &R,
    alloc: Global,
    desk: &Desk<M, J>,
    zero: Session<M, J>,
    one: Session<M, J>,
) -> (Worker<M, J>, Worker<M, J>) {
    join(
        rt,
        || submit_many(rt, alloc, desk, zero),
        || submit_many(rt, alloc, desk, one),
    )
}

#[test]
fn two_sessions_share_a_desk(rt: HostRuntime) -> Result<(), Fail> {
    let net = network(rt.alloc())?;
    share_a_desk::<Net, Brand, _>(&rt, rt.alloc(), NewLog::new(), net)
}

fn share_a_desk<M: FeatureMachine, J: BoardName<M> + Send + Sync, R: Threads + Wait + Abort + Sync>(
    rt: &R,
    alloc: Global,
    new_log: NewLog<Entry<M>>,
    state: M,
) -> Result<(), Fail>
    requires book { new_log.seen.book ≡ J.book }
    requires opening { J.opening ≡ state ∷ [] }
{
    let Ok((desk, mut sessions)) = Desk::<M, J>::open(rt, alloc, new_log, state, 2) else {
        return Err(Fail::from("open"));
    };
    let (Some(mut one), Some(mut zero)) = (sessions.pop(), sessions.pop()) else {
        desk.close(rt);
        return Err(Fail::from("sessions"));
    };
    insert_and_read(rt, alloc, &desk, &mut zero, &mut one);
    refuse_delete(rt, alloc, &desk, &mut one);
    let (zero, one) = submit_both(rt, alloc, &desk, zero, one);
    check_receipts(rt, alloc, &zero, &one);
    check_sessions(rt, &desk, zero, one);
    desk.close(rt);
    Ok(())
}

// Whether two entries were asked for of a log that had one.
fn is_ahead(fault: ViewFault) -> bool {
    match fault {
        ViewFault::Ahead(ahead) => ahead.seen() == 2 && ahead.latest() == 1,
        ViewFault::Denied(_denied) => false,
        ViewFault::Memory => false,
    }
}

// An accepted insert, a read ahead of the log and one within it.
fn insert_and_read<M: FeatureMachine, J: BoardName<M>, R: Wait + Abort>(
    rt: &R,
    alloc: Global,
    desk: &Desk<M, J>,
    zero: &mut Session<M, J>,
    one: &mut Session<M, J>,
) {
    let Some(insert) = M::insert(alloc) else {
        return assert!(rt; false);
    };
    let first = desk.submit(rt, alloc, zero, insert);
    assert!(rt;
        first.is_ok_and(|r| r.version == 1 && r.accepted && M::edited_id(&r.reply) == Some(1))
    );
    let short = desk.read_at_least(rt, one, 2);
    assert!(rt; short.is_err_and(|fault| is_ahead(fault)));
    let view = desk.read_at_least(rt, one, 1);
    assert!(rt; view.is_ok_and(|v| v.version == 1));
}

// A refused delete.
fn refuse_delete<M: FeatureMachine, J: BoardName<M>, R: Wait + Abort>(
    rt: &R,
    alloc: Global,
    desk: &Desk<M, J>,
    one: &mut Session<M, J>,
) {
    let Some(delete) = M::delete_nine(alloc) else {
        return assert!(rt; false);
    };
    let refused = desk.submit(rt, alloc, one, delete);
    assert!(rt; refused.is_ok_and(|r| r.version == 1 && !r.accepted && M::finds_no_nine(&r.reply)));
}

// How many of the numbers are those of marks that were not set before; sets them.
fn mark(marks: &mut [bool], numbers: &[u64]) -> u64 {
    let mut count = 0u64;
    for number in numbers {
        if let Some(mark) = marks.get_mut(*number as usize)
            && !*mark
        {
            *mark = true;
            count = count.saturating_add(1);
        }
    }
    count
}

// The numbers 2 to 401 stand in the two lists, each once.
fn check_each_once<R: Abort>(rt: &R, alloc: Global, zero: &[u64], one: &[u64]) {
    assert_eq!(rt; (zero.len(), one.len()), (200, 200));
    let Ok(mut marks) = vec![in alloc; false; 402] else {
        return assert!(rt; false);
    };
    let zero_new = mark(&mut marks, zero);
    let one_new = mark(&mut marks, one);
    assert_eq!(rt; (zero_new, one_new), (200, 200));
    assert_eq!(rt; (marks.first(), marks.get(1)), (Some(&false), Some(&false)));
}

// Whether each number is greater than the one before it.
fn rises(numbers: &[u64]) -> bool {
    numbers.windows(2).all(|pair| pair[0] < pair[1])
}

// After 200 inserts of each, the ids 2 to 401 stand in one receipt each, and so do the versions.
fn check_receipts<M: FeatureMachine, J: BoardName<M>, R: Abort>(
    rt: &R,
    alloc: Global,
    zero: &Worker<M, J>,
    one: &Worker<M, J>,
) {
    check_each_once(rt, alloc, &zero.ids, &one.ids);
    check_each_once(rt, alloc, &zero.versions, &one.versions);
    assert!(rt; rises(&zero.versions) && rises(&one.versions));
    assert_eq!(rt; (zero.late_reads, one.late_reads), (200, 200));
}

// What the sessions count, and the last view.
fn check_sessions<M: FeatureMachine, J: BoardName<M>, R: Wait + Abort>(
    rt: &R,
    desk: &Desk<M, J>,
    zero: Worker<M, J>,
    one: Worker<M, J>,
) {
    let (mut zero, mut one) = (zero.session, one.session);
    assert!(rt; desk.meet(rt, &mut zero, &mut one).is_ok());
    assert_eq!(rt; (zero.seen(), one.seen()), (401, 401));
    assert_eq!(rt; (zero.own(), one.own()), (201, 200));
    assert_eq!(rt; (zero.denied(), one.denied()), (0, 0));
    assert_eq!(rt; (zero.waits(), one.waits()), (202, 204));
    let last = zero.read();
    assert!(rt; last.is_ok_and(|view| view.version == 401 && view.state.feature_count() == 401));
}
