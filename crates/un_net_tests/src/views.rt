//! A view that a session keeps while another one commits.
ghost use Rattle.std.specs.Prelude.{◌≡◌, ◌∷◌, []};

use crate::features::{FeatureMachine, network};
use std::alloc::Global;
use std::marker::Brand;
use std::process::Abort;
use std::sync::Wait;
use std::test::*;
use un_core::Net;
use un_desk::desk::Desk;
use un_machine::Entry;
use un_publish::prefix::NewLog;
use un_publish::published::BoardName;
use un_publish::session::{Session, SessionFault, View};

#[test]
fn a_kept_view_stays_empty(rt: HostRuntime) -> Result<(), Fail> {
    let net = network(rt.alloc())?;
    keep_a_view::<Net, Brand, _>(&rt, rt.alloc(), NewLog::new(), net)
}

fn keep_a_view<M: FeatureMachine, J: BoardName<M>, R: Wait + Abort>(
    rt: &R,
    alloc: Global,
    new_log: NewLog<Entry<M>>,
    state: M,
) -> Result<(), Fail>
    requires book { new_log.seen.book ≡ J.book }
    requires opening { J.opening ≡ state ∷ [] }
{
    let Ok((desk, mut sessions)) = Desk::<M, J>::open(rt, alloc, new_log, state, 2) else {
        return Err(Fail::from("open"));
    };
    let (Some(mut reader), Some(mut editor)) = (sessions.pop(), sessions.pop()) else {
        desk.close(rt);
        return Err(Fail::from("sessions"));
    };
    let kept = reader.read();
    let accepted = insert_many(rt, alloc, &desk, &mut editor);
    let last = reader.read();
    desk.close(rt);
    assert_eq!(rt; accepted, 1000);
    check_view(rt, kept, 0);
    check_view(rt, last, 1000);
    Ok(())
}

// Submits 1,000 inserts. Answers how many were accepted.
fn insert_many<M: FeatureMachine, J: BoardName<M>, R: Wait>(
    rt: &R,
    alloc: Global,
    desk: &Desk<M, J>,
    editor: &mut Session<M, J>,
) -> u64 {
    let mut accepted = 0u64;
    for _ in 0..1000u32 {
        if let Some(insert) = M::insert(alloc)
            && desk
                .submit(rt, alloc, editor, insert)
                .is_ok_and(|receipt| receipt.accepted)
        {
            accepted = accepted.saturating_add(1);
        }
    }
    accepted
}

// The view is at the version, and each entry of the log before it inserted a feature.
fn check_view<M: FeatureMachine, R: Abort>(
    rt: &R,
    view: Result<View<M>, SessionFault>,
    version: u64,
) {
    assert!(rt;
        view.is_ok_and(|view| view.version == version && view.state.feature_count() == version)
    );
}
