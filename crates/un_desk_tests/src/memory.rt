//! What stands after a call for which memory ran out: every later reply is as it would be. Tests elsewhere have ample memory; this one
//! also passes where any one allocation is refused.
ghost use Rattle.std.specs.Prelude.{◌≡◌, ◌∷◌, []};
ghost use Rattle.un_asof.specs.Pasts.{StandsFor};

use crate::counter::Counter;
use std::alloc::Global;
use std::marker::Brand;
use std::process::Abort;
use std::sync::Wait;
use std::test::*;
use un_asof::Past;
use un_desk::desk::Desk;
use un_journal::receipt::Receipt;
use un_machine::{Entry, Machine};
use un_publish::prefix::NewLog;
use un_publish::published::BoardName;
use un_publish::session::Session;

#[test]
fn replies_stay_where_memory_ran_out(rt: HostRuntime) -> Result<(), Fail> {
    let alloc = rt.alloc();
    if serve::<Brand, _>(&rt, alloc, NewLog::new()) || serve_again(&rt, alloc) {
        return Ok(());
    }
    Err(Fail::from("open"))
}

// A second opening, for where the first one had no memory.
fn serve_again<R: Wait + Abort>(rt: &R, alloc: Global) -> bool {
    serve::<Brand, _>(rt, alloc, NewLog::new())
}

// Whether a desk could be opened and a past started. Each call after that is made until it has an answer, but twice at most.
fn serve<J: BoardName<Counter>, R: Wait + Abort>(
    rt: &R,
    alloc: Global,
    new_log: NewLog<Entry<Counter>>,
) -> bool
    requires book { new_log.seen.book ≡ J.book }
    requires opening { J.opening ≡ record { total = 0 } ∷ [] }
{
    let Ok((desk, mut sessions)) = Desk::<Counter, J>::open(
        rt,
        alloc,
        new_log,
        Counter { total: 0 },
        2,
    ) else {
        return false;
    };
    let (Some(mut one), Some(mut zero), Ok(mut past)) = (
        sessions.pop(),
        sessions.pop(),
        desk.start_past(alloc),
    ) else {
        desk.close(rt);
        return false;
    };
    submit_many(rt, alloc, &desk, &mut zero);
    submit_last(rt, alloc, &desk, &mut zero, &mut one);
    look_back(rt, alloc, &desk, &mut one, &mut past);
    check_both(rt, &desk, &mut zero, &mut one);
    desk.close(rt);
    true
}

fn submit_at_last<J: BoardName<Counter>, R: Wait>(
    rt: &R,
    alloc: Global,
    desk: &Desk<Counter, J>,
    session: &mut Session<Counter, J>,
    cmd: u64,
) -> Option<Receipt<Counter>> {
    match desk.submit(rt, alloc, session, cmd) {
        Ok(receipt) => Some(receipt),
        Err(_) => desk.submit(rt, alloc, session, cmd).ok(),
    }
}

// 69 commands of 1, each of which is accepted once.
fn submit_many<J: BoardName<Counter>, R: Wait + Abort>(
    rt: &R,
    alloc: Global,
    desk: &Desk<Counter, J>,
    session: &mut Session<Counter, J>,
) {
    for total in 1..70u64 {
        let receipt = submit_at_last(rt, alloc, desk, session, 1);
        assert!(rt; receipt.is_some_and(|r| r.version == total && r.accepted && r.reply == total));
        let view = session.read();
        assert!(rt; view.is_ok_and(|v| v.version == total && v.state.total == total));
    }
}

// After a total of 69, one more than fits from a session that has seen nothing yet, and what fits.
fn submit_last<J: BoardName<Counter>, R: Wait + Abort>(
    rt: &R,
    alloc: Global,
    desk: &Desk<Counter, J>,
    zero: &mut Session<Counter, J>,
    one: &mut Session<Counter, J>,
) {
    let refused = submit_at_last(rt, alloc, desk, one, 32);
    assert!(rt; refused.is_some_and(|r| r.version == 69 && !r.accepted && r.reply == 69));
    let last = submit_at_last(rt, alloc, desk, zero, 31);
    assert!(rt; last.is_some_and(|r| r.version == 70 && r.accepted && r.reply == 100));
}

// Version 69 takes two rounds of steps from the opening state. The state after the first round is kept too, so that none of its
// steps is made again.
fn look_back<J: BoardName<Counter>, R: Wait + Abort>(
    rt: &R,
    alloc: Global,
    desk: &Desk<Counter, J>,
    session: &mut Session<Counter, J>,
    past: &mut Past<Counter, J>,
)
    requires { StandsFor ⟦<Counter as Machine>⟧.step J.opening past.old session.old.seen }
{
    let view = match desk.past(rt, alloc, session, past, 69) {
        Ok(view) => Ok(view),
        Err(_) => desk.past(rt, alloc, session, past, 69),
    };
    assert!(rt; view.is_ok_and(|v| v.version == 69 && v.state.total == 69));
    assert_eq!(rt; (past.near(68).0, past.near(70).0), (64, 69));
}

fn check_both<J: BoardName<Counter>, R: Wait + Abort>(
    rt: &R,
    desk: &Desk<Counter, J>,
    zero: &mut Session<Counter, J>,
    one: &mut Session<Counter, J>,
) {
    let view = desk.read_at_least(rt, one, 70);
    assert!(rt; view.is_ok_and(|v| v.version == 70 && v.state.total == 100));
    assert!(rt; desk.meet(rt, zero, one).is_ok());
    assert_eq!(rt; (zero.seen(), one.seen()), (70, 70));
    assert_eq!(rt; (zero.own(), one.own()), (70, 0));
    assert_eq!(rt; (zero.denied(), one.denied()), (0, 0));
}
