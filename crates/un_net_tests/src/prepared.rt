//! Validations that are prepared in advance.
//!
//! As at a desk, what the tests do is written over any machine, and proved once without all that a network is.
ghost use Rattle.std.specs.Prelude.{◌≡◌, ◌∷◌, [], IfOk, IfSome};
ghost use Rattle.un_machine.specs.Logs.{answer_of, Leads, Since};

use crate::features::network;
use std::alloc::{AllocError, Global};
use std::test::*;
use std::thread::Threads;
use un_ask::{Command, Reply, Request};
use un_core::{Net, Prepared};
use un_geom::Rect;
use un_json::read_request;
use un_machine::{Applied, Entry, Machine};

const JOINT: &[u8] = b"{\"do\":\"insert\",\"kind\":\"joint\",\"points\":[[0,0,0]]}";

const PIPE: &[u8] = b"{\"do\":\"insert\",\"kind\":\"pipe\",\"points\":[[0,0,0],[10,0,0]]}";

const NEXT_PIPE: &[u8] = b"{\"do\":\"insert\",\"kind\":\"pipe\",\"points\":[[10,0,0],[20,0,0]]}";

const PIPE_BACK: &[u8] = b"{\"do\":\"insert\",\"kind\":\"pipe\",\"points\":[[0,0,0],[-1,0,0]]}";

const VALIDATE_FAR: &[u8] = b"{\"do\":\"validate\",\"extent\":[15,0,15,0]}";

const VALIDATE_ORIGIN: &[u8] = b"{\"do\":\"validate\",\"extent\":[0,0,0,0]}";

/// How many pipes meet at the origin, and how often one preparation is applied.
const MANY: u32 = 10_000;

/// What a validation answers: how many areas it cleared, how many errors there are under them, and the version.
type Validated = (u64, u64, u64);

/// A machine whose commands are read as requests, and whose validations can be prepared.
trait Preparing: Machine {
    ghost use Rattle.std.specs.Prelude.{IfOk};
    ghost use Rattle.std.specs.Thread.{IsSync};

    fn read(alloc: Global, text: &[u8]) -> Option<Self::Cmd>;

    /// Work for the validation of the rectangle.
    fn prepare_at<R: Threads + Sync>(
        &self,
        rt: &R,
        alloc: Global,
        extent: Rect,
    ) -> Result<Self::Hint, AllocError>
        requires { IsSync R.row }
        ensures { IfOk result (λ h. Self.prepared h self.now) };

    /// Whether the reply to a validation is this one.
    fn is_validated(reply: &Self::Reply, wanted: Validated) -> bool;
}

impl Preparing for Net {
    fn read(alloc: Global, text: &[u8]) -> Option<Command> {
        match read_request(alloc, text) {
            Ok(Request::Command(command)) => Some(command),
            _ => None,
        }
    }

    fn prepare_at<R: Threads + Sync>(
        &self,
        rt: &R,
        alloc: Global,
        extent: Rect,
    ) -> Result<Prepared, AllocError> {
        self.prepare(rt, alloc, extent)
    }

    fn is_validated(reply: &Reply, wanted: Validated) -> bool {
        match reply {
            Reply::Validated {
                cleared,
                errors,
                version,
            } => (*cleared, *errors, *version) == wanted,
            _ => false,
        }
    }
}

// The step of a command for which work may have been done before these entries.
fn apply<M: Machine>(
    alloc: Global,
    state: &M,
    cmd: &M::Cmd,
    prepared: Option<&M::Hint>,
    since: &[Entry<M>],
) -> Result<Applied<M>, AllocError>
    requires { IfSome prepared (λ h. Since M.step M.prepared h.now since.now state.now) }
    ensures { IfOk result (λ a. answer_of a ≡ M.step state.now cmd.now) }
{
    state.apply(alloc, cmd, prepared, since)
}

// The state after a command, and the command's entry in the log; or none if it is refused.
fn step<M: Machine>(
    alloc: Global,
    state: &M,
    cmd: M::Cmd,
    since: &[Entry<M>],
) -> Result<Option<(M, Entry<M>)>, AllocError>
    ensures { IfOk result (λ o. IfSome o (λ p. Leads M.step state.now (p.1 ∷ []) p.0)) }
{
    let unprepared: Option<M::Hint> = None;
    match apply(alloc, state, &cmd, unprepared.as_ref(), since)? {
        Applied::Done { next, reply, mark } => {
            let entry = Entry {
                session: 0,
                n: 1,
                cmd,
                reply,
                mark,
            };
            Ok(Some((next, entry)))
        }
        Applied::Refused { .. } => Ok(None),
    }
}

// Applies the command of a request, which is accepted.
fn step_by<M: Preparing>(alloc: Global, state: &M, text: &[u8]) -> Result<(M, Entry<M>), Fail>
    ensures { IfOk result (λ p. Leads M.step state.now (p.1 ∷ []) p.0) }
{
    let cmd = M::read(alloc, text).ok_or("request")?;
    let since = Vec::new(alloc);
    Ok(step(alloc, state, cmd, &since)?.ok_or("refused")?)
}

// The state after a validation for which work was done before these entries, if its reply is this one.
fn validate_after<M: Preparing>(
    alloc: Global,
    state: &M,
    cmd: &M::Cmd,
    prepared: &M::Hint,
    since: &[Entry<M>],
    wanted: Validated,
) -> Result<M, Fail>
    requires { Since M.step M.prepared prepared.now since.now state.now }
{
    match apply(alloc, state, cmd, Some(prepared), since)? {
        Applied::Done { next, reply, .. } => {
            if M::is_validated(&reply, wanted) {
                Ok(next)
            } else {
                Err(Fail::from("reply"))
            }
        }
        Applied::Refused { .. } => Err(Fail::from("refused")),
    }
}

// The whole numbers are sides of a rectangle.
fn extent(x: i64) -> Result<Rect, Fail> {
    Ok(Rect::new(0, 0, x, 0).ok_or("extent")?)
}

// A validation that was prepared before another pipe came and its far end was validated. The next pipe meets the first one at (10,0,0), where
// no junction stands: a star from before it would have no error.
fn validate_stale<M: Preparing, R: Threads + Sync>(
    rt: &R,
    alloc: Global,
    opening: &M,
) -> Result<(), Fail> {
    let (one, _) = step_by(alloc, opening, JOINT)?;
    let (two, _) = step_by(alloc, &one, PIPE)?;
    let prepared = two.prepare_at(rt, alloc, extent(5)?)?;
    let (three, pipe) = step_by(alloc, &two, NEXT_PIPE)?;
    let (four, validation) = step_by(alloc, &three, VALIDATE_FAR)?;
    if !M::is_validated(&validation.reply, (1, 2, 4)) {
        return Err(Fail::from("far end"));
    }
    let mut since = Vec::with_capacity(alloc, 2)?;
    since.push(pipe)?;
    since.push(validation)?;
    let origin = M::read(alloc, VALIDATE_ORIGIN).ok_or("request")?;
    validate_after(alloc, &four, &origin, &prepared, &since, (2, 2, 5))?;
    Ok(())
}

#[test]
fn a_stale_star_is_built_anew(rt: HostRuntime) -> Result<(), Fail> {
    let opening = network(rt.alloc())?;
    validate_stale(&rt, rt.alloc(), &opening)
}

// A state with a pipe more, from the origin to a place of its own.
fn with_pipe<M: Preparing>(alloc: Global, state: &M, i: u32) -> Result<M, Fail> {
    let (x, y) = (i, (MANY + 1).saturating_sub(i));
    let text = format!(in alloc;
        "{{\"do\":\"insert\",\"kind\":\"pipe\",\"points\":[[0,0,0],[{x},{y},0]]}}"
    )?;
    Ok(step_by(alloc, state, text.as_bytes())?.0)
}

// A joint at the origin, and many pipes that end there.
fn with_many_pipes<M: Preparing>(alloc: Global, opening: &M) -> Result<M, Fail> {
    let mut state = step_by(alloc, opening, JOINT)?.0;
    for i in 1..=MANY {
        state = with_pipe(alloc, &state, i)?;
    }
    Ok(state)
}

// Applies one prepared validation many times to one state, and keeps each state that it makes.
fn validate_many<M: Preparing>(
    alloc: Global,
    state: &M,
    cmd: &M::Cmd,
    prepared: &M::Hint,
) -> Result<Vec<M>, Fail>
    requires { M.prepared prepared.now state.now }
{
    let since = Vec::new(alloc);
    let mut kept = Vec::new(alloc);
    for _ in 0..MANY {
        kept.push(validate_after(alloc, state, cmd, prepared, &since, (1, 0, 10_004))?)?;
    }
    Ok(kept)
}

// How many states share the star that was prepared once.
fn share_star<M: Preparing, R: Threads + Sync>(
    rt: &R,
    alloc: Global,
    opening: &M,
) -> Result<usize, Fail> {
    let state = with_many_pipes(alloc, opening)?;
    let (state, _) = step_by(alloc, &state, VALIDATE_ORIGIN)?;
    let (state, _) = step_by(alloc, &state, PIPE_BACK)?;
    let origin = M::read(alloc, VALIDATE_ORIGIN).ok_or("request")?;
    let prepared = state.prepare_at(rt, alloc, extent(0)?)?;
    Ok(validate_many(alloc, &state, &origin, &prepared)?.len())
}

// The star at the origin has 30,003 links of some 32 bytes each. If each of the states had built it anew, they would hold over 9 GB.
#[test]
fn a_prepared_star_is_shared(rt: HostRuntime) -> Result<(), Fail> {
    let opening = network(rt.alloc())?;
    assert_eq!(rt; share_star(&rt, rt.alloc(), &opening)?, 10_000);
    Ok(())
}
