//! Views at past versions.
//!
//! A caller that asks for past versions keeps a `Past` beside its session: a few states with their versions. A view at a
//! version is reached from the nearest of these states, by the steps of the entries between the two, which the journal
//! lends under its lock. So that others need not wait long for the lock, it is released after 64 steps and taken again.
//! Each state that is reached is kept in the past, so memory that runs out on the way costs no step twice.
ghost use Rattle.std.specs.Prelude.{◌≡◌, ◌≤◌, ◌<◌, ◌∷◌, [], length, IfOk, IfErr, OnOk};
ghost use mathlib.Core.List.{IsPrefix};
ghost use Rattle.std.specs.Arc.{arc_value};
ghost use Rattle.un_asof.specs.Pasts.{IsAfter, NearLaw, pair_of, StandsFor, StandsForAll};
ghost use Rattle.un_desk.specs.Desks.{SeesMore, counted};
ghost use Rattle.un_desk.specs.Pasts.{IsPastFault};

use crate::desk::Desk;
use std::alloc::{AllocError, Global};
use std::marker::{Model, PhantomData};
use std::sync::{Arc, Wait};
use un_asof::laws::{entries_lead_on, stands_for_longer, state_after_replay};
use un_asof::{Past, replay};
use un_journal::receipt::Ahead;
use un_machine::Machine;
use un_publish::published::{BoardName, Published, Snapshot};
use un_publish::session::{Denied, Session, View};

/// The most steps that are made under one taking of the lock.
const ROUND: u64 = 64;

/// Why a call returns no view of a past version.
#[derive(Drop)]
pub enum PastFault {
    /// The log has fewer entries than the version says. The session has then seen all of them.
    Ahead(Ahead),
    /// The session could not be taught: `NoCopy` or `Long`.
    Denied(Denied),
    Memory,
}

// The opening state of a board, with which each past begins. Contracts see the state.
#[derive(Drop)]
pub(crate) struct Opening<M: Machine, J: BoardName<M>> {
    state: Arc<M>,
    of: PhantomData<J>,
}

impl<M: Machine, J: BoardName<M>> Model for Opening<M, J> {
    ghost use Rattle.std.specs.Prelude.{◌≡◌, ◌∷◌, []};
    ghost use Rattle.std.specs.Arc.{arc_value};

    ghost Value = { M };

    ghost view = { λ o. arc_value o.state };

    ghost invariant = { λ o. J.opening ≡ arc_value o.state ∷ [] };
}

impl<M: Machine, J: BoardName<M>> Opening<M, J> {
    pub(crate) fn new(state: Arc<M>) -> Opening<M, J>
        requires { J.opening ≡ arc_value state ∷ [] }
        ensures { result ≡ arc_value state }
    {
        Opening {
            state,
            of: PhantomData,
        }
    }

    // The past that keeps this state alone.
    fn past(&self, alloc: Global) -> Result<Past<M, J>, AllocError>
        ensures opening { IfOk result (λ past. (o : M) × (J.opening ≡ o ∷ []) × (past ≡ (0, o) ∷ [])) }
        ensures stands { IfOk result (λ past. StandsForAll M.Hint M.step J.opening past) }
    {
        let Ok(state) = Arc::try_clone(&self.state) else {
            return Err(AllocError);
        };
        Past::new(alloc, state)
    }
}

// The kept state of the greatest version that isn't over `at`.
fn nearest<M: Machine, J: BoardName<M>>(past: &Past<M, J>, at: u64) -> Result<View<M>, AllocError>
    ensures below { IfOk result (λ v. v.version ≤ at) }
    ensures stands { IfOk result (λ v. NearLaw M.Hint M.step J.opening past.now (pair_of v)) }
{
    let (version, state) = past.near(at);
    let Ok(state) = Arc::try_clone(state) else {
        return Err(AllocError);
    };
    Ok(View { version, state })
}

impl<M: Machine, J: BoardName<M>> Desk<M, J>
where
    Published<M, J>: Snapshot<State = Published<M, J>>,
{
    /// The past that keeps the desk's opening state alone. It waits for nobody.
    pub fn start_past(&self, alloc: Global) -> Result<Past<M, J>, AllocError>
        ensures opening { IfOk result (λ past. (o : M) × (J.opening ≡ o ∷ []) × (past ≡ (0, o) ∷ [])) }
        ensures stands { IfOk result (λ past. StandsForAll M.Hint M.step J.opening past) }
    {
        self.opening.past(alloc)
    }

    /// The view at version `at`: the state after the first `at` entries of the log, all of which the session has then seen.
    /// It returns `Ahead` exactly if the log has fewer entries. The past is one that stands for what the session has seen, and
    /// it then stands for what the session has then seen, whatever is returned.
    ///
    /// At most 64 steps are made under one taking of the lock, and each state that is reached so is kept in the past. On
    /// `Memory` and `Denied` the past may keep more states, and the session may have seen more.
    pub fn past<R: Wait>(
        &self,
        rt: &R,
        alloc: Global,
        session: &mut Session<M, J>,
        past: &mut Past<M, J>,
        at: u64,
    ) -> Result<View<M>, PastFault>
        requires stands { StandsFor M.step J.opening past.old session.old.seen }
        ensures version { IfOk result (λ v. v.version ≡ at) }
        ensures state { IfOk result (λ v. IsAfter M.step J.opening session.new.seen (at, arc_value v.state)) }
        ensures kept { OnOk result (SeesMore (counted session.old) session.new) }
        ensures fault { IfErr result (IsPastFault (counted session.old) session.new at) }
        ensures seen { IsPrefix session.old.seen session.new.seen }
        ensures stands { StandsFor M.step J.opening past.new session.new.seen }
    {
        stands_for_longer::<M, J>();
        session.count_wait();
        self.catch_up(rt, session, at)?;
        let Ok(mut reached) = nearest(past, at) else {
            return Err(PastFault::Memory);
        };
        'rounds: while reached.version < at {
            reached = self.step_on(rt, alloc, session, past, reached, at)?;
        }
        Ok(reached)
    }

    // Lets the session see the whole log, and checks that it has at least `at` entries.
    fn catch_up<R: Wait>(
        &self,
        rt: &R,
        session: &mut Session<M, J>,
        at: u64,
    ) -> Result<(), PastFault>
        ensures within { OnOk result (at ≤ length session.new.seen) }
        ensures kept { OnOk result (SeesMore session.old session.new) }
        ensures fault { IfErr result (IsPastFault session.old session.new at) }
        ensures seen { IsPrefix session.old.seen session.new.seen }
    {
        let mut journal = self.journal.lock(rt);
        if let Err(denied) = journal.teach(session) {
            return Err(PastFault::Denied(denied));
        }
        if let Err(ahead) = journal.check_seen(at) {
            return Err(PastFault::Ahead(ahead));
        }
        Ok(())
    }

    // The state after at most 64 more entries, but no more than lead to version `at`. It is kept in the past.
    fn step_on<R: Wait>(
        &self,
        rt: &R,
        alloc: Global,
        session: &mut Session<M, J>,
        past: &mut Past<M, J>,
        from: View<M>,
        at: u64,
    ) -> Result<View<M>, PastFault>
        requires from { IsAfter M.step J.opening session.old.seen (pair_of from) }
        requires before { from.version < at }
        requires within { at ≤ length session.old.seen }
        requires stands { StandsFor M.step J.opening past.old session.old.seen }
        ensures state { IfOk result (λ v. IsAfter M.step J.opening session.new.seen (pair_of v)) }
        ensures nearer { IfOk result (λ v. (from.version < v.version) × (v.version ≤ at)) }
        ensures kept { OnOk result (SeesMore session.old session.new) }
        ensures fault { IfErr result (IsPastFault session.old session.new at) }
        ensures seen { IsPrefix session.old.seen session.new.seen }
        ensures stands { StandsFor M.step J.opening past.new session.new.seen }
    {
        entries_lead_on::<M, J>();
        state_after_replay::<M, J>();
        stands_for_longer::<M, J>();
        let mut journal = self.journal.lock(rt);
        if let Err(denied) = journal.teach(session) {
            return Err(PastFault::Denied(denied));
        }
        let rest = journal.entries(from.version);
        let count = (at - from.version).min(ROUND);
        let Ok(state) = replay::<M>(alloc, &from.state, &rest[..count as usize]) else {
            return Err(PastFault::Memory);
        };
        let Ok(kept) = Arc::try_clone(&state) else {
            return Err(PastFault::Memory);
        };
        let version = from.version + count;
        past.keep(version, kept);
        Ok(View { version, state })
    }
}
