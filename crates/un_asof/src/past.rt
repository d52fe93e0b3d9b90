//! A few states of a machine, each with the number of entries of the log that lead to it.
ghost use Rattle.std.specs.Prelude.{◌≡◌, ◌≤◌, ◌<◌, length, map, vec_capacity, [], ◌∷◌, IfOk};
ghost use Rattle.std.specs.Arc.{arc_value};
ghost use Rattle.un_asof.specs.Pasts.{IsCount, IsNearest, IsPast, keeping, KeepLaw, NearLaw, pair_of, StandsForAll, with_room};

use std::alloc::{AllocError, Global};
use std::marker::{Model, PhantomData};
use std::sync::Arc;
use un_machine::Machine;
use un_publish::published::BoardName;
use un_publish::session::View;

/// The most states that a past keeps.
const MOST: usize = 16;

/// At most 16 states, each with its version, which is the number of entries of the log that lead to it. The versions
/// rise, and the first one is 0. Contracts see the list of pairs of a version and a state. The type parameter `J` names
/// the board whose opening state is the state of version 0.
#[derive(Drop)]
pub struct Past<M: Machine, J: BoardName<M>> {
    kept: Vec<View<M>>,
    of: PhantomData<J>,
}

impl<M: Machine, J: BoardName<M>> Model for Past<M, J> {
    ghost use Rattle.std.specs.Prelude.{◌≤◌, ℕ, List, map, vec_capacity};
    ghost use Rattle.un_asof.specs.Pasts.{IsPast, pair_of};

    ghost Value = { List (ℕ × M) };

    ghost view = { λ p. map pair_of p.kept.items };

    ghost invariant = { λ p. IsPast (map pair_of p.kept.items) × (16 ≤ vec_capacity p.kept) };
}

// How many of the views, from the first one on, have a version that isn't over this one.
fn count_up_to<M: Machine>(views: &[View<M>], version: u64) -> usize
    ensures within { result ≤ length views.now }
    ensures count { IsCount (map pair_of views.now) version result }
{
    for (i, view) in views.iter().enumerate() {
        if view.version > version {
            return i;
        }
    }
    views.len()
}

// Of 16 views the second one goes, which has the least version other than 0.
fn make_room<M: Machine>(views: &mut Vec<View<M>>)
    requires { length views.old.items ≤ 16 }
    ensures items { views.new.items ≡ with_room views.old.items }
    ensures room { length views.new.items < 16 }
    ensures capacity { vec_capacity views.new ≡ vec_capacity views.old }
{
    if views.len() == MOST {
        drop(views.remove(1));
    }
}

impl<M: Machine, J: BoardName<M>> Past<M, J> {
    /// The past that keeps the opening state of the board alone. It takes the room for 16 states.
    pub fn new(alloc: Global, opening: Arc<M>) -> Result<Past<M, J>, AllocError>
        requires { J.opening ≡ arc_value opening ∷ [] }
        ensures pairs { IfOk result (λ p. p ≡ (0, arc_value opening) ∷ []) }
        ensures stands { IfOk result (λ p. StandsForAll M.Hint M.step J.opening p) }
    {
        let mut kept = Vec::with_capacity(alloc, MOST)?;
        kept.push_reserved(View {
            version: 0,
            state: opening,
        });
        Ok(Past {
            kept,
            of: PhantomData,
        })
    }

    /// The kept state of the greatest version that isn't over `at`, and that version. It takes no memory.
    pub fn near(&self, at: u64) -> (u64, &Arc<M>)
        ensures nearest { IsNearest self.now at (result.0, arc_value result.1.now) }
        ensures past { IsPast self.now }
        ensures stands { NearLaw M.Hint M.step J.opening self.now (result.0, arc_value result.1.now) }
    {
        let count = count_up_to(&self.kept, at);
        let view = &self.kept[count - 1];
        (view.version, &view.state)
    }

    /// Keeps the state after `version` entries of a log. Nothing changes if a state of this version is kept. Otherwise the
    /// kept state of the least version other than 0 goes if there are 16. It takes no memory.
    ///
    /// If the past stands for a log, and this is the state after the first `version` entries of it, then the past still
    /// stands for the log.
    pub fn keep(&mut self, version: u64, state: Arc<M>)
        ensures kept { self.new ≡ keeping (version, arc_value state) self.old }
        ensures stands { KeepLaw M.Hint M.step J.opening self.old (version, arc_value state) self.new }
    {
        if self.near(version).0 == version {
            return;
        }
        make_room(&mut self.kept);
        let place = count_up_to(&self.kept, version);
        // There is room for one more, so this takes no memory and doesn't fail.
        drop(self.kept.insert(place, View { version, state }));
    }
}
